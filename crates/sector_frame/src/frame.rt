// What stands around the data of a sector: its ID before them, check word and filler behind them.
ghost use Rattle.std.specs.Prelude.{◌≡◌, ◌++◌, ◌+◌, ◌*◌, ◌^◌, ◌≤◌, ◌<◌, length, take, drop, replicate};
ghost use Rattle.formats.specs.Formats.{line_bytes};
ghost use Rattle.bits.specs.Bits.{bits_of};
ghost use Rattle.sector_table.specs.Layout.{filler_bits, Sound};
ghost use Rattle.sector_check.specs.Sector.{data_bits_of};
ghost use Rattle.sector_frame.specs.Written.{sector_written};

use sector_table::layout::{CHECK_BITS, Layout};

// Inner. The filler, 2,048 zeros from a place on.
fn put_filler(line: &mut [u8], at: usize)
    requires { (at + filler_bits ≤ 8 * length line.old) × (at + filler_bits < 2 ^ 64) }
    ensures { bits_of line.new ≡ take at (bits_of line.old) ++ replicate filler_bits 0 ++ drop (at + filler_bits) (bits_of line.old) }
{
    slice_writer::pack(&[0u16; 128], 16, line, at);
}

// Inner. ID, check word and zero filler of a sector whose data bits stand in the line.
pub fn put_frame(start: u16, l: Layout, line: &mut [u8])
    requires { Sound l × (line_bytes ≤ length line.old) }
    ensures { bits_of line.new ≡ sector_written start l (data_bits_of l (bits_of line.old)) (bits_of line.old) }
{
    let at = l.start + l.id_bits + l.data_bits;
    slice_writer::put_field(line, l.start, l.id_bits, l.id);
    let word = crc::check_word(start, line, l.start, l.id_bits + l.data_bits);
    slice_writer::put_field(line, at, CHECK_BITS, word);
    put_filler(line, at + CHECK_BITS);
}
