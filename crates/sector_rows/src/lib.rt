// Data or pixels laid into a sector of a plain line, with ID, check word and zero filler around them. The calls, which refuse what
// these functions ask of their caller, are in `sector_writer`.
//
// The contracts cite `specs/Written.antt` of `sector_frame`. All functions are marked "Inner.".
#![tactic(auto)]

ghost use Rattle.std.specs.Prelude.{◌≡◌, ◌++◌, ◌+◌, ◌≤◌, length, take, drop, map};
ghost use Rattle.formats.specs.Formats.{line_bytes};
ghost use Rattle.bits.specs.Bits.{bits_of};
ghost use Rattle.sector_table.specs.Layout.{data_at, bytes_of, Sound};
ghost use Rattle.sector_frame.specs.Written.{data_written, pixels_written, sector_written};

use sector_frame::frame::put_frame;
use sector_table::layout::{Layout, data_bytes};
use slices::Stored;

// Inner. The data bytes of a sector: whole ones, and of the last one all but its spare low bits.
pub fn put_bytes(l: Layout, line: &mut [u8], bytes: &[u8])
    requires { Sound l × (line_bytes ≤ length line.old) × (bytes_of l ≤ length bytes.now) }
    ensures { bits_of line.new ≡ take (data_at l) (bits_of line.old) ++ data_written l bytes.now ++ drop (data_at l + l.data_bits) (bits_of line.old) }
{
    let at = l.start + l.id_bits;
    let whole = data_bytes(l) - 1;
    let spare = whole * 8 + 8 - l.data_bits;
    slice_writer::pack(&bytes[..whole], 8, line, at);
    slice_writer::put_field(
        line,
        at + whole * 8,
        8 - spare,
        u16::from(bytes[whole] >> spare),
    );
}

// Inner. Data with ID, check word and filler.
pub fn write_bytes(start: u16, l: Layout, line: &mut [u8], bytes: &[u8])
    requires { Sound l × (line_bytes ≤ length line.old) × (bytes_of l ≤ length bytes.now) }
    ensures { bits_of line.new ≡ sector_written start l (data_written l bytes.now) (bits_of line.old) }
{
    put_bytes(l, line, bytes);
    put_frame(start, l, line);
}

// Inner. Pixels with ID, check word and filler.
pub fn write_row<T: Stored>(start: u16, l: Layout, line: &mut [u8], pixels: &[T])
    requires { Sound l × (line_bytes ≤ length line.old) × (l.count ≤ length pixels.now) }
    ensures { bits_of line.new ≡ sector_written start l (pixels_written l (map T.number pixels.now)) (bits_of line.old) }
{
    slice_writer::pack(&pixels[..l.count], l.width, line, l.start + l.id_bits);
    put_frame(start, l, line);
}
