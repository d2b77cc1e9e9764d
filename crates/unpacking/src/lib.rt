// The data of a sector of a plain line as bytes, and its pixels as numbers, out of its bits. The calls, which test the sector first,
// are in `pixels`.
//
// The contracts cite `specs/Sector.antt` of `sector_check`, what a sector of a line says. All functions are marked "Inner.".
#![tactic(auto)]

ghost use Rattle.std.specs.Prelude.{◌≡◌, ◌++◌, ◌+◌, ◌-◌, ◌*◌, ◌^◌, ◌≤◌, ◌<◌, length, drop, map};
ghost use Rattle.formats.specs.Formats.{line_bytes};
ghost use Rattle.bits.specs.Bits.{bits_of, part, number_of};
ghost use Rattle.sector_table.specs.Layout.{bytes_of, Sound};
ghost use Rattle.sector_check.specs.Sector.{data_of, pixels_of};

use sector_table::layout::{Layout, data_bytes};
use slices::Stored;

// Inner. The bits from a place on as the high bits of a byte, with spare zeros below them.
fn last_byte(line: &[u8], at: usize, spare: usize) -> u8
    requires { (at + 8 ≤ 8 * length line.now) × (spare < 8) }
    ensures { result ≡ number_of (part line.now at (8 - spare)) * 2 ^ spare }
{
    (slices::field(line, at, 8 - spare) << spare) as u8
}

// Inner. The data of a sector, which may start at any bit of a byte; what lies behind them in out is kept.
pub fn unpack_data(l: Layout, line: &[u8], out: &mut [u8])
    requires { Sound l × (line_bytes ≤ length line.now) × (bytes_of l ≤ length out.old) }
    ensures { out.new ≡ data_of l (bits_of line.now) ++ drop (bytes_of l) out.old }
{
    let at = l.start + l.id_bits;
    let whole = data_bytes(l) - 1;
    let spare = whole * 8 + 8 - l.data_bits;
    slices::unpack(line, at, 8, &mut out[..whole]);
    out[whole] = last_byte(line, at + whole * 8, spare);
}

// Inner. The pixels of a sector, at a width that what stores them has room for; what lies behind them in out is kept.
pub fn unpack_pixels<T: Stored>(l: Layout, line: &[u8], out: &mut [T])
    requires { Sound l × (line_bytes ≤ length line.now) × (l.width ≤ T.room) × (l.count ≤ length out.old) }
    ensures { map T.number out.new ≡ pixels_of l (bits_of line.now) ++ drop l.count (map T.number out.old) }
{
    slices::unpack(line, l.start + l.id_bits, l.width, &mut out[..l.count]);
}
