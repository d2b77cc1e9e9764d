// The channels of one line's report: pixels are folded as they are read, without a buffer. `report_whole` puts them together with
// the tallies of `sector_tally`.
//
// The contracts cite `specs/Report.antt` of `report_record`, what a report is, and `specs/Line.antt`, what is known of some pixels on
// the way.
//
// All functions here are inner: they ask for a buffer that holds the line.
#![tactic(auto)]

ghost use Rattle.std.specs.Prelude.{◌≡◌, ◌&&◌, ◌+◌, ◌*◌, ◌^◌, ◌≤◌, ◌<◌, eqb, length, drop};
ghost use Rattle.formats.specs.Formats.{line_bytes};
ghost use Rattle.bits.specs.Bits.{bits_of, part, number_of, fields_of};
ghost use Rattle.sector_table.specs.Layout.{layout_of, upper_of, lower_of};
ghost use Rattle.sector_check.specs.Sector.{joined_of, pixels_of};
ghost use Rattle.report_record.specs.Report.{given, channel_of};
ghost use Rattle.report_line.specs.Line.{first_pixel, with_pixel, folded};

use report_record::{Channel, Range, Tally};
use sector_table::layout::layout_of;

// Some pixels, folded: their sum, their least and their largest.
#[derive(Clone, Copy, Debug, PartialEq, Eq)]
pub struct Fold {
    pub sum: u64,
    pub range: Range,
}

// Inner. One pixel alone.
fn first_pixel(p: u16) -> Fold
    ensures { result ≡ first_pixel p }
{
    Fold {
        sum: p as u64,
        range: Range {
            least: p,
            largest: p,
        },
    }
}

// Inner. With one pixel more.
fn with_pixel(f: Fold, p: u16) -> Fold
    requires { f.sum + p < 2 ^ 64 }
    ensures { result ≡ with_pixel f p }
{
    Fold {
        sum: f.sum + p as u64,
        range: Range {
            least: f.range.least.min(p),
            largest: f.range.largest.max(p),
        },
    }
}

// Inner. The channel of n pixels, folded.
fn channel(n: usize, f: Fold) -> Channel
    ensures { result ≡ folded n f }
{
    Channel {
        count: n as u64,
        sum: f.sum,
        range: Some(f.range),
    }
}

// Inner. One pixel of IR1-3: eight bits of the upper part above two of the lower one.
fn pair_pixel(line: &[u8], high: usize, low: usize) -> u16
    requires { (high + 8 ≤ 8 * length line.now) × (low + 2 ≤ 8 * length line.now) }
    ensures { (result ≡ 4 * number_of (part line.now high 8) + number_of (part line.now low 2)) × (result ≤ 1023) }
{
    4 * slices::field(line, high, 8) + slices::field(line, low, 2)
}

// Inner. The first n pixels, one at least, of an upper part and of a lower one: joined, and folded at once.
fn pair_run(line: &[u8], upper: usize, lower: usize, n: usize) -> Channel
    requires { (upper + n * 8 ≤ 8 * length line.now) × (lower + n * 2 ≤ 8 * length line.now) × (upper + n * 8 < 2 ^ 64) × (lower + n * 2 < 2 ^ 64) × (1 ≤ n) × (n ≤ 2291) }
    ensures { result ≡ channel_of (joined_of (fields_of 8 n (drop upper (bits_of line.now))) (fields_of 2 n (drop lower (bits_of line.now)))) }
{
    let mut f = first_pixel(pair_pixel(line, upper, lower));
    for i in 1..n {
        f = with_pixel(f, pair_pixel(line, upper + i * 8, lower + i * 2));
    }
    channel(n, f)
}

// Inner. The first n pixels of ten bits, one at least, from a place on, folded.
fn wide_run(line: &[u8], at: usize, n: usize) -> Channel
    requires { (at + n * 10 ≤ 8 * length line.now) × (at + n * 10 < 2 ^ 64) × (1 ≤ n) × (n ≤ 2291) }
    ensures { result ≡ channel_of (fields_of 10 n (drop at (bits_of line.now))) }
{
    let mut f = first_pixel(slices::field(line, at, 10));
    for i in 1..n {
        f = with_pixel(f, slices::field(line, at + i * 10, 10));
    }
    channel(n, f)
}

// Inner. IR1-3 of one line, with the tallies of its upper and its lower sector: no pixel where either is not accepted.
pub fn pair_channel(upper: Tally, lower: Tally, channel: u8, line: &[u8]) -> Channel
    requires { (1 ≤ channel) × (channel ≤ 3) × (line_bytes ≤ length line.now) }
    ensures { result ≡ channel_of (given (eqb upper.accepted 1 && eqb lower.accepted 1) (joined_of (pixels_of (upper_of channel) (bits_of line.now)) (pixels_of (lower_of channel) (bits_of line.now)))) }
{
    if upper.accepted != 1 || lower.accepted != 1 {
        return Channel::default();
    }
    let u = layout_of(channel + 1);
    let l = layout_of(channel + 8);
    pair_run(line, u.start + u.id_bits, l.start + l.id_bits, u.count)
}

// Inner. IR4 of one line, with the tally of its sector.
pub fn wide_channel(last: Tally, line: &[u8]) -> Channel
    requires { line_bytes ≤ length line.now }
    ensures { result ≡ channel_of (given (eqb last.accepted 1) (pixels_of (layout_of 12) (bits_of line.now))) }
{
    if last.accepted != 1 {
        return Channel::default();
    }
    let l = layout_of(12);
    wide_run(line, l.start + l.id_bits, l.count)
}
