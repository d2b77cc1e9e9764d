// The whole record of a pass report: whether it is possible, two of them added, and that of one line. Its parts are those of
// `report_record`, `sector_tally` and `report_line`.
//
// The contracts cite `specs/Report.antt` and `specs/Possible.antt` of `report_record`.
//
// All functions here are inner; those that add ask that both are possible, so that no sum is over 64 bits, and those on a line for a
// buffer that holds it.
#![tactic(auto)]

ghost use Rattle.std.specs.Prelude.{◌≡◌, true, [], ◌∷◌, ℕ, suc, ◌≤◌, length};
ghost use Rattle.formats.specs.Formats.{line_bytes};
ghost use Rattle.bits.specs.Bits.{bits_of};
ghost use Rattle.refusals.specs.Refusals.{answer_number};
ghost use Rattle.report_record.specs.Sums.{row_of};
ghost use Rattle.report_record.specs.Report.{tally_at, channel_at, add_tally, add_channel, added, tally_of, report_by};
ghost use Rattle.report_record.specs.Possible.{most_lines, sectors_sound, channels_sound, possible_report, record_refusal};

use refusals::Refusal;
use report_line::{pair_channel, wide_channel};
use report_record::{
    Channel, MOST_LINES, Report, Tally, add_channel, add_tally, sound_channel, sound_tally,
};
use sector_tally::line_tally;
use std::array;

// Inner. Whether all tallies are.
fn sectors_sound(a: Report) -> bool
    requires { a.lines ≤ most_lines }
    ensures { result ≡ sectors_sound a }
{
    a.sectors.iter().all(|t| sound_tally(*t, a.lines))
}

// Inner. Whether all channels are.
fn channels_sound(a: Report) -> bool
    requires { a.lines ≤ most_lines }
    ensures { result ≡ channels_sound a }
{
    a.channels.iter().all(|c| sound_channel(*c, a.lines))
}

// Inner. Refuses, with 12, where the record is impossible.
#[tactic(auto, unfolding(report_record::specs::Possible::record_refusal, report_record::specs::Possible::possible_report, refusals::specs::Refusals::when))]
pub fn record_refusal(a: Report) -> Result<(), Refusal>
    ensures { answer_number result ≡ record_refusal a }
{
    if a.lines <= MOST_LINES && sectors_sound(a) && channels_sound(a) {
        Ok(())
    } else {
        Err(Refusal::State)
    }
}

// Inner. The tallies of two possible reports, added.
#[tactic(auto, using(crate::proofs::Parts::tallies_room))]
fn add_sectors(a: Report, b: Report) -> [Tally; 12]
    requires { (possible_report a ≡ true) × (possible_report b ≡ true) }
    ensures { result ≡ row_of (λ (i : ℕ). add_tally (tally_at a i) (tally_at b i)) 12 }
{
    let mut out = a.sectors;
    for i in 0..12 {
        out[i] = add_tally(a.sectors[i], b.sectors[i]);
    }
    out
}

// Inner. The channels of two possible reports, added.
#[tactic(auto, using(crate::proofs::Parts::channels_room))]
fn add_channels(a: Report, b: Report) -> [Channel; 4]
    requires { (possible_report a ≡ true) × (possible_report b ≡ true) }
    ensures { result ≡ row_of (λ (i : ℕ). add_channel (channel_at a i) (channel_at b i)) 4 }
{
    let mut out = a.channels;
    for i in 0..4 {
        out[i] = add_channel(a.channels[i], b.channels[i]);
    }
    out
}

// Inner. Two possible reports added.
#[tactic(auto, using(crate::proofs::Parts::lines_room), unfolding(report_record::specs::Report::added))]
pub fn add(a: Report, b: Report) -> Report
    requires { (possible_report a ≡ true) × (possible_report b ≡ true) }
    ensures { result ≡ added a b }
{
    Report {
        lines: a.lines + b.lines,
        sectors: add_sectors(a, b),
        channels: add_channels(a, b),
    }
}

// Inner. The twelve tallies of one line.
fn line_sectors(start: u16, line: &[u8]) -> [Tally; 12]
    requires { line_bytes ≤ length line.now }
    ensures { result ≡ row_of (λ (i : ℕ). tally_of start (suc i) (bits_of line.now ∷ [])) 12 }
{
    array::from_fn(|i| line_tally(start, i as u8 + 1, line))
}

// Inner. The report of one line.
pub fn line_report(start: u16, line: &[u8]) -> Report
    requires { line_bytes ≤ length line.now }
    ensures { result ≡ report_by start (bits_of line.now ∷ []) }
{
    let sectors = line_sectors(start, line);
    Report {
        lines: 1,
        sectors,
        channels: [
            pair_channel(sectors[1], sectors[8], 1, line),
            pair_channel(sectors[2], sectors[9], 2, line),
            pair_channel(sectors[3], sectors[10], 3, line),
            wide_channel(sectors[11], line),
        ],
    }
}
