// The record of a pass report, by value: what it is over a list of lines, and its parts, a sector's tally and a channel, added and
// tested. `report_line` has the parts of one line, `report_whole` the whole record, and `report` the calls.
//
// The contracts cite `specs/Report.antt`, what the record is, and `specs/Possible.antt`, refusal 12.
//
// All functions here are inner; those that add ask for room, so that no sum is over 64 bits.
#![tactic(auto)]

ghost use Rattle.std.specs.Prelude.{◌≡◌, ◌+◌, ◌^◌, ◌≤◌, ◌<◌};
ghost use Rattle.report_record.specs.Report.{wider, add_tally, add_channel};
ghost use Rattle.report_record.specs.Possible.{most_lines, sound_tally, sound_channel};

// The most lines of a report.
pub const MOST_LINES: u64 = 100000;

// What one line allows: filler bits of a sector, pixels of a channel, and their sum, 1,023 each.
const LINE_FILLER: u64 = 2048;

const LINE_PIXELS: u64 = 2291;

const LINE_SUM: u64 = 2343693;

// The least and the largest of some pixels.
#[derive(Clone, Copy, Debug, PartialEq, Eq)]
pub struct Range {
    pub least: u16,
    pub largest: u16,
}

// A sector over all lines: how many accepted it, how many refused it with 5 and with 6; how many of its filler bits are set.
#[derive(Clone, Copy, Debug, PartialEq, Eq, Default)]
pub struct Tally {
    pub accepted: u64,
    pub remainder: u64,
    pub id: u64,
    pub filler: u64,
}

// The ten-bit pixels of IR1, IR2, IR3 or IR4, of all lines in which they were accepted: no range where there are none.
#[derive(Clone, Copy, Debug, PartialEq, Eq, Default)]
pub struct Channel {
    pub count: u64,
    pub sum: u64,
    pub range: Option<Range>,
}

// The report: sector n at n - 1, channel n at n - 1.
#[derive(Clone, Copy, Debug, PartialEq, Eq, Default)]
pub struct Report {
    pub lines: u64,
    pub sectors: [Tally; 12],
    pub channels: [Channel; 4],
}

// Inner. Two ranges as one.
fn widened(a: Option<Range>, b: Option<Range>) -> Option<Range>
    ensures { result ≡ wider a b }
{
    match (a, b) {
        (None, only) | (only, None) => only,
        (Some(a), Some(b)) => Some(Range {
            least: a.least.min(b.least),
            largest: a.largest.max(b.largest),
        }),
    }
}

// Inner. Two tallies added.
pub fn add_tally(a: Tally, b: Tally) -> Tally
    requires { (a.accepted + b.accepted < 2 ^ 64) × (a.remainder + b.remainder < 2 ^ 64) × (a.id + b.id < 2 ^ 64) × (a.filler + b.filler < 2 ^ 64) }
    ensures { result ≡ add_tally a b }
{
    Tally {
        accepted: a.accepted + b.accepted,
        remainder: a.remainder + b.remainder,
        id: a.id + b.id,
        filler: a.filler + b.filler,
    }
}

// Inner. Two channels added.
pub fn add_channel(a: Channel, b: Channel) -> Channel
    requires { (a.count + b.count < 2 ^ 64) × (a.sum + b.sum < 2 ^ 64) }
    ensures { result ≡ add_channel a b }
{
    Channel {
        count: a.count + b.count,
        sum: a.sum + b.sum,
        range: widened(a.range, b.range),
    }
}

// Inner. Whether a tally is one that so many lines allow. Its counts are taken off the lines one by one: their sum, where they
// are made up, may not fit 64 bits.
#[tactic(auto, unfolding(crate::specs::Possible::sound_tally))]
pub fn sound_tally(t: Tally, lines: u64) -> bool
    requires { lines ≤ most_lines }
    ensures { result ≡ sound_tally lines t }
{
    t.accepted <= lines
        && t.remainder <= lines - t.accepted
        && t.id == lines - t.accepted - t.remainder
        && t.filler <= LINE_FILLER * lines
}

// Inner. Whether a channel is.
#[tactic(auto, unfolding(crate::specs::Possible::sound_channel))]
pub fn sound_channel(c: Channel, lines: u64) -> bool
    requires { lines ≤ most_lines }
    ensures { result ≡ sound_channel lines c }
{
    c.count <= LINE_PIXELS * lines && c.sum <= LINE_SUM * lines
}
