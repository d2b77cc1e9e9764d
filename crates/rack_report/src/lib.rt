// The pass report for C and Rust. Each function hands its record and slice on to the call of the same name in `report` and lays
// the answer out as one struct of numbers: `refused` is 0 or the number of the refusal, and then the record is the one that was
// handed in, every field of it.
//
// Structs with a number beside values, and a mark beside least and largest, are the C interface.
//
// The contracts cite `specs/PassReport.antt`, over the definitions of the calls themselves. No function has a `requires`: nothing
// checks a caller in C.
#![tactic(auto)]

ghost use Rattle.std.specs.Prelude.{◌≡◌};
ghost use Rattle.report_record.specs.Report.{empty_report};
ghost use Rattle.rack_report.specs.PassReport.{tally_handed, tally_given, channel_handed, channel_given, report_handed, report_given, marked, refused_report, answer_given, mark_refusal, with_line_of, together_of};
ghost use Rattle.refusals.specs.Refusals.{answer_number, number_of};

use formats::format_refusal;
use refusals::Refusal;
use report_record::{Channel, Range, Report, Tally};

// A sector over all lines of a pass: how many accepted it, how many refused it with 5 and with 6; its filler bits that are set.
#[repr(C)]
#[derive(Clone, Copy)]
pub struct SectorTally {
    pub accepted: u64,
    pub remainder: u64,
    pub id: u64,
    pub filler: u64,
}

// The ten-bit pixels of IR1, IR2, IR3 or IR4 over all lines in which they were accepted. `present` is the mark: 1 where least and
// largest hold, and 0 where there are no pixels; a record with another number there is impossible.
#[repr(C)]
#[derive(Clone, Copy)]
pub struct ChannelTally {
    pub count: u64,
    pub sum: u64,
    pub least: u16,
    pub largest: u16,
    pub present: u32,
}

// The report, laid out without gaps and in widths that no machine changes, since a caller may store it: sector n at n - 1,
// channel n at n - 1.
#[repr(C)]
#[derive(Clone, Copy)]
pub struct PassReport {
    pub lines: u64,
    pub sectors: [SectorTally; 12],
    pub channels: [ChannelTally; 4],
}

// The answer of a call, with the report, which is the one handed in where the call is refused.
#[repr(C)]
#[derive(Clone, Copy)]
pub struct ReportAnswer {
    pub refused: u8,
    pub report: PassReport,
}

// A sector as the calls take it, and as it crosses the boundary.
impl From<SectorTally> for Tally {
    ghost from_gives = { λ t tally. tally ≡ tally_handed t };

    fn from(t: SectorTally) -> Self {
        Self {
            accepted: t.accepted,
            remainder: t.remainder,
            id: t.id,
            filler: t.filler,
        }
    }
}

impl From<Tally> for SectorTally {
    ghost from_gives = { λ t tally. tally ≡ tally_given t };

    fn from(t: Tally) -> Self {
        Self {
            accepted: t.accepted,
            remainder: t.remainder,
            id: t.id,
            filler: t.filler,
        }
    }
}

// A channel as the calls take it, by its mark alone, and as it crosses the boundary.
impl From<ChannelTally> for Channel {
    ghost from_gives = { λ c channel. channel ≡ channel_handed c };

    fn from(c: ChannelTally) -> Self {
        let range = if c.present == 1 {
            Some(Range {
                least: c.least,
                largest: c.largest,
            })
        } else {
            None
        };
        Self {
            count: c.count,
            sum: c.sum,
            range,
        }
    }
}

impl From<Channel> for ChannelTally {
    ghost from_gives = { λ c channel. channel ≡ channel_given c };

    fn from(c: Channel) -> Self {
        match c.range {
            None => Self {
                count: c.count,
                sum: c.sum,
                least: 0,
                largest: 0,
                present: 0,
            },
            Some(range) => Self {
                count: c.count,
                sum: c.sum,
                least: range.least,
                largest: range.largest,
                present: 1,
            },
        }
    }
}

// A report as the calls take it, and as it crosses the boundary.
impl From<PassReport> for Report {
    ghost from_gives = { λ p report. report ≡ report_handed p };

    fn from(p: PassReport) -> Self {
        Self {
            lines: p.lines,
            sectors: p.sectors.map(Tally::from),
            channels: p.channels.map(Channel::from),
        }
    }
}

impl From<Report> for PassReport {
    ghost from_gives = { λ r report. report ≡ report_given r };

    fn from(r: Report) -> Self {
        Self {
            lines: r.lines,
            sectors: r.sectors.map(SectorTally::from),
            channels: r.channels.map(ChannelTally::from),
        }
    }
}

// Inner. Whether every mark is 0 or 1.
fn marked(p: PassReport) -> bool
    ensures { result ≡ marked p }
{
    p.channels.iter().all(|c| c.present <= 1)
}

// Inner. The answer of a refused call, and the answer of any call, with the record that was handed in.
fn refused_report(refusal: Refusal, was: PassReport) -> ReportAnswer
    ensures { result ≡ refused_report (number_of refusal) was }
{
    ReportAnswer {
        refused: refusal.number(),
        report: was,
    }
}

fn answer_given(was: PassReport, answer: Result<Report, Refusal>) -> ReportAnswer
    ensures { result ≡ answer_given was answer }
{
    match answer {
        Ok(report) => ReportAnswer {
            refused: 0,
            report: PassReport::from(report),
        },
        Err(refusal) => refused_report(refusal, was),
    }
}

// The report of no lines: every field 0.
pub fn hansobrik_empty_report() -> PassReport
    ensures { result ≡ report_given empty_report }
{
    PassReport::from(report::empty())
}

// Inner. What refuses a record with a mark that is neither 0 nor 1: 12, after 1.
#[tactic(auto, unfolding(crate::specs::PassReport::mark_refusal, refusals::specs::Refusals::first))]
fn impossible_mark(format: u8) -> Refusal
    ensures { number_of result ≡ mark_refusal format }
{
    match format_refusal(format) {
        Ok(()) => Refusal::State,
        Err(refusal) => refusal,
    }
}

// The report with one line more; refused with 1, 12, 15, 2.
#[tactic(auto, unfolding(crate::specs::PassReport::with_line_of))]
pub fn hansobrik_with_line(format: u8, report: PassReport, line: &[u8]) -> ReportAnswer
    ensures { result ≡ with_line_of format report line.now }
{
    if !marked(report) {
        return refused_report(impossible_mark(format), report);
    }
    answer_given(
        report,
        report::with_line_or_refused(format, Report::from(report), line),
    )
}

// The report of two passes, one after the other; refused with 12, 15, and then the first comes back.
#[tactic(auto, unfolding(crate::specs::PassReport::together_of))]
pub fn hansobrik_together(first: PassReport, second: PassReport) -> ReportAnswer
    ensures { result ≡ together_of first second }
{
    if !marked(first) || !marked(second) {
        return refused_report(Refusal::State, first);
    }
    answer_given(
        first,
        report::together_or_refused(Report::from(first), Report::from(second)),
    )
}
