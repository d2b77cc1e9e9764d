// The pass report: one record over all lines of a pass, by value. `empty` begins it, `with_line` adds a line, and `together` the
// report of the next pass. A report is copied in, and a call gives the report after it beside its answer: a refused call gives it back
// as it was. A caller that goes on only where it is served takes `with_line_or_refused` and `together_or_refused`.
//
// The contracts cite `specs/Report.antt` of `report_record`, what the record is over a list of lines, and `specs/Calls.antt`,
// the refusals and the answer of each call.
//
// No public function has a `requires`. A line's buffer may be longer than 44,356 bytes.
#![tactic(auto)]

ghost use Rattle.std.specs.Prelude.{◌≡◌};
ghost use Rattle.refusals.specs.Refusals.{answer_number};
ghost use Rattle.report_record.specs.Report.{empty_report};
ghost use Rattle.report.specs.Calls.{reported, full_refusal, with_line_refusal, with_line_answer, together_refusal, together_answer};

use formats::{Format, check_start, format_refusal};
use refusals::{Refusal, enough};
use report_record::{MOST_LINES, Report};
use report_whole::{add, line_report, record_refusal};

// What a call gives: its answer, and the report after it, which is as it was where the call is refused.
#[derive(Clone, Copy, Debug, PartialEq, Eq)]
pub struct Reported {
    pub answer: Result<(), Refusal>,
    pub report: Report,
}

// The report of no lines.
#[tactic(auto, unfolding(report_record::specs::Report::empty_report, report_record::specs::Sums::row_of))]
pub fn empty() -> Report
    ensures { result ≡ empty_report }
{
    Report::default()
}

// Inner. Refuses, with 15, where so many lines and so many more are over the limit. The sum itself may not fit 64 bits.
#[tactic(auto, unfolding(crate::specs::Calls::full_refusal, refusals::specs::Refusals::when))]
fn full_refusal(lines: u64, more: u64) -> Result<(), Refusal>
    ensures { answer_number result ≡ full_refusal lines more }
{
    if lines > MOST_LINES || more > MOST_LINES - lines {
        Err(Refusal::Full)
    } else {
        Ok(())
    }
}

// Inner. What refuses one line more: 1, 12, 15, 2.
#[tactic(auto, using(refusals::proofs::Numbers::refused_first, refusals::proofs::Numbers::passed_first), unfolding(crate::specs::Calls::with_line_refusal))]
fn with_line_refusal(format: u8, report: Report, given: usize) -> Result<(), Refusal>
    ensures { answer_number result ≡ with_line_refusal format report given }
{
    format_refusal(format)?;
    record_refusal(report)?;
    full_refusal(report.lines, 1)?;
    enough(given, Format::LINE_BYTES, Refusal::ShortInput)
}

// Inner. What refuses two reports together: 12 of the first, 12 of the second, 15.
#[tactic(auto, unfolding(crate::specs::Calls::together_refusal, refusals::specs::Refusals::first))]
fn together_refusal(a: Report, b: Report) -> Result<(), Refusal>
    ensures { answer_number result ≡ together_refusal a b }
{
    record_refusal(a)?;
    record_refusal(b)?;
    full_refusal(a.lines, b.lines)
}

// Inner. The report after a call on one, by what the call answers.
fn after(was: Report, answer: Result<Report, Refusal>) -> Reported
    ensures { result ≡ reported was answer }
{
    match answer {
        Ok(report) => Reported {
            answer: Ok(()),
            report,
        },
        Err(refusal) => Reported {
            answer: Err(refusal),
            report: was,
        },
    }
}

// The report with one line more, which stands in a buffer of 44,356 bytes or more. Refused with 1, 12, 15, 2, and then the report
// comes back as it was.
pub fn with_line(format: u8, report: Report, line: &[u8]) -> Reported
    ensures { result ≡ reported report (with_line_answer format report line.now) }
{
    after(report, with_line_or_refused(format, report, line))
}

// The report of two passes, one after the other. Refused with 12 of either and 15, and then the first comes back.
pub fn together(a: Report, b: Report) -> Reported
    ensures { result ≡ reported a (together_answer a b) }
{
    after(a, together_or_refused(a, b))
}

// The report with one line more, and none where that is refused, with 1, 12, 15, 2.
#[tactic(auto, unfolding(crate::specs::Calls::with_line_answer, refusals::specs::Refusals::answered))]
pub fn with_line_or_refused(format: u8, report: Report, line: &[u8]) -> Result<Report, Refusal>
    ensures { result ≡ with_line_answer format report line.now }
{
    with_line_refusal(format, report, line.len())?;
    Ok(add(report, line_report(check_start(format), line)))
}

// The report of two passes, one after the other, and none where that is refused, with 12 of either and 15.
#[tactic(auto, unfolding(crate::specs::Calls::together_answer, refusals::specs::Refusals::answered))]
pub fn together_or_refused(a: Report, b: Report) -> Result<Report, Refusal>
    ensures { result ≡ together_answer a b }
{
    together_refusal(a, b)?;
    Ok(add(a, b))
}
