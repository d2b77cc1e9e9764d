// The calls of `rack_report` for C.
ghost use Rattle.std.specs.Prelude.{◌≡◌};
ghost use Rattle.report_record.specs.Report.{empty_report};
ghost use Rattle.rack_report.specs.PassReport.{report_given, with_line_of, together_of};

use rack_report::{PassReport, ReportAnswer};

#[unsafe(no_mangle)]
pub extern "C" fn hansobrik_empty_report() -> PassReport
    ensures { result ≡ report_given empty_report }
{
    rack_report::hansobrik_empty_report()
}

#[unsafe(no_mangle)]
pub extern "C" fn hansobrik_with_line(format: u8, report: PassReport, line: &[u8]) -> ReportAnswer
    ensures { result ≡ with_line_of format report line.now }
{
    rack_report::hansobrik_with_line(format, report, line)
}

#[unsafe(no_mangle)]
pub extern "C" fn hansobrik_together(first: PassReport, second: PassReport) -> ReportAnswer
    ensures { result ≡ together_of first second }
{
    rack_report::hansobrik_together(first, second)
}
