// The calls of `rack_document` for C.
ghost use Rattle.std.specs.Prelude.{◌≡◌};
ghost use Rattle.document.specs.Modes.{scan_mode_answer, scanner_select_answer};
ghost use Rattle.document_stamps.specs.Lines.{line_numbers_answer};
ghost use Rattle.document_stamps.specs.Dates.{date_answer};
ghost use Rattle.document.specs.Segments.{sub_commutation_answer};
ghost use Rattle.document_fields.specs.Fields.{integer_field_answer, bcd_field_answer, real_field_answer, f64_field_answer};
ghost use Rattle.rack_number.specs.Number.{integer_given, bcd_given, real_given, float_given};
ghost use Rattle.rack_document.specs.Documentation.{scan_given, scanner_given, lines_given, date_given, segment_given};

use rack_document::{DateAnswer, LinesAnswer, NameAnswer, SegmentAnswer};
use rack_number::{BcdAnswer, FloatAnswer, IntegerAnswer, RealAnswer};

#[unsafe(no_mangle)]
pub extern "C" fn hansobrik_scan_mode(format: u8, line: &[u8]) -> NameAnswer
    ensures { result ≡ scan_given (scan_mode_answer format line.now) }
{
    rack_document::hansobrik_scan_mode(format, line)
}

#[unsafe(no_mangle)]
pub extern "C" fn hansobrik_scanner_select(format: u8, line: &[u8]) -> NameAnswer
    ensures { result ≡ scanner_given (scanner_select_answer format line.now) }
{
    rack_document::hansobrik_scanner_select(format, line)
}

#[unsafe(no_mangle)]
pub extern "C" fn hansobrik_line_numbers(format: u8, line: &[u8]) -> LinesAnswer
    ensures { result ≡ lines_given (line_numbers_answer format line.now) }
{
    rack_document::hansobrik_line_numbers(format, line)
}

#[unsafe(no_mangle)]
pub extern "C" fn hansobrik_date(format: u8, line: &[u8]) -> DateAnswer
    ensures { result ≡ date_given (date_answer format line.now) }
{
    rack_document::hansobrik_date(format, line)
}

#[unsafe(no_mangle)]
pub extern "C" fn hansobrik_sub_commutation(format: u8, line: &[u8]) -> SegmentAnswer
    ensures { result ≡ segment_given (sub_commutation_answer format line.now) }
{
    rack_document::hansobrik_sub_commutation(format, line)
}

#[unsafe(no_mangle)]
pub extern "C" fn hansobrik_integer_field(
    format: u8,
    line: &[u8],
    place: usize,
    n: usize,
) -> IntegerAnswer
    ensures { result ≡ integer_given (integer_field_answer format line.now place n) }
{
    rack_document::hansobrik_integer_field(format, line, place, n)
}

#[unsafe(no_mangle)]
pub extern "C" fn hansobrik_bcd_field(format: u8, line: &[u8], place: usize, n: usize) -> BcdAnswer
    ensures { result ≡ bcd_given (bcd_field_answer format line.now place n) }
{
    rack_document::hansobrik_bcd_field(format, line, place, n)
}

#[unsafe(no_mangle)]
pub extern "C" fn hansobrik_real_field(
    format: u8,
    line: &[u8],
    place: usize,
    n: usize,
    m: u8,
) -> RealAnswer
    ensures { result ≡ real_given (real_field_answer format line.now place n m) }
{
    rack_document::hansobrik_real_field(format, line, place, n, m)
}

#[unsafe(no_mangle)]
pub extern "C" fn hansobrik_f64_field(
    format: u8,
    line: &[u8],
    place: usize,
    n: usize,
    m: u8,
) -> FloatAnswer
    ensures { result ≡ float_given (f64_field_answer format line.now place n m) }
{
    rack_document::hansobrik_f64_field(format, line, place, n, m)
}
