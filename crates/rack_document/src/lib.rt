// The fields of the documentation sector for C and Rust. Each function hands its numbers and slices on to the call of the same
// name in `document`, `document_stamps` or `document_fields` and lays that call's answer out as one struct of numbers: `refused` is
// 0 or the number of the refusal, and a refused answer has 0 in every other field. Structs with a number beside values are the C
// interface, and stay.
//
// The contracts cite `specs/Documentation.antt`, and `rack_number` for the answers that are a number's, over the definitions
// of the calls themselves. No function has a `requires`: nothing checks a caller in C.
//
// A slice crosses as a pointer and a count; slices that are lent to one call must not overlap.
#![tactic(auto)]

ghost use Rattle.std.specs.Prelude.{◌≡◌};
ghost use Rattle.document.specs.Modes.{mode_name, mode_byte, scan_mode_answer, mirror_name, mirror_byte, scanner_select_answer};
ghost use Rattle.document_stamps.specs.Lines.{line_numbers_answer};
ghost use Rattle.document_stamps.specs.Dates.{date_answer};
ghost use Rattle.document.specs.Segments.{sub_commutation_answer};
ghost use Rattle.document_fields.specs.Fields.{integer_field_answer, bcd_field_answer, real_field_answer, f64_field_answer};
ghost use Rattle.rack_number.specs.Number.{integer_given, bcd_given, real_given, float_given};
ghost use Rattle.rack_document.specs.Documentation.{name_given, scan_given, scanner_given, lines_given, date_given, segment_given};

use bcd_dates::dates::DateTime;
use document::modes::{Mirror, ScanMode};
use document::segments::SubCommutation;
use document_stamps::lines::LineNumbers;
use rack_number::{BcdAnswer, FloatAnswer, IntegerAnswer, RealAnswer};
use refusals::Refusal;

// A byte that names a way of scanning, and what it names: 0 where it names nothing. Scan modes are 1 full, 2 limited,
// 3 single; mirrors are 1 to 4 for 1-A, 1-B, 2-A and 2-B.
#[repr(C)]
#[derive(Clone, Copy)]
pub struct NameAnswer {
    pub refused: u8,
    pub name: u8,
    pub byte: u8,
}

// Line numbers and the line position, scan count minus set line.
#[repr(C)]
#[derive(Clone, Copy)]
pub struct LinesAnswer {
    pub refused: u8,
    pub set_line: u16,
    pub reset_line: u16,
    pub scan_count: u16,
    pub position: i32,
}

// Date and time.
#[repr(C)]
#[derive(Clone, Copy)]
pub struct DateAnswer {
    pub refused: u8,
    pub month: u8,
    pub day: u8,
    pub hour: u8,
    pub minute: u8,
    pub second: u8,
    pub hundredths: u8,
    pub year: u16,
}

// The segment 0 to 24 of every block that a line carries, and its repeat 0 to 7.
#[repr(C)]
#[derive(Clone, Copy)]
pub struct SegmentAnswer {
    pub refused: u8,
    pub segment: u8,
    pub repeat: u8,
}

// Inner. A name and its byte.
#[tactic(auto, unfolding(crate::specs::Documentation::name_given))]
fn named(name: u8, byte: u8) -> NameAnswer
    ensures { result ≡ name_given 0 name byte }
{
    NameAnswer {
        refused: 0,
        name,
        byte,
    }
}

// Inner. A scan mode's number and byte.
fn mode(m: ScanMode) -> NameAnswer
    ensures { result ≡ name_given 0 (mode_name m) (mode_byte m) }
{
    match m {
        ScanMode::Full => named(1, 0x00),
        ScanMode::Limited => named(2, 0x0F),
        ScanMode::Single => named(3, 0xFF),
        ScanMode::Unnamed(b) => named(0, b),
    }
}

// Inner. A mirror's number and byte.
fn mirror(m: Mirror) -> NameAnswer
    ensures { result ≡ name_given 0 (mirror_name m) (mirror_byte m) }
{
    match m {
        Mirror::OneA => named(1, 0xFF),
        Mirror::OneB => named(2, 0xF0),
        Mirror::TwoA => named(3, 0x00),
        Mirror::TwoB => named(4, 0x0F),
        Mirror::Unnamed(b) => named(0, b),
    }
}

// A scan mode as it crosses the boundary.
impl From<Result<ScanMode, Refusal>> for NameAnswer {
    ghost from_gives = { λ a given. given ≡ scan_given a };

    #[tactic(auto, unfolding(crate::specs::Documentation::scan_given, crate::specs::Documentation::name_given))]
    fn from(a: Result<ScanMode, Refusal>) -> Self {
        match a {
            Ok(m) => mode(m),
            Err(refusal) => Self {
                refused: refusal.number(),
                name: 0,
                byte: 0,
            },
        }
    }
}

// A mirror as it crosses the boundary.
impl From<Result<Mirror, Refusal>> for NameAnswer {
    ghost from_gives = { λ a given. given ≡ scanner_given a };

    #[tactic(auto, unfolding(crate::specs::Documentation::scanner_given, crate::specs::Documentation::name_given))]
    fn from(a: Result<Mirror, Refusal>) -> Self {
        match a {
            Ok(m) => mirror(m),
            Err(refusal) => Self {
                refused: refusal.number(),
                name: 0,
                byte: 0,
            },
        }
    }
}

// Line numbers as they cross the boundary.
impl From<Result<LineNumbers, Refusal>> for LinesAnswer {
    ghost from_gives = { λ a given. given ≡ lines_given a };

    #[tactic(auto, unfolding(crate::specs::Documentation::lines_given))]
    fn from(a: Result<LineNumbers, Refusal>) -> Self {
        match a {
            Ok(l) => Self {
                refused: 0,
                set_line: l.set_line,
                reset_line: l.reset_line,
                scan_count: l.scan_count,
                position: l.position,
            },
            Err(refusal) => Self {
                refused: refusal.number(),
                set_line: 0,
                reset_line: 0,
                scan_count: 0,
                position: 0,
            },
        }
    }
}

// A date as it crosses the boundary.
impl From<Result<DateTime, Refusal>> for DateAnswer {
    ghost from_gives = { λ a given. given ≡ date_given a };

    #[tactic(auto, unfolding(crate::specs::Documentation::date_given))]
    fn from(a: Result<DateTime, Refusal>) -> Self {
        match a {
            Ok(d) => Self {
                refused: 0,
                month: d.month,
                day: d.day,
                hour: d.hour,
                minute: d.minute,
                second: d.second,
                hundredths: d.hundredths,
                year: d.year,
            },
            Err(refusal) => Self {
                refused: refusal.number(),
                month: 0,
                day: 0,
                hour: 0,
                minute: 0,
                second: 0,
                hundredths: 0,
                year: 0,
            },
        }
    }
}

// Segment and repeat as they cross the boundary.
impl From<Result<SubCommutation, Refusal>> for SegmentAnswer {
    ghost from_gives = { λ a given. given ≡ segment_given a };

    #[tactic(auto, unfolding(crate::specs::Documentation::segment_given))]
    fn from(a: Result<SubCommutation, Refusal>) -> Self {
        match a {
            Ok(s) => Self {
                refused: 0,
                segment: s.segment,
                repeat: s.repeat,
            },
            Err(refusal) => Self {
                refused: refusal.number(),
                segment: 0,
                repeat: 0,
            },
        }
    }
}

// The scan mode; refused with 1, 2, 5, 6.
pub fn hansobrik_scan_mode(format: u8, line: &[u8]) -> NameAnswer
    ensures { result ≡ scan_given (scan_mode_answer format line.now) }
{
    document::modes::scan_mode(format, line).into()
}

// Scanner select; refused with 1, 2, 5, 6.
pub fn hansobrik_scanner_select(format: u8, line: &[u8]) -> NameAnswer
    ensures { result ≡ scanner_given (scanner_select_answer format line.now) }
{
    document::modes::scanner_select(format, line).into()
}

// Set line, reset line, scan count and line position; refused with 1, 2, 5, 6, 7.
pub fn hansobrik_line_numbers(format: u8, line: &[u8]) -> LinesAnswer
    ensures { result ≡ lines_given (line_numbers_answer format line.now) }
{
    document_stamps::lines::line_numbers(format, line).into()
}

// The date; refused with 1, 2, 5, 6, 7.
pub fn hansobrik_date(format: u8, line: &[u8]) -> DateAnswer
    ensures { result ≡ date_given (date_answer format line.now) }
{
    document_stamps::dates::date(format, line).into()
}

// Segment and repeat of a line; refused with 1, 2, 5, 6, 7.
pub fn hansobrik_sub_commutation(format: u8, line: &[u8]) -> SegmentAnswer
    ensures { result ≡ segment_given (sub_commutation_answer format line.now) }
{
    document::segments::sub_commutation(format, line).into()
}

// I*n at a place, a byte of the sector from 1; refused with 1, 10, 2, 5, 6.
pub fn hansobrik_integer_field(format: u8, line: &[u8], place: usize, n: usize) -> IntegerAnswer
    ensures { result ≡ integer_given (integer_field_answer format line.now place n) }
{
    document_fields::integer_field(format, line, place, n).into()
}

// BCD*n at a place; refused with 1, 10, 2, 5, 6, 7.
pub fn hansobrik_bcd_field(format: u8, line: &[u8], place: usize, n: usize) -> BcdAnswer
    ensures { result ≡ bcd_given (bcd_field_answer format line.now place n) }
{
    document_fields::bcd_field(format, line, place, n).into()
}

// R*n.m at a place; refused with 1, 10, 2, 5, 6.
pub fn hansobrik_real_field(format: u8, line: &[u8], place: usize, n: usize, m: u8) -> RealAnswer
    ensures { result ≡ real_given (real_field_answer format line.now place n m) }
{
    document_fields::real_field(format, line, place, n, m).into()
}

// R*n.m at a place in f64; refused with 1, 10, 2, 5, 6.
pub fn hansobrik_f64_field(format: u8, line: &[u8], place: usize, n: usize, m: u8) -> FloatAnswer
    ensures { result ≡ float_given (f64_field_answer format line.now place n m) }
{
    document_fields::f64_field(format, line, place, n, m).into()
}
