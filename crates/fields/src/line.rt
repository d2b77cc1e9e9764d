// What the documentation sector of one line says.
use crate::said::Said;
use bcd_dates::dates::DateTime;
use document::modes::{Mirror, ScanMode};
use document::segments::SubCommutation;
use document_stamps::lines::LineNumbers;
use std::fmt;

/// What a line says of itself, as a part of a row.
#[derive(Clone, Copy, Debug)]
pub struct Fields {
    mode: Said<Mode>,
    mirror: Said<Select>,
    numbers: Said<Numbers>,
    date: Said<Date>,
    segment: Said<Segment>,
}

impl Fields {
    pub fn of(format: u8, line: &[u8]) -> Fields {
        Fields {
            mode: Said(document::modes::scan_mode(format, line).map(Mode)),
            mirror: Said(document::modes::scanner_select(format, line).map(Select)),
            numbers: Said(document_stamps::lines::line_numbers(format, line).map(Numbers)),
            date: Said(document_stamps::dates::date(format, line).map(Date)),
            segment: Said(document::segments::sub_commutation(format, line).map(Segment)),
        }
    }
}

impl fmt::Display for Fields {
    fn fmt<W: fmt::Write>(&self, f: &mut fmt::Formatter<W>) -> fmt::Result {
        let Fields {
            mode,
            mirror,
            numbers,
            date,
            segment,
        } = self;
        write!(
            f,
            "mode {mode} mirror {mirror} set {numbers} date {date} segment {segment}"
        )
    }
}

// The types below are those of other crates, with the words that a row has for them.
#[derive(Clone, Copy, Debug)]
struct Mode(ScanMode);

impl fmt::Display for Mode {
    fn fmt<W: fmt::Write>(&self, f: &mut fmt::Formatter<W>) -> fmt::Result {
        match self.0 {
            ScanMode::Full => write!(f, "full"),
            ScanMode::Limited => write!(f, "limited"),
            ScanMode::Single => write!(f, "single"),
            ScanMode::Unnamed(byte) => write!(f, "unnamed {byte}"),
        }
    }
}

#[derive(Clone, Copy, Debug)]
struct Select(Mirror);

impl fmt::Display for Select {
    fn fmt<W: fmt::Write>(&self, f: &mut fmt::Formatter<W>) -> fmt::Result {
        match self.0 {
            Mirror::OneA => write!(f, "1-A"),
            Mirror::OneB => write!(f, "1-B"),
            Mirror::TwoA => write!(f, "2-A"),
            Mirror::TwoB => write!(f, "2-B"),
            Mirror::Unnamed(byte) => write!(f, "unnamed {byte}"),
        }
    }
}

#[derive(Clone, Copy, Debug)]
struct Numbers(LineNumbers);

impl fmt::Display for Numbers {
    fn fmt<W: fmt::Write>(&self, f: &mut fmt::Formatter<W>) -> fmt::Result {
        let LineNumbers {
            set_line,
            reset_line,
            scan_count,
            position,
        } = self.0;
        write!(
            f,
            "{set_line} reset {reset_line} count {scan_count} position {position}"
        )
    }
}

#[derive(Clone, Copy, Debug)]
struct Date(DateTime);

impl fmt::Display for Date {
    fn fmt<W: fmt::Write>(&self, f: &mut fmt::Formatter<W>) -> fmt::Result {
        let DateTime {
            year,
            month,
            day,
            hour,
            minute,
            second,
            hundredths,
        } = self.0;
        write!(
            f,
            "{year:04}-{month:02}-{day:02} {hour:02}:{minute:02}:{second:02}.{hundredths:02}"
        )
    }
}

#[derive(Clone, Copy, Debug)]
struct Segment(SubCommutation);

impl fmt::Display for Segment {
    fn fmt<W: fmt::Write>(&self, f: &mut fmt::Formatter<W>) -> fmt::Result {
        let SubCommutation { segment, repeat } = self.0;
        write!(f, "{segment} repeat {repeat}")
    }
}
