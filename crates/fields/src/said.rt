// What a call says, as a part of a row.
use numbers::R;
use refusals::Refusal;
use std::fmt;

/// What a call says: its value, or what refuses it.
#[derive(Clone, Copy, Debug)]
pub struct Said<T>(pub Result<T, Refusal>);

impl<T: fmt::Display> fmt::Display for Said<T> {
    fn fmt<W: fmt::Write>(&self, f: &mut fmt::Formatter<W>) -> fmt::Result {
        match &self.0 {
            Ok(value) => write!(f, "{value}"),
            Err(refusal) => write!(f, "{refusal}"),
        }
    }
}

/// An R number with all its decimal places. A negative zero keeps its sign.
#[derive(Clone, Copy, Debug)]
pub struct Decimal(pub R);

impl fmt::Display for Decimal {
    fn fmt<W: fmt::Write>(&self, f: &mut fmt::Formatter<W>) -> fmt::Result {
        let sign = if self.0.negative { "-" } else { "" };
        let magnitude = self.0.magnitude;
        let places = usize::from(self.0.places);
        match 10u64.checked_pow(u32::from(self.0.places)) {
            Some(scale) if scale > 1 => {
                let whole = magnitude / scale;
                let fraction = magnitude % scale;
                write!(f, "{sign}{whole}.{fraction:0places$}")
            }
            Some(_) => write!(f, "{sign}{magnitude}"),
            None => write!(f, "{sign}0.{magnitude:0places$}"),
        }
    }
}
