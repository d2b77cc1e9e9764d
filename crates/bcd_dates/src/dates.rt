// A date and time in eight bytes.
ghost use Rattle.std.specs.Prelude.{◌≡◌, ◌≤◌, length};
ghost use Rattle.refusals.specs.Refusals.{answer_number};
ghost use Rattle.bcd_dates.specs.Dates.{day_refusal, time_refusal, date_in_refusal, date_in};

use crate::decimals::{four_digits, part_refusal, two_digits};
use refusals::Refusal;

// Year 0 to 9,999, month 1 to 12, day 1 to 31 in every month, hour 0 to 23, minute and second 0 to 59, hundredths 0 to 99.
#[derive(Clone, Copy, Debug, PartialEq, Eq)]
pub struct DateTime {
    pub year: u16,
    pub month: u8,
    pub day: u8,
    pub hour: u8,
    pub minute: u8,
    pub second: u8,
    pub hundredths: u8,
}

// Refuses, with 7, where year, month or day is out of its range.
#[tactic(auto, using(refusals::proofs::Numbers::refused_first, refusals::proofs::Numbers::passed_first), unfolding(crate::specs::Dates::day_refusal))]
fn day_refusal(bytes: &[u8]) -> Result<(), Refusal>
    requires { 8 ≤ length bytes.now }
    ensures { answer_number result ≡ day_refusal bytes.now }
{
    part_refusal(bytes, 0, 2, 0, 9999)?;
    part_refusal(bytes, 2, 1, 1, 12)?;
    part_refusal(bytes, 3, 1, 1, 31)
}

// Refuses, with 7, where hour, minute, second or hundredths are out of their range.
#[tactic(auto, using(refusals::proofs::Numbers::refused_first, refusals::proofs::Numbers::passed_first), unfolding(crate::specs::Dates::time_refusal))]
fn time_refusal(bytes: &[u8]) -> Result<(), Refusal>
    requires { 8 ≤ length bytes.now }
    ensures { answer_number result ≡ time_refusal bytes.now }
{
    part_refusal(bytes, 4, 1, 0, 23)?;
    part_refusal(bytes, 5, 1, 0, 59)?;
    part_refusal(bytes, 6, 1, 0, 59)?;
    part_refusal(bytes, 7, 1, 0, 99)
}

// Inner. Refuses, with 7, where a digit of the first eight bytes is over 9 or a part is out of its range. A 31st is taken in every
// month.
#[tactic(auto, using(refusals::proofs::Numbers::refused_first, refusals::proofs::Numbers::passed_first), unfolding(crate::specs::Dates::date_in_refusal))]
pub fn date_refusal(bytes: &[u8]) -> Result<(), Refusal>
    requires { 8 ≤ length bytes.now }
    ensures { answer_number result ≡ date_in_refusal bytes.now }
{
    day_refusal(bytes)?;
    time_refusal(bytes)
}

// Inner. The seven parts of the date in the first eight bytes; a part that is no number is 0.
#[tactic(auto, unfolding(crate::specs::Dates::date_in))]
pub fn date_in(bytes: &[u8]) -> DateTime
    requires { 8 ≤ length bytes.now }
    ensures { result ≡ date_in bytes.now }
{
    DateTime {
        year: four_digits(bytes, 0),
        month: two_digits(bytes, 2),
        day: two_digits(bytes, 3),
        hour: two_digits(bytes, 4),
        minute: two_digits(bytes, 5),
        second: two_digits(bytes, 6),
        hundredths: two_digits(bytes, 7),
    }
}
