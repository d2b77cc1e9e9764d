// Refusals: what refuses a call, the number of each in the table, and the tests that many calls make. Every other crate stands above
// this one; it cites nothing.
//
// The contracts cite `specs/Refusals.antt`. The table's order stands once, in `specs/Order.antt`; `demands` holds every call's
// chain to it. No function here has a `requires`.
#![tactic(auto)]

ghost use Rattle.std.specs.Prelude.{◌≡◌};
ghost use Rattle.refusals.specs.Refusals.{first, short_of, outside_of, number_of, answer_number};

use std::fmt;

/// What refuses a call, in the order in which the tests are made: the first that applies is given. A refused call takes nothing,
/// and leaves state and buffers as at entry. C sees the numbers.
#[derive(Clone, Copy, Debug, PartialEq, Eq)]
pub enum Refusal {
    /// The format is none of 1, 2, 3.
    Format = 1,
    /// The reader's setting is above 6.
    Setting = 13,
    /// The desk's count of slots is not one from 2 to 8, or there is no such slot.
    OutOfRange = 19,
    /// The state record is impossible.
    State = 12,
    /// A line more, or two reports together, would be over 100,000 lines.
    Full = 15,
    /// The sector, channel or block number is not one that the call serves; calibration-2 in format 2.
    Number = 4,
    /// A level, grid point, number size or count of decimal places is out of its range, or a pixel is over its width.
    Range = 10,
    /// On writing, the magnitude is over 2^31-1 (n 4) or 2^47-1 (n 6).
    Magnitude = 11,
    /// A line or block buffer, number bytes, sector data or pixels are shorter than needed.
    ShortInput = 2,
    /// The desk has no serial number left.
    NoSerial = 18,
    /// The desk has no free slot.
    NoSlot = 16,
    /// The slot is not held by that consumer, or not being filled, under that serial number.
    NoHold = 17,
    /// The output is shorter than the result.
    ShortOutput = 3,
    /// The sector's remainder is not 0.
    Remainder = 5,
    /// The remainder is 0, and the ID is not the sector's own.
    Id = 6,
    /// A BCD digit is over 9, a date part out of range, byte 193 or 195 not 0, the segment above 24 or the repeat above 7.
    Field = 7,
    /// The segment is of another revision of the tables than the assembly.
    Revision = 14,
    /// The segment differs from the stored one.
    Segment = 8,
    /// An entry is asked of a block without all 25 segments.
    Unfinished = 9,
}

impl Refusal {
    /// Its number in the table.
    pub fn number(self) -> u8
        ensures { result ≡ number_of self }
    {
        self as u8
    }
}

impl fmt::Display for Refusal {
    fn fmt<W: fmt::Write>(&self, f: &mut fmt::Formatter<W>) -> fmt::Result {
        write!(f, "refused {}", self.number())
    }
}

/// What C sees of an answer: the number of its refusal, and 0 where it is none.
pub fn number_in<T: Copy>(answer: Result<T, Refusal>) -> u8
    ensures { result ≡ answer_number answer }
{
    match answer {
        Ok(_) => 0,
        Err(refusal) => refusal.number(),
    }
}

/// Inner. Of two answers the first that refuses.
pub fn first_refused(a: Result<(), Refusal>, b: Result<(), Refusal>) -> Result<(), Refusal>
    ensures { answer_number result ≡ first (answer_number a) (answer_number b) }
{
    a.and(b)
}

/// Inner. Refuses, with 2 or 3, where fewer were given than are needed.
#[tactic(auto, unfolding(crate::specs::Refusals::short_of, crate::specs::Refusals::when))]
pub fn enough(given: usize, needed: usize, refusal: Refusal) -> Result<(), Refusal>
    ensures { answer_number result ≡ short_of given needed (number_of refusal) }
{
    if given < needed { Err(refusal) } else { Ok(()) }
}

/// Inner. Refuses, with 13, 4, 7 or 10, where n is not one from low to high. Where low is above high none is.
#[tactic(auto, unfolding(crate::specs::Refusals::outside_of, crate::specs::Refusals::outside, crate::specs::Refusals::when))]
pub fn within(low: u64, high: u64, n: u64, refusal: Refusal) -> Result<(), Refusal>
    ensures { answer_number result ≡ outside_of low high n (number_of refusal) }
{
    if n < low || n > high {
        Err(refusal)
    } else {
        Ok(())
    }
}

// The same tests by numbers, for a caller that holds numbers: 0 is no refusal, and any other number is taken as one, also where the
// table has no such number.

/// Inner. Of two answers the first that is no 0.
#[tactic(auto, using(crate::proofs::Words::first_none, crate::proofs::Words::first_some))]
pub fn first(a: u8, b: u8) -> u8
    ensures { result ≡ first a b }
{
    if a == 0 { b } else { a }
}

/// Inner. The number, 2 or 3, where fewer were given than are needed; else 0.
#[tactic(auto, unfolding(crate::specs::Refusals::short_of, crate::specs::Refusals::when))]
pub fn short(given: usize, needed: usize, number: u8) -> u8
    ensures { result ≡ short_of given needed number }
{
    if given < needed { number } else { 0 }
}

/// Inner. The number, 13, 4, 7 or 10, where n is not one from low to high; else 0. Where low is above high none is.
#[tactic(auto, unfolding(crate::specs::Refusals::outside_of, crate::specs::Refusals::outside, crate::specs::Refusals::when))]
pub fn outside(low: u64, high: u64, n: u64, number: u8) -> u8
    ensures { result ≡ outside_of low high n number }
{
    if n < low || high < n { number } else { 0 }
}
