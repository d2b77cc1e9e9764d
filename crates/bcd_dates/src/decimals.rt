// BCD numbers in a byte string.
ghost use Rattle.std.specs.Prelude.{◌≡◌, ◌≤◌, ◌<◌, length};
ghost use Rattle.refusals.specs.Refusals.{answer_number};
ghost use Rattle.bcd_dates.specs.Decimals.{bcd_in, bcd_at, part_refusal};

use numbers::read_bcd;
use refusals::{Refusal, within};

// BCD*n at a place.
fn bcd_in(bytes: &[u8], at: usize, n: usize) -> Result<u64, Refusal>
    requires { at ≤ length bytes.now }
    ensures { result ≡ bcd_in bytes.now at n }
{
    read_bcd(&bytes[at..], n)
}

// Inner. Refuses, with 7, where BCD*n at a place has a digit over 9, or is not a number from low to high.
#[tactic(auto, unfolding(crate::specs::Decimals::part_refusal))]
pub fn part_refusal(bytes: &[u8], at: usize, n: usize, low: u64, high: u64) -> Result<(), Refusal>
    requires { at ≤ length bytes.now }
    ensures { answer_number result ≡ part_refusal bytes.now at n low high }
{
    within(low, high, bcd_in(bytes, at, n)?, Refusal::Field)
}

// Inner. The two decimal digits at a place; 0 where they are none.
pub fn two_digits(bytes: &[u8], at: usize) -> u8
    requires { at ≤ length bytes.now }
    ensures { (result ≡ bcd_at bytes.now at 1) × (result < 100) }
{
    bcd_in(bytes, at, 1).unwrap_or(0) as u8
}

// Inner. The four decimal digits at a place; 0 where they are none.
pub fn four_digits(bytes: &[u8], at: usize) -> u16
    requires { at ≤ length bytes.now }
    ensures { (result ≡ bcd_at bytes.now at 2) × (result < 10000) }
{
    bcd_in(bytes, at, 2).unwrap_or(0) as u16
}
