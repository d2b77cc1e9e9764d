// The numbers of the documentation fields, read from the first bytes of a slice: I*n, BCD*n and R*n.m. R*n.m in f64 is in
// `floats`.
//
// The contracts cite `specs/Integers.antt` (`ReadIntegerOk`), `specs/Decimals.antt` (`ReadBcdOk`) and `specs/Reals.antt`
// (`ReadRealOk`). Each gives the paper's number of the answer and its value, for every input; refusals are tested in the paper's
// order.
//
// No public function has a `requires`, but those marked "Inner.", which the crates above use.
#![tactic(auto)]

ghost use Rattle.std.specs.Prelude.{◌≡◌, ◌+◌, ◌-◌, ◌*◌, ◌^◌, ◌≤◌, ◌<◌, length};
ghost use Rattle.bits.specs.Bits.{bits_of, in_base, fields_of};
ghost use Rattle.refusals.specs.Refusals.{first, when, outside_of, short_of, answer_number, Answers};
ghost use Rattle.numbers.specs.Integers.{ReadIntegerOk};
ghost use Rattle.numbers.specs.Decimals.{some_over9, ReadBcdOk};
ghost use Rattle.numbers.specs.Reals.{form_refusal, sign_bit, ReadRealOk};

use octets::whole;
use refusals::{Refusal, enough, within};

// An R number as it stands in its bytes: sign, magnitude, decimal places. A negative zero is one of its values.
#[derive(Clone, Copy, Debug, PartialEq, Eq)]
pub struct R {
    pub negative: bool,
    pub magnitude: u64,
    pub places: u8,
}

// Refuses a number of n bytes: with 10 where n is not one from 1 to high, then with 2 for fewer than n bytes.
#[tactic(auto, using(refusals::proofs::Numbers::refused_first, refusals::proofs::Numbers::passed_first))]
fn sized(high: u64, n: usize, given: usize) -> Result<(), Refusal>
    ensures { answer_number result ≡ first (outside_of 1 high n 10) (short_of given n 2) }
{
    within(1, high, n as u64, Refusal::Range)?;
    enough(given, n, Refusal::ShortInput)
}

// I*n: 10 for n outside 1 to 4, 2 for fewer than n bytes.
#[tactic(auto, using(refusals::proofs::Numbers::answers_err, refusals::proofs::Numbers::answers_ok, crate::proofs::Ranges::sized), unfolding(crate::specs::Integers::read_integer_refusal))]
pub fn read_integer(bytes: &[u8], n: usize) -> Result<u32, Refusal>
    ensures { ReadIntegerOk n bytes.now result }
{
    sized(4, n, bytes.len())?;
    Ok(whole(bytes, n) as u32)
}

const LARGEST_DIGIT: u16 = 9;

// The number that the first count runs of four bits write as decimal digits, at most twelve; 7 for a digit over 9.
fn decimal(bytes: &[u8], count: usize) -> Result<u64, Refusal>
    requires { (count * 4 ≤ 8 * length bytes.now) × (count ≤ 12) }
    ensures { Answers (when (some_over9 (fields_of 4 count (bits_of bytes.now))) 7) 0 (in_base 10 (fields_of 4 count (bits_of bytes.now))) result }
{
    let mut a: u64 = 0;
    for i in 0..count {
        let d = slices::field(bytes, i * 4, 4);
        if d > LARGEST_DIGIT {
            return Err(Refusal::Field);
        }
        a = a * 10 + d as u64;
    }
    Ok(a)
}

// BCD*n: 10 for n outside 1 to 6, 2 for fewer than n bytes, 7 for a digit over 9 in those n.
#[tactic(auto, using(refusals::proofs::Numbers::answers_err, crate::proofs::Ranges::sized, crate::proofs::Ranges::refused_before), unfolding(crate::specs::Decimals::read_bcd_refusal))]
pub fn read_bcd(bytes: &[u8], n: usize) -> Result<u64, Refusal>
    ensures { ReadBcdOk n bytes.now result }
{
    sized(6, n, bytes.len())?;
    decimal(bytes, 2 * n)
}

// Inner. What the sign bit weighs: the first bit of n bytes.
pub fn sign_weight(n: usize) -> u64
    requires { (1 ≤ n) × (n ≤ 8) }
    ensures { result ≡ 2 ^ (8 * n - 1) }
{
    1u64 << (8 * n - 1)
}

// A whole number taken apart at the weight of its sign bit. The sign alone is a negative zero.
fn taken_apart(v: u64, weight: u64, m: u8) -> R
    requires { v < 2 * weight }
    ensures { (v ≡ sign_bit result.negative * weight + result.magnitude) × (result.magnitude < weight) × (result.places ≡ m) }
{
    if v < weight {
        R {
            negative: false,
            magnitude: v,
            places: m,
        }
    } else {
        R {
            negative: true,
            magnitude: v - weight,
            places: m,
        }
    }
}

// Inner. Refuses, with 10, where R*n.m is no form of the paper: n is neither 4 nor 6, or m is over 15.
#[tactic(auto, unfolding(crate::specs::Reals::form_refusal, crate::specs::Reals::no_real, refusals::specs::Refusals::when))]
pub fn form_refusal(n: usize, m: u8) -> Result<(), Refusal>
    ensures { answer_number result ≡ form_refusal n m }
{
    if (n == 4 || n == 6) && m <= 15 {
        Ok(())
    } else {
        Err(Refusal::Range)
    }
}

// R*n.m as sign, magnitude and places: 10 for n neither 4 nor 6 or m over 15, 2 for fewer than n bytes.
#[tactic(auto, using(refusals::proofs::Numbers::answers_err, refusals::proofs::Numbers::refused_first, refusals::proofs::Numbers::passed_first, crate::proofs::Ranges::real_sized, crate::proofs::Signs::weight_twice), unfolding(crate::specs::Reals::read_real_refusal))]
pub fn read_real(bytes: &[u8], n: usize, m: u8) -> Result<R, Refusal>
    ensures { ReadRealOk n m bytes.now result }
{
    form_refusal(n, m)?;
    enough(bytes.len(), n, Refusal::ShortInput)?;
    Ok(taken_apart(whole(bytes, n), sign_weight(n), m))
}
