// The numbers of the documentation fields, read and written at the front of a slice, for C and Rust; and the answers that the
// other crates of the boundary give too. Each function hands its numbers and slices on to the call of the same name in
// `numbers` or `number_writer` and lays that call's answer out as one struct of numbers: `refused` is 0 or the number of the
// refusal, and a refused answer has 0 in every other field. Structs with a number beside values are the C interface, and stay.
//
// The contracts cite `specs/Number.antt`, one definition for each answer, over the definitions of the calls themselves. No
// function has a `requires`: nothing checks a caller in C.
//
// A slice crosses as a pointer and a count; slices that are lent to one call must not overlap.
#![tactic(auto)]

ghost use Rattle.std.specs.Prelude.{◌≡◌, length};
ghost use Rattle.numbers.specs.Integers.{read_integer_answer};
ghost use Rattle.numbers.specs.Decimals.{read_bcd_answer};
ghost use Rattle.numbers.specs.Reals.{read_real_answer};
ghost use Rattle.floats.specs.Floats.{read_f64_answer};
ghost use Rattle.number_writer.specs.Written.{put_real_answer, put_real_left};
ghost use Rattle.refusals.specs.Refusals.{answer_number, answer_value};
ghost use Rattle.rack_number.specs.Number.{count_given, integer_given, bcd_given, real_given, float_given};

use numbers::R;
use refusals::{Refusal, number_in};

// A count: the filler bits that are set, or the bytes that were put.
#[repr(C)]
#[derive(Clone, Copy)]
pub struct CountAnswer {
    pub refused: u8,
    pub count: usize,
}

// I*n.
#[repr(C)]
#[derive(Clone, Copy)]
pub struct IntegerAnswer {
    pub refused: u8,
    pub value: u32,
}

// BCD*n.
#[repr(C)]
#[derive(Clone, Copy)]
pub struct BcdAnswer {
    pub refused: u8,
    pub value: u64,
}

// R*n.m as sign, magnitude and decimal places. A negative zero is one of its values.
#[repr(C)]
#[derive(Clone, Copy)]
pub struct RealAnswer {
    pub refused: u8,
    pub negative: bool,
    pub places: u8,
    pub magnitude: u64,
}

// R*n.m in f64.
#[repr(C)]
#[derive(Clone, Copy)]
pub struct FloatAnswer {
    pub refused: u8,
    pub value: f64,
}

// A count as it crosses the boundary.
impl From<Result<usize, Refusal>> for CountAnswer {
    ghost from_gives = { λ a given. given ≡ count_given (answer_number a) (answer_value 0 a) };

    #[tactic(auto, unfolding(crate::specs::Number::count_given))]
    fn from(a: Result<usize, Refusal>) -> Self {
        match a {
            Ok(count) => Self { refused: 0, count },
            Err(refusal) => Self {
                refused: refusal.number(),
                count: 0,
            },
        }
    }
}

// An I number as it crosses the boundary.
impl From<Result<u32, Refusal>> for IntegerAnswer {
    ghost from_gives = { λ a given. given ≡ integer_given a };

    #[tactic(auto, unfolding(crate::specs::Number::integer_given))]
    fn from(a: Result<u32, Refusal>) -> Self {
        match a {
            Ok(value) => Self { refused: 0, value },
            Err(refusal) => Self {
                refused: refusal.number(),
                value: 0,
            },
        }
    }
}

// A BCD number as it crosses the boundary.
impl From<Result<u64, Refusal>> for BcdAnswer {
    ghost from_gives = { λ a given. given ≡ bcd_given a };

    #[tactic(auto, unfolding(crate::specs::Number::bcd_given))]
    fn from(a: Result<u64, Refusal>) -> Self {
        match a {
            Ok(value) => Self { refused: 0, value },
            Err(refusal) => Self {
                refused: refusal.number(),
                value: 0,
            },
        }
    }
}

// An R number as it crosses the boundary.
impl From<Result<R, Refusal>> for RealAnswer {
    ghost from_gives = { λ a given. given ≡ real_given a };

    #[tactic(auto, unfolding(crate::specs::Number::real_given))]
    fn from(a: Result<R, Refusal>) -> Self {
        match a {
            Ok(r) => Self {
                refused: 0,
                negative: r.negative,
                places: r.places,
                magnitude: r.magnitude,
            },
            Err(refusal) => Self {
                refused: refusal.number(),
                negative: false,
                places: 0,
                magnitude: 0,
            },
        }
    }
}

// An R number in f64 as it crosses the boundary.
impl From<Result<f64, Refusal>> for FloatAnswer {
    ghost from_gives = { λ a given. given ≡ float_given a };

    #[tactic(auto, using(crate::proofs::Zero::zero_bits), unfolding(crate::specs::Number::float_given))]
    fn from(a: Result<f64, Refusal>) -> Self {
        match a {
            Ok(value) => Self { refused: 0, value },
            Err(refusal) => Self {
                refused: refusal.number(),
                value: 0.0,
            },
        }
    }
}

// I*n; refused with 10, 2.
pub fn hansobrik_read_integer(bytes: &[u8], n: usize) -> IntegerAnswer
    ensures { result ≡ integer_given (read_integer_answer n bytes.now) }
{
    numbers::read_integer(bytes, n).into()
}

// BCD*n; refused with 10, 2, 7.
pub fn hansobrik_read_bcd(bytes: &[u8], n: usize) -> BcdAnswer
    ensures { result ≡ bcd_given (read_bcd_answer n bytes.now) }
{
    numbers::read_bcd(bytes, n).into()
}

// R*n.m; refused with 10, 2.
pub fn hansobrik_read_real(bytes: &[u8], n: usize, m: u8) -> RealAnswer
    ensures { result ≡ real_given (read_real_answer n m bytes.now) }
{
    numbers::read_real(bytes, n, m).into()
}

// R*n.m in f64; refused with 10, 2.
pub fn hansobrik_read_f64(bytes: &[u8], n: usize, m: u8) -> FloatAnswer
    ensures { result ≡ float_given (read_f64_answer n m bytes.now) }
{
    floats::read_f64(bytes, n, m).into()
}

// The bytes of R*n.m: 0, or refused with 10, 11, 3.
pub fn hansobrik_put_real(negative: bool, magnitude: u64, n: usize, m: u8, out: &mut [u8]) -> u8
    ensures { (result ≡ answer_number (put_real_answer magnitude n m (length out.old))) × (out.new ≡ put_real_left negative magnitude n m out.old) }
{
    number_in(number_writer::put_real(negative, magnitude, n, m, out))
}
