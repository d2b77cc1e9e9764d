// The numbers R*n.m of the documentation fields in f64.
//
// The contracts cite `specs/Floats.antt` (`ReadF64Ok`). It gives the paper's number of the answer and its value, for every input;
// refusals are those of `read_real` in `numbers`.
//
// No public function has a `requires`, but those marked "Inner.", which the crates above use.
#![tactic(auto)]

ghost use Rattle.std.specs.Prelude.{◌≡◌, ◌^◌, ◌<◌};
ghost use Rattle.floats.specs.Floats.{Fits, FitsIn, value_of, as_float, ReadF64Ok};

use numbers::{R, read_real};
use refusals::Refusal;

// The powers of ten 0 to 15, the divisors of R numbers; listed, so that the edit power_wrong can put one entry wrong.
const POWERS: [u64; 16] = [
    1,
    10,
    100,
    1000,
    10000,
    100000,
    1000000,
    10000000,
    100000000,
    1000000000,
    10000000000,
    100000000000,
    1000000000000,
    10000000000000,
    100000000000000,
    1000000000000000,
];

// A power of ten out of the table.
fn power(m: u8) -> u64
    requires { m < 16 }
    ensures { result ≡ 10 ^ m }
{
    POWERS[m as usize]
}

// Inner. An R number in f64: one division of two whole numbers that f64 holds exactly, so one rounding; sign last, on a zero
// too.
#[tactic(auto, unfolding(crate::specs::Floats::value_of))]
pub fn value(r: R) -> f64
    requires { Fits r }
    ensures { result ≡ value_of r }
{
    let magnitude = r.magnitude;
    let p = power(r.places);
    let q = (magnitude as f64) / (p as f64);
    if r.negative { -q } else { q }
}

// Inner. An answer in f64; a refusal stays the refusal that it is.
#[tactic(auto, unfolding(crate::specs::Floats::FitsIn, crate::specs::Floats::as_float))]
pub fn as_float(r: Result<R, Refusal>) -> Result<f64, Refusal>
    requires { FitsIn r }
    ensures { result ≡ as_float r }
{
    Ok(value(r?))
}

// R*n.m in f64, refused as `read_real` refuses.
#[tactic(auto, using(refusals::proofs::Numbers::answers_err, crate::proofs::Fitting::read_fits, crate::proofs::Fitting::float_answers))]
pub fn read_f64(bytes: &[u8], n: usize, m: u8) -> Result<f64, Refusal>
    ensures { ReadF64Ok n m bytes.now result }
{
    Ok(value(read_real(bytes, n, m)?))
}
