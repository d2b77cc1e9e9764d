// The bytes of R*n.m written.
//
// The contracts cite `specs/Written.antt` (`PutRealOk`, `put_real_left`): the paper's number of the answer and every lent byte,
// for every input; refusals are tested in the paper's order. What is written is read again by the crate `numbers`, and
// what was read is written again (`proofs/RoundTrip.antt`).
//
// No public function has a `requires`.
#![tactic(auto)]

ghost use Rattle.std.specs.Prelude.{◌≡◌, ◌+◌, ◌*◌, ◌^◌, ◌≤◌, ◌<◌, length};
ghost use Rattle.refusals.specs.Refusals.{answer_number};
ghost use Rattle.numbers.specs.Reals.{sign_bit};
ghost use Rattle.number_writer.specs.Written.{put_real_refusal, PutRealOk, put_real_left};

use numbers::{form_refusal, sign_weight};
use octets::put_whole;
use refusals::{Refusal, enough};

// Sign and magnitude put together at the weight of the sign bit.
fn put_together(negative: bool, magnitude: u64, weight: u64) -> u64
    requires { (magnitude < weight) × (weight ≤ 2 ^ 63) }
    ensures { result ≡ sign_bit negative * weight + magnitude }
{
    if negative {
        weight + magnitude
    } else {
        magnitude
    }
}

// Refuses a write of R*n.m: with 10, 11, 3.
#[tactic(auto, using(refusals::proofs::Numbers::refused_first, refusals::proofs::Numbers::passed_first, crate::proofs::Puts::form_known, crate::proofs::Puts::too_large, crate::proofs::Puts::small_enough), unfolding(crate::specs::Written::put_real_refusal))]
fn put_refusal(magnitude: u64, n: usize, m: u8, room: usize) -> Result<(), Refusal>
    ensures { answer_number result ≡ put_real_refusal magnitude n m room }
{
    form_refusal(n, m)?;
    if sign_weight(n) - 1 < magnitude {
        return Err(Refusal::Magnitude);
    }
    enough(room, n, Refusal::ShortOutput)
}

// The bytes of R*n.m: 10 for n neither 4 nor 6 or m over 15, 11 for a magnitude that does not fit beside the sign bit,
// 3 for an output under n bytes. Bytes past the n stay, and a refused call changes none.
#[tactic(auto, using(crate::proofs::Puts::known, crate::proofs::Puts::weight_small, crate::proofs::Puts::left_written))]
pub fn put_real(
    negative: bool,
    magnitude: u64,
    n: usize,
    m: u8,
    out: &mut [u8],
) -> Result<(), Refusal>
    ensures put_real_ok { PutRealOk magnitude n m (length out.old) result }
    ensures out_after { out.new ≡ put_real_left negative magnitude n m out.old }
{
    put_refusal(magnitude, n, m, out.len())?;
    put_whole(put_together(negative, magnitude, sign_weight(n)), n, out);
    Ok(())
}
