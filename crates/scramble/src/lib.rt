// The scrambling bits, and a bit put on the wire and made plain again: one rule for one bit serves the reader and the writer. A run of
// bits is in `wire_bits`.
//
// The contracts cite `specs/Register.antt` (the register and its bits), `specs/Step.antt` (what a step answers and leaves) and
// `specs/Wire.antt` (complementing and scrambling); `specs/Sync.antt` says what SYNC and the tail are. The two steps ask nothing
// of their caller; the other functions are inner, and say so.
#![tactic(auto)]

ghost use Rattle.std.specs.Prelude.{◌≡◌, ◌%◌, ◌<◌};
ghost use Rattle.scramble.specs.Register.{new_bit, next_register};
ghost use Rattle.scramble.specs.Step.{StepOk, register_left};
ghost use Rattle.scramble.specs.Wire.{plain_bit};

use refusals::Refusal;

// The last fifteen scrambling bits, the newest lowest.
#[derive(Clone, Copy, Debug, PartialEq, Eq)]
pub struct Register {
    pub bits: u16,
}

// The register after a bit, and the bit.
#[derive(Clone, Copy, Debug, PartialEq, Eq)]
pub struct Shifted {
    pub next: Register,
    pub bit: u8,
}

// The register after a step by value, and the step's answer: the bit that it gave. The register stands beside the answer, since a
// refused one comes back too (`stepped` in `demands/specs/Refusals`; edit `refused_register_moves`).
#[derive(Clone, Copy, Debug, PartialEq, Eq)]
pub struct StepTaken {
    pub next: Register,
    pub answer: Result<u8, Refusal>,
}

// Fifteen ones: where SYNC ends, and where the first information bit begins.
pub const FIFTEEN_ONES: u16 = 0x7fff;

// The lowest bit of a number.
fn low_bit(x: u16) -> u8
    ensures { result ≡ x % 2 }
{
    (x & 1) as u8
}

// Inner. The next bit, of any register: a bit over its fifteen has no part in it.
pub fn shift(r: Register) -> Shifted
    ensures { (result.next.bits ≡ next_register r.bits) × (result.bit ≡ new_bit r.bits) }
{
    let b = r.bits;
    let bit = low_bit((b >> 13) ^ (b >> 14));
    Shifted {
        next: Register {
            bits: ((b << 1) | bit as u16) & 0x7fff,
        },
        bit,
    }
}

// The step by value. Refused with 12 for a register over fifteen bits, which comes back as it was.
#[tactic(auto, unfolding(crate::specs::Step::step_refusal, crate::specs::Step::register_left, refusals::specs::Refusals::when, refusals::specs::Refusals::kept))]
pub fn stepped(r: Register) -> StepTaken
    ensures { StepOk r.bits result.answer × (result.next.bits ≡ register_left r.bits) }
{
    if r.bits > FIFTEEN_ONES {
        return StepTaken {
            next: r,
            answer: Err(Refusal::State),
        };
    }
    let Shifted { next, bit } = shift(r);
    StepTaken {
        next,
        answer: Ok(bit),
    }
}

// The step of a register that the caller lends: it changes in place, and its new bit comes back. Refused with 12 for a
// register over fifteen bits, which stays as it was.
pub fn step(r: &mut Register) -> Result<u8, Refusal>
    ensures { StepOk r.old.bits result × (r.new.bits ≡ register_left r.old.bits) }
{
    let s = stepped(*r);
    *r = s.next;
    s.answer
}

// Inner. One bit put on the wire or made plain, one rule for both ways: the next scrambling bit and the bit of its group
// of eight, 1 in every second, put on it by exclusive or. Place is its number, counted from the first information bit, and r
// the register before it; the register after it comes with the bit.
pub fn mix_bit(place: usize, r: Register, bit: u8) -> Shifted
    requires { bit < 2 }
    ensures { (result.next.bits ≡ next_register r.bits) × (result.bit ≡ plain_bit place r.bits bit) }
{
    let t = shift(r);
    let group = ((place >> 3) & 1) as u8;
    Shifted {
        next: t.next,
        bit: (bit ^ t.bit) ^ group,
    }
}
