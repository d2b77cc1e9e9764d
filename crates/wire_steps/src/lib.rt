// Many scrambling bits a step, by value: up to fourteen bits of a register, a byte put on the wire, and words of the key.
//
// The contracts cite the bit rule (`Register` and `Wire` of `scramble`), and `specs/Words` of `runs` for what a word is: eight bytes, the
// first the lowest, so that a word of a slice is one load and one store. All functions are inner.
#![tactic(auto)]

ghost use Rattle.std.specs.Prelude.{◌≡◌, ◌≤◌, ◌<◌, ◌^◌};
ghost use Rattle.bits.specs.Bits.{digits};
ghost use Rattle.scramble.specs.Register.{register_after};
ghost use Rattle.scramble.specs.Wire.{wire_of};
ghost use Rattle.runs.specs.Runs.{groups_of};
ghost use Rattle.runs.specs.Words.{key_at, key_word, group_word};
ghost use Rattle.wire_steps.specs.Along.{Further, AfterWord};

use scramble::Register;

// The register after a run of bits, and the number that the bits of the run write.
#[derive(Clone, Copy)]
pub struct Run {
    pub next: Register,
    pub key: u16,
}

// Inner. Up to fourteen bits at once: each is the exclusive or of two bits that the register holds.
pub fn shift_by(r: Register, w: usize) -> Run
    requires { (1 ≤ w) × (w ≤ 14) }
    ensures { (result.next.bits ≡ register_after w r.bits) × (result.key ≡ key_at w r.bits) }
{
    let b = r.bits;
    let key = ((b ^ (b >> 1)) >> (14 - w)) & ((1u16 << w) - 1);
    let next = ((b << w) | key) & 0x7fff;
    Run {
        next: Register { bits: next },
        key,
    }
}

// Four rounds of groups, not inverted and inverted: eight bits of them are what complementing puts on bits from a place on, in a
// group or across two.
const ROUNDS: u64 = 0x00ff_00ff_00ff_00ff;

// What complementing puts on the eight bits from a place on.
fn group_byte(place: usize) -> u8
    ensures { result ≡ groups_of 8 place }
{
    ((ROUNDS >> (56 - (place & 15))) & 0xff) as u8
}

// Inner. What complementing puts on the eight bytes from a place on: every second is the same.
pub fn group_word(place: usize) -> u64
    ensures { result ≡ group_word place }
{
    let even = group_byte(place & 15) as u64;
    let odd = group_byte((place & 15) + 8) as u64;
    (even + odd * 256) * 0x0001_0001_0001_0001
}

// The register after the eight bits of a byte, and the byte.
#[derive(Clone, Copy)]
pub struct Eight {
    pub next: Register,
    pub byte: u8,
}

// Inner. Eight bits from a place on, put on the wire or made plain at once.
pub fn mix_byte(byte: u8, place: usize, r: Register) -> Eight
    ensures { (digits 8 result.byte ≡ wire_of place r.bits (digits 8 byte)) × (result.next.bits ≡ register_after 8 r.bits) }
{
    let Run { next, key } = shift_by(r, 8);
    Eight {
        next,
        byte: byte ^ group_byte(place) ^ key as u8,
    }
}

// The register after the bits of a word, and the word of the key.
#[derive(Clone, Copy)]
pub struct Word {
    pub next: Register,
    pub key: u64,
}

// Inner. The first word of the key behind a register.
pub fn first_word(r: Register) -> Word
    ensures { (result.key ≡ key_word r.bits) × (result.next.bits ≡ register_after 64 r.bits) }
{
    let mut reg = r;
    let mut key: u64 = 0;
    for i in 0..8usize {
        let run = shift_by(reg, 8);
        key |= (run.key as u64) << (i * 8);
        reg = run.next;
    }
    Word { next: reg, key }
}

// Inner. The word of the key behind two that follow one another: each of its bits is the exclusive or of the bits 112 and 120
// places earlier, so each byte is that of the bytes 14 and 15 places earlier.
pub fn further(a: u64, b: u64) -> u64
    ensures { Further a b result }
{
    ((b << 48) ^ (b << 56)) ^ ((a >> 16) ^ (a >> 8))
}

// Inner. The register after a word of the key: its last fifteen bits, which are in its two highest bytes.
pub fn after_word(key: u64) -> Register
    ensures { AfterWord key result.bits }
{
    let high = ((key >> 48) & 0x7f) << 8;
    let bits = (high | (key >> 56)) as u16;
    Register { bits }
}
