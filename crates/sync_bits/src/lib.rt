// Scrambling bits alone, put into a slice: what SYNC is made of.
//
// The contracts cite `specs/Register.antt`, `specs/Step.antt` and `specs/Wire.antt` of `scramble`. All functions are inner.
#![tactic(auto)]

ghost use Rattle.std.specs.Prelude.{◌≡◌, ◌++◌, ◌+◌, ◌*◌, ◌^◌, ◌≤◌, ◌<◌, length, take, drop, set, replicate};
ghost use Rattle.bits.specs.Bits.{bits_of};
ghost use Rattle.scramble.specs.Register.{new_bit, next_register, register_after, scrambling_bits};
ghost use Rattle.scramble.specs.Sync.{fifteen_ones};
ghost use Rattle.scramble.specs.Wire.{complemented};
ghost use Rattle.runs.specs.Mixed.{Put};

use scramble::Register;
use wire_bits::mix_bytes;

// Inner. The scrambling bit that follows a register, put at a place of s. The register is this function's own, lent to `step`,
// which changes it in place; it comes back.
fn put_next(s: &mut [u8], at: usize, r: Register) -> Register
    requires { (at < 8 * length s.old) × (r.bits ≤ fifteen_ones) }
    ensures { (bits_of s.new ≡ set (bits_of s.old) at (new_bit r.bits)) × (result.bits ≡ next_register r.bits) }
{
    let mut own = r;
    let bit = scramble::step(&mut own).unwrap_or(0);
    slice_writer::put_bit(s, at, bit);
    own
}

// Count scrambling bits, bit by bit: as `put_scrambling`.
#[tactic(auto, using(crate::proofs::Each::each_turns))]
fn put_each(s: &mut [u8], from: usize, count: usize, r: Register) -> Register
    requires { (from + count ≤ 8 * length s.old) × (from + count < 2 ^ 64) × (r.bits ≤ fifteen_ones) }
    ensures { (bits_of s.new ≡ take from (bits_of s.old) ++ scrambling_bits count r.bits ++ drop (from + count) (bits_of s.old)) × (result.bits ≡ register_after count r.bits) }
{
    let mut reg = r;
    for i in 0..count {
        reg = put_next(s, from + i, reg);
    }
    reg
}

// N bytes of s that complementing, counted from the first of them, makes zeros.
fn blank(s: &mut [u8], first: usize, n: usize)
    requires { first + n ≤ length s.old }
    ensures { Put s.old s.new (first * 8) (n * 8) (complemented 0 (replicate (n * 8) 0)) }
{
    for i in 0..n {
        s[first + i] = (i & 1) as u8 * 255;
    }
}

// Inner. The count scrambling bits that follow a register, put into s from a place on; the register after them comes back. They
// are what zeros are on the wire but for complementing: so whole bytes are blanked, and go the way of a line. Bits that begin or end
// inside a byte, of which no call has any, go one by one.
pub fn put_scrambling(s: &mut [u8], from: usize, count: usize, r: Register) -> Register
    requires { (from + count ≤ 8 * length s.old) × (from + count < 2 ^ 64) × (r.bits ≤ fifteen_ones) }
    ensures { (bits_of s.new ≡ take from (bits_of s.old) ++ scrambling_bits count r.bits ++ drop (from + count) (bits_of s.old)) × (result.bits ≡ register_after count r.bits) }
{
    if from % 8 != 0 {
        return put_each(s, from, count, r);
    }
    if count % 8 != 0 {
        return put_each(s, from, count, r);
    }
    blank(s, from / 8, count / 8);
    mix_bytes(s, from / 8, count / 8, 0, r)
}
