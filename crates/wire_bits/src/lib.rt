// Bits of a slice put on the wire and made plain again: whole bytes by words, others one after the other by the rule of `scramble`.
//
// The contracts cite `specs/Register.antt` and `specs/Wire.antt` of `scramble`, and `specs/Mixed.antt` of `runs`. The functions are inner.
#![tactic(auto)]

ghost use Rattle.std.specs.Prelude.{◌≡◌, ◌++◌, ◌+◌, ◌*◌, ◌^◌, ◌≤◌, ◌<◌, length, take, drop};
ghost use Rattle.bits.specs.Bits.{bits_of, part};
ghost use Rattle.scramble.specs.Register.{register_after};
ghost use Rattle.scramble.specs.Wire.{wire_of};
ghost use Rattle.runs.specs.Mixed.{Mixed};

use scramble::{Register, mix_bit};
use wire_words::{mix_each, mix_words};

// Count bits of s, bit by bit: as `mix`.
#[tactic(auto, using(crate::proofs::Target::target_turns))]
fn mix_bits(s: &mut [u8], from: usize, count: usize, place: usize, r: Register) -> Register
    requires { (from + count ≤ 8 * length s.old) × (from + count < 2 ^ 64) × (place + count < 2 ^ 64) }
    ensures { (bits_of s.new ≡ take from (bits_of s.old) ++ wire_of place r.bits (part s.old from count) ++ drop (from + count) (bits_of s.old)) × (result.bits ≡ register_after count r.bits) }
{
    let mut reg = r;
    for i in 0..count {
        let b = slices::bit_at(s, from + i);
        let t = mix_bit(place + i, reg, b);
        slice_writer::put_bit(s, from + i, t.bit);
        reg = t.next;
    }
    reg
}

// Inner. N bytes of s put on the wire or made plain: words of eight, and the bytes behind them.
pub fn mix_bytes(s: &mut [u8], first: usize, n: usize, place: usize, r: Register) -> Register
    requires { (first + n ≤ length s.old) × (place + n * 8 < 2 ^ 64) }
    ensures { Mixed s.old s.new first n place r.bits result.bits }
{
    let words = n / 8;
    let a = mix_words(s, first, words, place, r);
    let done = words * 8;
    mix_each(s, first + done, n - done, place + done * 8, a)
}

// Inner. Count bits of s from a place on, put on the wire or made plain: one exclusive or serves both ways. Place is
// the number of the first of them, counted from the first information bit, and r the register before it; the register
// after them comes back. Whole bytes of s go by words; bits that begin or end inside a byte, of which no call has any, one by one.
pub fn mix(s: &mut [u8], from: usize, count: usize, place: usize, r: Register) -> Register
    requires { (from + count ≤ 8 * length s.old) × (from + count < 2 ^ 64) × (place + count < 2 ^ 64) }
    ensures { (bits_of s.new ≡ take from (bits_of s.old) ++ wire_of place r.bits (part s.old from count) ++ drop (from + count) (bits_of s.old)) × (result.bits ≡ register_after count r.bits) }
{
    if from % 8 != 0 {
        return mix_bits(s, from, count, place, r);
    }
    if count % 8 != 0 {
        return mix_bits(s, from, count, place, r);
    }
    mix_bytes(s, from / 8, count / 8, place, r)
}
