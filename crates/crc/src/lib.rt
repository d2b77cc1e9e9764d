// The check of a sector: the remainder of bits, first bit highest, by x^16 + x^12 + x^5 + 1 over two elements, and the
// check word that makes a remainder 0.
//
// The contracts cite `specs/Remainder.antt` of `crc_step`; `division` says what a remainder is, and its proofs join the
// two. Every function takes the start value of the check, which is the format's: its bits are put on the first sixteen.
//
// The functions here are inner: those that go through a slice ask that the bits they are given lie in it, and the
// calls above, which users make, refuse instead.
#![tactic(auto)]

ghost use Rattle.std.specs.Prelude.{◌≡◌, ◌+◌, ◌*◌, ◌%◌, ◌^◌, ◌≤◌, ◌<◌, length};
ghost use Rattle.bits.specs.Bits.{part};
ghost use Rattle.crc_step.specs.Remainder.{remainder_of, check_word_of};

use crc_step::{Running, stepped};

// The remainder of count bits, and what is left of the start value.
#[tactic(auto, using(crate::proofs::Turn::part_turns))]
fn through(start: u16, s: &[u8], from: usize, count: usize) -> Running
    requires { (from + count ≤ 8 * length s.now) × (from + count < 2 ^ 64) }
    ensures { (result.rem ≡ remainder_of start (part s.now from count)) × (result.start ≡ start * 2 ^ count % 2 ^ 16) }
{
    let mut a = Running { rem: 0, start };
    for i in 0..count {
        a = stepped(a, slices::bit_at(s, from + i));
    }
    a
}

// Inner. The remainder of count bits: 0 exactly where the last sixteen are the check word of those before them.
pub fn remainder(start: u16, s: &[u8], from: usize, count: usize) -> u16
    requires { (from + count ≤ 8 * length s.now) × (from + count < 2 ^ 64) }
    ensures { result ≡ remainder_of start (part s.now from count) }
{
    through(start, s, from, count).rem
}

// Inner. The check word of count bits: the remainder with sixteen zeros behind them.
#[tactic(auto, using(crate::proofs::Turn::zero_turns), unfolding(crc_step::specs::Remainder::check_word_of))]
pub fn check_word(start: u16, s: &[u8], from: usize, count: usize) -> u16
    requires { (from + count ≤ 8 * length s.now) × (from + count < 2 ^ 64) }
    ensures { result ≡ check_word_of start (part s.now from count) }
{
    let mut a = through(start, s, from, count);
    // the place has a name, so that the invariant can count the zeros
    for _i in 0..16usize {
        a = stepped(a, 0);
    }
    a.rem
}
