// Whole bytes of a slice put on the wire and made plain again, eight a step.
//
// The contracts cite `specs/Mixed` of `runs`: n bytes from a place and a register on, by the bit rule of `scramble`. All functions are
// inner: each asks that the places it is given lie in the slice.
#![tactic(auto)]

ghost use Rattle.std.specs.Prelude.{◌+◌, ◌*◌, ◌^◌, ◌≤◌, ◌<◌, length};
ghost use Rattle.runs.specs.Mixed.{Mixed};

use scramble::Register;
use slice_words::{put_word, word_at};
use wire_steps::{after_word, first_word, further, group_word, mix_byte};

// Inner. N words of eight bytes, a word a step. The next two words of the key are always at hand.
pub fn mix_words(s: &mut [u8], first: usize, n: usize, place: usize, r: Register) -> Register
    requires { first + n * 8 ≤ length s.old }
    ensures { Mixed s.old s.new first (n * 8) place r.bits result.bits }
{
    if n == 0 {
        return r;
    }
    let groups = group_word(place);
    let one = first_word(r);
    let two = first_word(one.next);
    let mut a = one.key;
    let mut b = two.key;
    let mut last: u64 = 0;
    for i in 0..n {
        let at = first + i * 8;
        let x = word_at(s, at);
        put_word(s, at, x ^ groups ^ a);
        last = a;
        let c = further(a, b);
        a = b;
        b = c;
    }
    after_word(last)
}

// Inner. N bytes, a byte a step.
pub fn mix_each(s: &mut [u8], first: usize, n: usize, place: usize, r: Register) -> Register
    requires { (first + n ≤ length s.old) × (place + n * 8 < 2 ^ 64) }
    ensures { Mixed s.old s.new first n place r.bits result.bits }
{
    let mut reg = r;
    for i in 0..n {
        let m = mix_byte(s[first + i], place + i * 8, reg);
        s[first + i] = m.byte;
        reg = m.next;
    }
    reg
}
