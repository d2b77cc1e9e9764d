// How many bits of a slice are set, any of its bits, whole words at a time. The contracts cite the definitions of the crate
// `bits`: `set_bits` is how many bits of a string are set, `part` some bits of a slice. The count of whole words is in `set_words`,
// that of the bits before and behind them in `set_fields`.
//
// All functions here are inner: those that read a slice ask that the places they are given lie in it, and the calls above,
// which users make, refuse instead.
#![tactic(auto)]

ghost use Rattle.std.specs.Prelude.{◌≡◌, ◌+◌, ◌*◌, ◌%◌, ◌^◌, ◌≤◌, ◌<◌, length};
ghost use Rattle.bits.specs.Bits.{part, set_bits};

use set_fields::set_in_fields;
use set_words::set_in_words;

// How many bits there are from a place to the next whole byte.
fn head_bits(from: usize) -> usize
    ensures { ((from + result) % 8 ≡ 0) × (result < 8) }
{
    (8 - (from & 7)) & 7
}

// Inner. How many of count bits are set: those before the first whole byte, whole words, and the rest.
pub fn count_set(s: &[u8], from: usize, count: usize) -> usize
    requires { (from + count ≤ 8 * length s.now) × (from + count < 2 ^ 64) }
    ensures { (result ≡ set_bits (part s.now from count)) × (result ≤ count) }
{
    if count < 64 {
        return set_in_fields(s, from, count);
    }
    let head = head_bits(from);
    let words = (count - head) >> 6;
    let done = head + 64 * words;
    let first = set_in_fields(s, from, head);
    let middle = set_in_words(s, (from + head) >> 3, words);
    first + middle + set_in_fields(s, from + done, count - done)
}
