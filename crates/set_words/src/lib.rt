// How many bits are set in whole words of a slice. The contracts cite the definitions of the crate `bits`: `set_bits` is how many
// bits of a string are set, `part` some bits of a slice. A word is that of `slice_words`, and its count in `word_ones`: for a count the order
// of bytes is no matter.
//
// All functions here are inner: they ask that the places they are given lie in the slice.
#![tactic(auto)]

ghost use Rattle.std.specs.Prelude.{◌≡◌, ◌+◌, ◌*◌, ◌^◌, ◌≤◌, ◌<◌, length};
ghost use Rattle.bits.specs.Bits.{part, set_bits};

use slice_words::word_at;
use word_ones::ones;

// Inner. How many bits of n words are set, from a byte place on.
pub fn set_in_words(s: &[u8], at: usize, n: usize) -> usize
    requires { (at + 8 * n ≤ length s.now) × (64 * n < 2 ^ 64) }
    ensures { (result ≡ set_bits (part s.now (8 * at) (64 * n))) × (result ≤ 64 * n) }
{
    let mut sum: usize = 0;
    for word in 0..n {
        let place = at + 8 * word;
        sum += ones(word_at(s, place));
    }
    sum
}
