// How many bits are set in a stretch of a slice, at any place, counted in fields of sixteen bits. The contracts cite the definitions
// of the crate `bits`: `set_bits` is how many bits of a string are set, `part` some bits of a slice. The count of one word is in
// `word_ones`.
//
// All functions here are inner: they ask that the places they are given lie in the slice.
#![tactic(auto)]

ghost use Rattle.std.specs.Prelude.{◌≡◌, ◌+◌, ◌*◌, ◌^◌, ◌≤◌, ◌<◌, length};
ghost use Rattle.bits.specs.Bits.{part, set_bits};

use slices::field;
use word_ones::ones;

// How many bits of a field are set.
fn set_in_field(s: &[u8], at: usize, width: usize) -> usize
    requires { (at + width ≤ 8 * length s.now) × (width ≤ 16) }
    ensures { (result ≡ set_bits (part s.now at width)) × (result ≤ width) }
{
    ones(field(s, at, width) as u64)
}

// Inner. How many of count bits are set, at any place: in fields of sixteen bits, and in one of the bits that are left.
#[tactic(auto, using(crate::proofs::Field::fields_none, crate::proofs::Field::fields_turn))]
pub fn set_in_fields(s: &[u8], from: usize, count: usize) -> usize
    requires { (from + count ≤ 8 * length s.now) × (from + count < 2 ^ 64) }
    ensures { (result ≡ set_bits (part s.now from count)) × (result ≤ count) }
{
    let mut sum: usize = 0;
    for i in (0..count).step_by(16) {
        sum += set_in_field(s, from + i, usize::min(16, count - i));
    }
    sum
}
