// How many bits of a word are set. The contract cites the definitions of the crate `bits`: `set_bits` is how many bits of a string are
// set, `digits` a number as bits.
//
// `ones` is the parallel count, whose law holds at every width 2^j (`bits`, `proofs/Parallel`). Where two words differ their
// exclusive or is set, so it counts as well in how many places they are apart (`apart_digits`).
//
// All functions here are inner.
#![tactic(auto)]

ghost use Rattle.std.specs.Prelude.{◌≡◌, ◌+◌, ◌/◌, ◌^◌, ◌≤◌, ◌<◌};
ghost use Rattle.std.specs.Int.Bits.{bit_and};
ghost use Rattle.bits.specs.Bits.{digits, set_bits};

// Neighbouring fields added, in the whole word at once: the low ones, which the mask keeps, and the high ones, shifted down to
// them.
fn paired(n: u64, k: usize, mask: u64) -> u64
    requires { (k < 64) × (mask < 2 ^ 63) }
    ensures { result ≡ bit_and n mask + bit_and (n / 2 ^ k) mask }
{
    (n & mask) + ((n >> k) & mask)
}

// Inner. How many bits of a word are set. A bit is a field of its own with its own count. Neighbours added give fields of two
// bits with theirs, and so on, to one field of 64.
pub fn ones(word: u64) -> usize
    ensures { (result ≡ set_bits (digits 64 word)) × (result ≤ 64) }
{
    let twos = paired(word, 1, 0x5555_5555_5555_5555);
    let fours = paired(twos, 2, 0x3333_3333_3333_3333);
    let eights = paired(fours, 4, 0x0f0f_0f0f_0f0f_0f0f);
    let sixteens = paired(eights, 8, 0x00ff_00ff_00ff_00ff);
    let halves = paired(sixteens, 16, 0x0000_ffff_0000_ffff);
    paired(halves, 32, 0x0000_0000_ffff_ffff) as usize
}
