// Bits put into a slice of bytes: one bit, a field of any width up to sixteen at any bit place, and many fields of one width
// packed; every other bit is kept. Bit places count from 0, the most significant bit of each byte first.
//
// The contracts cite the definitions of the crate `bits`: `bits_of` is the slice as bits, `digits` the bits of a number and
// `packed_of` those of many. Every width is served by the same functions and the same laws.
//
// All functions here are inner: each asks that the places it is given lie in the slice, and the calls above, which users make,
// refuse instead.
#![tactic(auto)]

ghost use Rattle.std.specs.Prelude.{◌≡◌, ◌++◌, ◌+◌, ◌*◌, ◌^◌, ◌≤◌, ◌<◌, length, take, drop, set, map};
ghost use Rattle.bits.specs.Bits.{bits_of, digits, packed_of};

use slices::Stored;

// Inner. One bit put, and every other kept.
pub fn put_bit(s: &mut [u8], at: usize, b: u8)
    requires { (at < 8 * length s.old) × (b < 2) }
    ensures { bits_of s.new ≡ set (bits_of s.old) at b }
{
    let low = 7 - (at & 7);
    let i = at >> 3;
    s[i] = (s[i] & !(1 << low)) | (b << low);
}

// Inner. The low width bits of v put from a place on, the highest first, and every other bit kept.
#[tactic(auto, using(crate::proofs::Packs::field_none, crate::proofs::Packs::field_turn, crate::proofs::Packs::field_end))]
pub fn put_field(s: &mut [u8], at: usize, width: usize, v: u16)
    requires { (at + width ≤ 8 * length s.old) × (at + width < 2 ^ 64) × (width ≤ 16) }
    ensures { bits_of s.new ≡ take at (bits_of s.old) ++ digits width v ++ drop (at + width) (bits_of s.old) }
{
    for i in 0..width {
        let b = (v >> (width - 1 - i)) & 1;
        put_bit(s, at + i, b as u8);
    }
}

// Inner. Numbers put at a width from a place on, one after the other, and every other bit kept.
#[tactic(auto, using(bits::proofs::Packing::packing_none, crate::proofs::Packs::packing_end))]
pub fn pack<T: Stored>(fields: &[T], width: usize, s: &mut [u8], at: usize)
    requires { (at + length fields.now * width ≤ 8 * length s.old) × (at + length fields.now * width < 2 ^ 64) × (width ≤ 16) }
    ensures { bits_of s.new ≡ take at (bits_of s.old) ++ packed_of width (map T.number fields.now) ++ drop (at + length fields.now * width) (bits_of s.old) }
{
    let mut place = at;
    for v in fields {
        put_field(s, place, width, v.number());
        place += width;
    }
}
