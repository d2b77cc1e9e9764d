// A slice of bytes as bits, the most significant bit of each byte first: one bit, a field of any width up to sixteen at any
// bit place, and many fields of one width unpacked. Bit places count from 0. `slice_writer` puts them.
//
// The contracts cite the definitions of the crate `bits`: `bits_of` is the slice as bits, `part` some of them, `number_of` the
// number that they write. Every width is served by the same functions and the same laws.
//
// All functions here are inner: each asks that the places it is given lie in the slice, and the calls above, which users make,
// refuse instead.
#![tactic(auto)]

ghost use Rattle.std.specs.Prelude.{◌≡◌, ◌++◌, ◌+◌, ◌*◌, ◌^◌, ◌≤◌, ◌<◌, ℕ, length, get_or, drop, map};
ghost use Rattle.bits.specs.Bits.{bits_of, part, number_of, fields_of};

// Inner. The bit at a place.
pub fn bit_at(s: &[u8], at: usize) -> u8
    requires { at < 8 * length s.now }
    ensures { (result ≡ get_or (bits_of s.now) at 0) × (result < 2) }
{
    (s[at >> 3] >> (7 - (at & 7))) & 1
}

// The byte at a place, and 0 past the end.
fn byte_or_zero(s: &[u8], i: usize) -> u32
    ensures { (result ≡ get_or s.now i 0) × (result < 2 ^ 8) }
{
    match s.get(i) {
        Some(byte) => u32::from(*byte),
        None => 0,
    }
}

// Inner. The number that width bits from a place on write, the first bit the highest. Sixteen bits from any place
// lie in three bytes, so a window of three bytes is shifted down and masked.
pub fn field(s: &[u8], at: usize, width: usize) -> u16
    requires { (at + width ≤ 8 * length s.now) × (width ≤ 16) }
    ensures { (result ≡ number_of (part s.now at width)) × (result < 2 ^ width) }
{
    let i = at >> 3;
    let low = 24 - (at & 7) - width;
    let n = byte_or_zero(s, i) << 16 | byte_or_zero(s, i + 1) << 8 | byte_or_zero(s, i + 2);
    let mask = (1u32 << width) - 1;
    ((n >> low) & mask) as u16
}

// A number that is stored for a field of bits: a byte, or sixteen bits.
pub trait Stored: Copy {
    // How many bits it has room for, and which number it is.
    ghost room: { ℕ };

    ghost number: { Self → ℕ };

    fn stored(field: u16) -> Self
        requires { field < 2 ^ room }
        ensures { number result ≡ field };

    fn number(self) -> u16
        ensures { result ≡ number self };
}

impl Stored for u8 {
    ghost room = { 8 };

    ghost number = { λ v. v };

    fn stored(field: u16) -> Self {
        field as u8
    }

    fn number(self) -> u16 {
        u16::from(self)
    }
}

impl Stored for u16 {
    ghost room = { 16 };

    ghost number = { λ v. v };

    fn stored(field: u16) -> Self {
        field
    }

    fn number(self) -> u16 {
        self
    }
}

// Inner. Fields from a place on, one after the other, into all of out: at a width that what stores them has room for.
#[tactic(auto, using(crate::proofs::Unpacked::unpacked_none, crate::proofs::Unpacked::unpacked_more))]
pub fn unpack<T: Stored>(s: &[u8], at: usize, width: usize, out: &mut [T])
    requires { (at + length out.old * width ≤ 8 * length s.now) × (at + length out.old * width < 2 ^ 64) × (width ≤ 16) × (width ≤ T.room) }
    ensures { map T.number out.new ≡ fields_of width (length out.old) (drop at (bits_of s.now)) }
{
    let mut place = at;
    for x in out.iter_mut() {
        *x = T::stored(field(s, place, width));
        place += width;
    }
}
