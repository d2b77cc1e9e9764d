// Whole bytes of slices: copied, compared, filled, and the numbers that they write, high byte first. Places count from 0, but for
// `integer_at`.
//
// The contracts cite the definitions of the crate `bits`: `stretch` is some bytes of a slice, `same` compares two, `in_base 256` is
// the number that bytes write and `fields_of 8` the bytes of one.
//
// All functions here are inner: each asks that the places it is given lie in the slices, and the calls above, which users
// make, refuse instead.
#![tactic(auto)]

ghost use Rattle.std.specs.Prelude.{◌≡◌, ◌++◌, ◌+◌, ◌-◌, ◌*◌, ◌^◌, ◌≤◌, ◌<◌, length, get_or, take, drop, replicate};
ghost use Rattle.bits.specs.Bits.{stretch, same, digits, in_base, fields_of};

// Inner. Whether n bytes of a, from one place on, are those of b from another.
#[tactic(auto, using(crate::proofs::Turns::compared), unfolding(bits::specs::Bits::stretch))]
pub fn same(a: &[u8], from: usize, b: &[u8], at: usize, n: usize) -> bool
    requires { (from + n ≤ length a.now) × (at + n ≤ length b.now) }
    ensures { result ≡ same (stretch a.now from n) (stretch b.now at n) }
{
    a[from..from + n] == b[at..at + n]
}

// Inner. The n bytes of a from one place on, put into b from another; every other byte of b is kept.
pub fn copy(a: &[u8], from: usize, n: usize, b: &mut [u8], at: usize)
    requires { (from + n ≤ length a.now) × (at + n ≤ length b.old) }
    ensures { b.new ≡ take at b.old ++ stretch a.now from n ++ drop (at + n) b.old }
{
    // byte by byte: `copy_from_slice` is compiled to `memmove`, a name that users of the archive would have to have
    for i in 0..n {
        b[at + i] = a[from + i];
    }
}

// Inner. One value n times, put into b from a place on; every other byte of b is kept.
pub fn fill(value: u8, n: usize, b: &mut [u8], at: usize)
    requires { at + n ≤ length b.old }
    ensures { b.new ≡ take at b.old ++ replicate n value ++ drop (at + n) b.old }
{
    b[at..at + n].fill(value);
}

// Inner. A byte as a number.
pub fn byte_at(bytes: &[u8], i: usize) -> u64
    requires { i < length bytes.now }
    ensures { (result ≡ get_or bytes.now i 0) × (result < 256) }
{
    bytes[i] as u64
}

// Inner. The unsigned number that the first n bytes write, high byte first: at most eight, so that it fits.
#[tactic(auto, using(crate::proofs::Turns::whole_turns))]
pub fn whole(bytes: &[u8], n: usize) -> u64
    requires { (n ≤ length bytes.now) × (n ≤ 8) }
    ensures { (result ≡ in_base 256 (take n bytes.now)) × (result < 256 ^ n) }
{
    let mut a: u64 = 0;
    // by place, so that the edit low_byte_first, which reads from the last byte to the first, changes the place alone
    for i in 0..n {
        a = a * 256 + byte_at(bytes, i);
    }
    a
}

// Inner. The I*2 number at a place: two bytes, high byte first. The place counts from 1, as the paper's do.
pub fn integer_at(bytes: &[u8], place: usize) -> u16
    requires { (1 ≤ place) × (place + 1 ≤ length bytes.now) }
    ensures { result ≡ in_base 256 (stretch bytes.now (place - 1) 2) }
{
    let at = place - 1;
    let end = at + 2;
    whole(&bytes[at..end], 2) as u16
}

// Inner. The low n bytes of v, high byte first, put at the front; what lies behind them is kept.
#[tactic(auto, using(crate::proofs::Turns::put_none))]
pub fn put_whole(v: u64, n: usize, out: &mut [u8])
    requires { (n ≤ length out.old) × (n ≤ 8) }
    ensures { out.new ≡ fields_of 8 n (digits (8 * n) v) ++ drop n out.old }
{
    for (i, byte) in out[..n].iter_mut().enumerate() {
        *byte = ((v >> (8 * (n - 1 - i))) & 255) as u8;
    }
}
