// Eight bytes of a slice as one number, and back, the first byte the lowest.
//
// The contracts cite `specs/LowFirst` of `bits`. All functions are inner: each asks that the places it is given lie in the slice.
#![tactic(auto)]

ghost use Rattle.std.specs.Prelude.{◌≡◌, ◌+◌, ◌%◌, ◌^◌, ◌≤◌, length};
ghost use Rattle.bits.specs.LowFirst.{low_first, bytes_from, stored};

// Inner. The first eight bytes. At literal places of a slice that begins with them the compiler makes one load of them.
pub fn eight_bytes(bytes: &[u8]) -> u64
    requires { 8 ≤ length bytes.now }
    ensures { result ≡ low_first 8 (bytes_from bytes.now 0) }
{
    u64::from_le_bytes([
        bytes[0], bytes[1], bytes[2], bytes[3], bytes[4], bytes[5], bytes[6], bytes[7],
    ])
}

// Inner. The eight bytes from a place on.
pub fn word_at(s: &[u8], at: usize) -> u64
    requires { at + 8 ≤ length s.now }
    ensures { result ≡ low_first 8 (bytes_from s.now at) }
{
    eight_bytes(&s[at..])
}

// Inner. One number put into the eight bytes from a place on; every other byte is kept.
pub fn put_word(s: &mut [u8], at: usize, y: u64)
    requires { at + 8 ≤ length s.old }
    ensures { s.new ≡ stored 8 s.old at y }
{
    s[at..at + 8].copy_from_slice(&y.to_le_bytes());
}
