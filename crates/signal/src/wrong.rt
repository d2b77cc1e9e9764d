// Wrong bits in the tails, for a class that tries the setting. In line k, from 0, w bits of the tail are inverted: those at the
// places (7 k + 23 j) % 64 for j = 0 .. w-1, place 0 being the tail's first bit. 23 is odd, so the places differ.
//
// The tail is the last 64 bits of SYNC, and a line on the wire begins with SYNC.
ghost use Rattle.std.specs.Prelude.{◌≡◌, ◌+◌, ◌*◌, ◌%◌, ◌≤◌, ◌<◌};

use formats::Format;

// The most wrong bits that a tail can have.
pub const MOST: u64 = 64;

// The place of wrong bit j in the tail of line k.
fn place(k: u64, j: u64) -> usize
    requires { (k < 1000000) × (j < 64) }
    ensures { result ≡ (7 * k + 23 * j) % 64 }
{
    ((7 * k + 23 * j) % 64) as usize
}

// The bit at a place of a line on the wire, inverted.
fn invert(wire: &mut [u8], bit: usize) {
    if let Some(byte) = wire.get_mut(bit / 8) {
        *byte ^= 128 >> (bit % 8);
    }
}

// Where the tail begins.
fn tail(format: u8) -> usize
    ensures { result ≤ 19936 }
{
    let sync = if format == 2 {
        Format::SYNC_BITS_2
    } else {
        Format::SYNC_BITS_1
    };
    sync - 64
}

// Inner. Line k on the wire, with w wrong bits in its tail.
pub fn put(format: u8, k: u64, w: u64, wire: &mut [u8])
    requires { (k < 1000000) × (w ≤ 64) }
{
    let tail = tail(format);
    for j in 0..w {
        invert(wire, tail + place(k, j));
    }
}
