// The search of a reader over the bits of a piece: for the tail, or for what counts as the tail at a setting.
//
// The contract cites `specs/Search.antt`, over the definitions of `reader_bits`. The function is inner: the call of the crate `reader`
// refuses instead.
#![tactic(auto)]

ghost use Rattle.std.specs.Prelude.{◌≡◌, ◌<◌, ◌≤◌, ◌^◌, length};
ghost use Rattle.tail_search.specs.Search.{PassedOk, SoughtOk};

use reader_bits::counts_as_tail;
use tail_bytes::passes;

// Inner. What the search gives: at the tail, the bytes taken and the low bits of the last byte still to read; else what is
// remembered once all bytes are taken. Both carry values and neither is an error: so no Option, and no Result.
#[derive(Clone, Copy, Debug, PartialEq, Eq)]
pub enum Sought {
    Found { taken: usize, left: u8, byte: u8 },
    Nothing { count: u8, search: u64 },
}

// How many bits are remembered: one fewer than the tail has.
const REMEMBERED: u8 = 63;

// Where fewer bits are remembered, a whole byte more completes no window.
const ROOM_FOR_BYTE: u8 = 56;

// How far the search went over whole bytes: the bytes taken, the last of them, and what is remembered.
#[derive(Clone, Copy, Debug, PartialEq, Eq)]
struct Passed {
    taken: usize,
    byte: u8,
    search: u64,
}

// Bytes of the piece from at on in which no window can count, one after the other; none where fewer than 63 bits are remembered.
fn pass_over(setting: u8, piece: &[u8], at: usize, byte0: u8, count: u8, search0: u64) -> Passed
    requires { (at ≤ length piece.now) × (count < 64) × (search0 < 2 ^ count) }
    ensures { PassedOk setting piece.now at byte0 count search0 result }
{
    if count != REMEMBERED {
        return Passed {
            taken: at,
            byte: byte0,
            search: search0,
        };
    }
    let mut byte = byte0;
    let mut search = search0;
    for taken in at..piece.len() {
        if !passes(setting, search) {
            return Passed {
                taken,
                byte,
                search,
            };
        }
        byte = piece[taken];
        search = ((search << 8) | byte as u64) & 0x7fff_ffff_ffff_ffff;
    }
    Passed {
        taken: piece.len(),
        byte,
        search,
    }
}

// Inner. The search at a setting: left0 low bits of byte0, then the piece, after count0 remembered bits. It leaves at the first
// bit that completes what counts as the tail, inside a byte too, with the byte's other bits still to read. The tail is
// compared once 64 bits are there, all since the search began. Bytes of the piece in which no window can count go whole.
pub fn seek(setting: u8, piece: &[u8], count0: u8, search0: u64, left0: u8, byte0: u8) -> Sought
    requires { (count0 < 64) × (search0 < 2 ^ count0) × (left0 ≤ 8) }
    ensures { SoughtOk setting piece.now count0 search0 left0 byte0 result }
{
    let mut count = count0;
    let mut search = search0;
    let mut left = left0;
    let mut byte = byte0;
    let mut at: usize = 0;
    // no `for` over the piece: `pass_over` takes many of its bytes at once
    'seek: loop {
        // counted down by hand: what is left of a byte is part of the answer, and is put back to eight at each byte that is read
        while left > 0 {
            left -= 1;
            let b = ((byte >> left) & 1) as u64;
            let w = search * 2 + b;
            if count < REMEMBERED {
                count += 1;
                search = w;
            } else {
                if counts_as_tail(setting, w) {
                    break 'seek;
                }
                search = w & 0x7fff_ffff_ffff_ffff;
            }
        }
        let passed = pass_over(setting, piece, at, byte, count, search);
        at = passed.taken;
        search = passed.search;
        if at == piece.len() {
            return Sought::Nothing { count, search };
        }
        byte = piece[at];
        at += 1;
        if count < ROOM_FOR_BYTE {
            count += 8;
            search = search * 256 + byte as u64;
        } else {
            left = 8;
        }
    }
    Sought::Found {
        taken: at,
        left,
        byte,
    }
}
