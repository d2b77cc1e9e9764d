// The bits of a line, read on from a piece and made plain into the caller's buffer.
//
// The contracts cite `specs/Reading.antt`, over the definitions of `reader_bits`; whole bytes are in `line_bytes`. All functions are inner: the call of the crate
// `reader` refuses instead.
#![tactic(auto)]

ghost use Rattle.std.specs.Prelude.{◌≡◌, ◌<◌, ◌^◌, ◌%◌};
ghost use Rattle.line_bytes.specs.Spans.{FillIn};
ghost use Rattle.line_bits.specs.Reading.{FilledOk};

use formats::Format;
use line_bytes::whole_bytes;
use scramble::Register;

// Inner. The n low bits.
fn low(byte: u8, n: u8) -> u8
    requires { n < 8 }
    ensures { result ≡ byte % 2 ^ n }
{
    byte & ((1u8 << n) - 1)
}

// Inner. What reading a line gives: complete, with the bytes taken and the unread bits of the last; or in part, with all
// bytes taken. Both carry values and neither is an error: so no Option, and no Result.
#[derive(Clone, Copy, Debug, PartialEq, Eq)]
pub enum Filled {
    Whole {
        taken: usize,
        left: u8,
        bits: u8,
    },
    Part {
        place: usize,
        register: u16,
        waiting: u8,
    },
}

// Inner. The bits of a line: left0 low bits of byte0, then the piece from at0 on, made plain into the buffer. A byte of the
// buffer changes only once its eight bits are in. It leaves at the line's last bit, or with the piece used up. Whole bytes go at once
// where no bits wait; bits that wait at entry, the line's last byte and the end of the piece go bit by bit.
pub fn fill(
    piece: &[u8],
    at0: usize,
    left0: u8,
    byte0: u8,
    place0: usize,
    register0: u16,
    waiting0: u8,
    line: &mut [u8],
) -> Filled
    requires { FillIn piece.now at0 left0 place0 register0 waiting0 line.old }
    ensures { FilledOk piece.now at0 left0 byte0 place0 register0 waiting0 line.old line.new result }
{
    let begun = whole_bytes(piece, at0, left0, byte0, place0, register0, line);
    let mut at = begun.taken;
    let mut left = left0;
    let mut byte = begun.byte;
    let mut place = begun.place;
    let mut register = begun.register;
    let mut waiting = waiting0;
    // no `for` over the piece: `whole_bytes` takes many of its bytes in the middle of one
    loop {
        // counted down by hand: what is left of a byte is part of the answer, and is put back to eight at each byte that is read
        while left > 0 {
            left -= 1;
            let b = (byte >> left) & 1;
            let plain = scramble::mix_bit(place, Register { bits: register }, b);
            let next = plain.next;
            let w = waiting * 2 + plain.bit;
            if place % 8 == 7 {
                line[place / 8] = w;
                if place == Format::INFORMATION_BITS - 1 {
                    return Filled::Whole {
                        taken: at,
                        left,
                        bits: low(byte, left),
                    };
                }
                let span = whole_bytes(piece, at, left, byte, place + 1, next.bits, line);
                at = span.taken;
                byte = span.byte;
                place = span.place;
                register = span.register;
                waiting = 0;
            } else {
                place += 1;
                register = next.bits;
                waiting = w;
            }
        }
        if at == piece.len() {
            return Filled::Part {
                place,
                register,
                waiting,
            };
        }
        byte = piece[at];
        at += 1;
        left = 8;
    }
}
