// Whole bytes of a line at once, from any bit of a byte of the piece on.
//
// The contracts cite `specs/Spans.antt`, over the definitions of `reader_bits`. All functions are inner: the call of the crate
// `reader` refuses instead.
#![tactic(auto)]

ghost use Rattle.std.specs.Prelude.{◌≡◌, zero, ◌+◌, ◌*◌, ◌/◌, ◌%◌, ◌^◌, ◌≤◌, ◌<◌, length};
ghost use Rattle.line_bytes.specs.Spans.{FillIn, across, Copied, Whole, SpanOk};

use formats::Format;
use scramble::Register;

// The eight bits that begin with the left low bits of a byte and go on in the next.
fn across(left: u8, byte: u8, next: u8) -> u8
    requires { left ≤ 7 }
    ensures { result ≡ across left byte next }
{
    ((byte << (7 - left)) << 1) | (next >> left)
}

// N bytes of the line as they are on the wire: the left low bits of a byte and the piece from a byte on, moved to the line's
// bytes. Each turn reads two bytes of the piece and carries none, so that the compiler takes many turns together.
fn copy_across(
    piece: &[u8],
    at: usize,
    left: u8,
    byte0: u8,
    n: usize,
    line: &mut [u8],
    first: usize,
)
    requires { (at + n ≤ length piece.now) × (left ≤ 7) × (first + n ≤ length line.old) × (zero < n) }
    ensures { Copied piece.now at left byte0 n first line.old line.new }
{
    line[first] = across(left, byte0, piece[at]);
    for i in 1..n {
        let here = at + i;
        line[first + i] = across(left, piece[here - 1], piece[here]);
    }
}

// How many whole bytes of the line can go at once, of a piece with so many bytes more: as many as it has, but for the line's last byte,
// and none where bits wait or a whole byte is unread.
#[tactic(auto, using(crate::proofs::Spanning::whole_none, crate::proofs::Spanning::whole_some))]
fn whole(bytes: usize, left: u8, place: usize) -> usize
    requires { place < 354848 }
    ensures { Whole bytes left place result }
{
    if left > 7 {
        return 0;
    }
    if place % 8 != 0 {
        return 0;
    }
    let rest = (Format::INFORMATION_BITS - 1 - place) / 8;
    usize::min(bytes, rest)
}

// Inner. How far whole bytes of a line went: the bytes of the piece taken, the last of them, of which as many low bits are
// unread as before, and the line's next place with its register.
#[derive(Clone, Copy)]
pub struct Span {
    pub taken: usize,
    pub byte: u8,
    pub place: usize,
    pub register: u16,
}

// Inner. Whole bytes of the line, copied as they are on the wire and then made plain where they stand.
pub fn whole_bytes(
    piece: &[u8],
    at: usize,
    left: u8,
    byte0: u8,
    place: usize,
    register0: u16,
    line: &mut [u8],
) -> Span
    requires { FillIn piece.now at left place register0 0 line.old }
    ensures { SpanOk piece.now at left byte0 place register0 line.old line.new result }
{
    let n = whole(piece.len() - at, left, place);
    if n == 0 {
        return Span {
            taken: at,
            byte: byte0,
            place,
            register: register0,
        };
    }
    copy_across(piece, at, left, byte0, n, line, place / 8);
    let after = wire_bits::mix_bytes(line, place / 8, n, place, Register { bits: register0 });
    let taken = at + n;
    Span {
        taken,
        byte: piece[taken - 1],
        place: place + n * 8,
        register: after.bits,
    }
}
