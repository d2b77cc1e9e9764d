// What a call of the reader gives, and the end of a call that is in a line.
//
// The contract cites `specs/Answers.antt`. The function is inner: the call of the crate `reader` refuses instead.
#![tactic(auto)]

ghost use Rattle.line_bytes.specs.Spans.{FillIn};
ghost use Rattle.reader_line.specs.Answers.{LineOk};

use line_bits::Filled;
use reader_record::State;

// What a call of `read` that is not refused gives: the piece used up, or a line complete in the buffer. With it the bytes taken of
// the piece, and the record for the next call.
#[derive(Clone, Copy, Debug, PartialEq, Eq)]
pub enum Reading {
    More { taken: usize, state: State },
    Line { taken: usize, state: State },
}

// Inner. A call that is in a line, to its end: the line complete, or the piece used up.
#[tactic(auto, using(crate::proofs::Ends::filled_whole, crate::proofs::Ends::filled_part))]
pub fn to_line(
    piece: &[u8],
    at: usize,
    left: u8,
    byte: u8,
    place: usize,
    register: u16,
    waiting: u8,
    line: &mut [u8],
) -> Reading
    requires { FillIn piece.now at left place register waiting line.old }
    ensures { LineOk piece.now at place register waiting line.old left byte result line.new }
{
    match line_bits::fill(piece, at, left, byte, place, register, waiting, line) {
        Filled::Whole { taken, left, bits } => Reading::Line {
            taken,
            state: reader_record::between(0, 0, left, bits),
        },
        Filled::Part {
            place,
            register,
            waiting,
        } => Reading::More {
            taken: piece.len(),
            state: reader_record::inside(place, register, waiting),
        },
    }
}
