// Recordings for C and Rust: the reader and the writer. Each function hands its numbers and slices on to the call of the same
// name in `reader` or `writer` and lays that call's answer out as one struct of numbers: `refused` is 0 or the number of the
// refusal, and a refused answer has 0 in every other field. The record that a caller keeps of a reader comes back as it was
// handed in where a call is refused.
//
// The contracts cite `specs/Recording.antt`, one definition for each answer, over the definitions of the calls themselves.
// No function has a `requires`: nothing checks a caller in C.
//
// Structs with a number beside values, and a number for a truth value, are the C interface.
//
// A slice crosses as a pointer and a count; slices that are lent to one call must not overlap.
#![tactic(auto)]

ghost use Rattle.std.specs.Prelude.{◌≡◌};
ghost use Rattle.reader_record.specs.Records.{fresh_state};
ghost use Rattle.writer.specs.Wire.{write_line_answer, write_line_left};
ghost use Rattle.refusals.specs.Refusals.{answer_number};
ghost use Rattle.rack_recording.specs.Recording.{handed_of, kept_of, refused_read, read_given, flag_refusal, read_of, line_left, written_given};

use formats::format_refusal;
use rack_number::CountAnswer;
use reader_line::Reading;
use reader_record::State;
use reader_refusals::setting_refusal;
use refusals::{Refusal, number_in};

// What a reader keeps between calls, laid out without gaps and in widths that no machine changes, since a caller may store it.
// `in_line` is 1 in a line and 0 between lines; a record with another number there is impossible. The other fields are those of
// `reader_record::State`.
#[repr(C)]
#[derive(Clone, Copy)]
pub struct ReaderState {
    pub position: u64,
    pub search: u64,
    pub register: u16,
    pub in_line: u8,
    pub search_count: u8,
    pub unread: u8,
    pub unread_count: u8,
    pub waiting: u8,
    pub waiting_count: u8,
}

// The answer of a read: whether a line is complete in the buffer, the bytes taken of the piece, and the record for the next
// call, which is the one handed in where the call is refused.
#[repr(C)]
#[derive(Clone, Copy)]
pub struct ReadAnswer {
    pub refused: u8,
    pub complete: bool,
    pub taken: usize,
    pub state: ReaderState,
}

// A record as the reader takes it.
impl From<ReaderState> for State {
    ghost from_gives = { λ s state. state ≡ handed_of s };

    #[tactic(auto, unfolding(crate::specs::Recording::handed_of))]
    fn from(s: ReaderState) -> Self {
        Self {
            in_line: s.in_line == 1,
            position: s.position as usize,
            search: s.search,
            search_count: s.search_count,
            register: s.register,
            unread: s.unread,
            unread_count: s.unread_count,
            waiting: s.waiting,
            waiting_count: s.waiting_count,
        }
    }
}

// A record as it crosses the boundary.
impl From<State> for ReaderState {
    ghost from_gives = { λ s kept. kept ≡ kept_of s };

    #[tactic(auto, unfolding(crate::specs::Recording::kept_of))]
    fn from(s: State) -> Self {
        Self {
            position: s.position as u64,
            search: s.search,
            register: s.register,
            in_line: s.in_line as u8,
            search_count: s.search_count,
            unread: s.unread,
            unread_count: s.unread_count,
            waiting: s.waiting,
            waiting_count: s.waiting_count,
        }
    }
}

// Inner. The answer of a refused read.
#[tactic(auto, unfolding(crate::specs::Recording::refused_read))]
fn refused_read(n: u8, s: ReaderState) -> ReadAnswer
    ensures { result ≡ refused_read n s }
{
    ReadAnswer {
        refused: n,
        complete: false,
        taken: 0,
        state: s,
    }
}

// The record of a reader before a recording's first bit: every field 0.
pub fn hansobrik_fresh() -> ReaderState
    ensures { result ≡ kept_of fresh_state }
{
    ReaderState::from(reader_record::fresh())
}

// Inner. The answer of a read as it crosses the boundary, with the record that was handed in.
#[tactic(auto, unfolding(crate::specs::Recording::read_given, crate::specs::Recording::refused_read))]
fn read_given(was: ReaderState, a: Result<Reading, Refusal>) -> ReadAnswer
    ensures { result ≡ read_given was a }
{
    match a {
        Err(refusal) => refused_read(refusal.number(), was),
        Ok(Reading::More { taken, state }) => ReadAnswer {
            refused: 0,
            complete: false,
            taken,
            state: ReaderState::from(state),
        },
        Ok(Reading::Line { taken, state }) => ReadAnswer {
            refused: 0,
            complete: true,
            taken,
            state: ReaderState::from(state),
        },
    }
}

// Inner. Refuses a record whose flag is neither 0 nor 1: with 12, after 1 and 13.
#[tactic(auto, using(refusals::proofs::Numbers::refused_first, refusals::proofs::Numbers::passed_first), unfolding(crate::specs::Recording::flag_refusal))]
fn impossible_flag(format: u8, setting: u8) -> Result<(), Refusal>
    ensures { answer_number result ≡ flag_refusal format setting }
{
    format_refusal(format)?;
    setting_refusal(setting)?;
    Err(Refusal::State)
}

// Reads on from a record, at a setting, until a line is complete or the piece is used up; refused with 1, 13, 12, 2.
#[tactic(auto, unfolding(crate::specs::Recording::read_of, crate::specs::Recording::line_left))]
pub fn hansobrik_read(
    format: u8,
    setting: u8,
    state: ReaderState,
    piece: &[u8],
    line: &mut [u8],
) -> ReadAnswer
    ensures { (result ≡ read_of format setting state piece.now line.old) × (line.new ≡ line_left format setting state piece.now line.old) }
{
    if state.in_line > 1 {
        return refused_read(number_in(impossible_flag(format, setting)), state);
    }
    read_given(
        state,
        reader::read(format, setting, State::from(state), piece, line),
    )
}

// One plain line on the wire at the front of out, and how many bytes it takes; refused with 1, 2, 3.
pub fn hansobrik_write_line(format: u8, line: &[u8], out: &mut [u8]) -> CountAnswer
    ensures { (result ≡ written_given (write_line_answer format line.now out.old)) × (out.new ≡ write_line_left format line.now out.old) }
{
    CountAnswer::from(writer::write_line(format, line, out))
}
