// The record that a reader keeps between calls, by value: the fresh one, those that a call makes, and which are possible.
//
// The contracts cite `specs/Records.antt`. `fresh` asks nothing of its caller, and no other function does but `fits`, which is
// inner.
#![tactic(auto)]

ghost use Rattle.std.specs.Prelude.{◌≡◌, not, ◌≤◌, ◌^◌, ltb};
ghost use Rattle.refusals.specs.Refusals.{when, answer_number};
ghost use Rattle.reader_record.specs.Records.{between_of, inside_of, fresh_state, counts_of, possible_of};

use formats::Format;
use refusals::Refusal;

// What a reader keeps between calls. In a line: the position of the next line bit, the scrambling register before it, and
// the line bits that wait for their byte. Between lines: the last bits since the search began, fewer than the tail has,
// and the unread bits of the last byte. A bit field holds its bits as a number, the last bit lowest; a field that has no
// meaning is 0.
#[derive(Clone, Copy, Debug, PartialEq, Eq)]
pub struct State {
    pub in_line: bool,
    pub position: usize,
    pub search: u64,
    pub search_count: u8,
    pub register: u16,
    pub unread: u8,
    pub unread_count: u8,
    pub waiting: u8,
    pub waiting_count: u8,
}

// The record of a reader before a recording's first bit.
pub fn fresh() -> State
    ensures { result ≡ fresh_state }
{
    between(0, 0, 0, 0)
}

// Inner. The record between lines, with the count and value of the remembered bits and of the unread ones.
pub fn between(searched: u8, search: u64, left: u8, unread: u8) -> State
    ensures { result ≡ between_of searched search left unread }
{
    State {
        in_line: false,
        position: 0,
        search,
        search_count: searched,
        register: 0,
        unread,
        unread_count: left,
        waiting: 0,
        waiting_count: 0,
    }
}

// Inner. The record in a line.
pub fn inside(position: usize, register: u16, waiting: u8) -> State
    ensures { result ≡ inside_of position register waiting }
{
    State {
        in_line: true,
        position,
        search: 0,
        search_count: 0,
        register,
        unread: 0,
        unread_count: 0,
        waiting,
        waiting_count: (position % 8) as u8,
    }
}

// Inner. Whether a bit field is not too large for its count.
fn fits(value: u64, count: u8) -> bool
    requires { count ≤ 63 }
    ensures { result ≡ ltb value (2 ^ count) }
{
    (value >> count) == 0
}

// Inner. Whether the waiting bits are the position modulo 8 and nothing is unread, inside a line; between lines, whether nothing
// waits.
#[tactic(auto, unfolding(crate::specs::Records::counts_of))]
fn counts(s: State) -> bool
    ensures { result ≡ counts_of s }
{
    if s.in_line {
        s.waiting_count as usize == s.position % 8 && s.unread_count == 0
    } else {
        s.waiting_count == 0
    }
}

// Inner. Whether the record is possible: refusal 12 is given exactly where it is not.
#[tactic(auto, using(crate::proofs::Checked::counts_seven), unfolding(crate::specs::Records::possible_of))]
fn possible(s: State) -> bool
    ensures { result ≡ possible_of s }
{
    s.position < Format::INFORMATION_BITS
        && s.search_count <= 63
        && s.register <= scramble::FIFTEEN_ONES
        && s.unread_count <= 7
        && fits(s.search, s.search_count)
        && fits(s.unread as u64, s.unread_count)
        && counts(s)
        && fits(s.waiting as u64, s.waiting_count)
}

// Inner. Refuses, with 12, an impossible record.
#[tactic(auto, unfolding(refusals::specs::Refusals::when))]
pub fn impossible(s: State) -> Result<(), Refusal>
    ensures { answer_number result ≡ when (not (possible_of s)) 12 }
{
    if possible(s) {
        Ok(())
    } else {
        Err(Refusal::State)
    }
}
