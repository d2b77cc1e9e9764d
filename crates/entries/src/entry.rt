// What every entry of a finished block tests, and the numbers at a place of it. Places count bytes from 1.
ghost use Rattle.std.specs.Prelude.{◌≡◌, false, ◌+◌, ◌-◌, ◌≤◌, length};
ghost use Rattle.bits.specs.Bits.{stretch};
ghost use Rattle.refusals.specs.Refusals.{answer_number};
ghost use Rattle.numbers.specs.Reals.{no_real, real_in};
ghost use Rattle.floats.specs.Floats.{value_of};
ghost use Rattle.entries.specs.Entries.{entry_refusal};

use blocks::block::{block_of, block_refusal};
use blocks::marks::{Marks, marks_refusal, unfinished_refusal};
use formats::format_refusal;
use numbers::{R, read_real};
use refusals::{Refusal, enough, first, number_in, short};

// Inner. Refuses an entry of a block, with 1, 12, 4, 10, 2 where its buffer is under its size, 9 where not all its segments
// are marked. What the call itself says of its channel, by 4, and of its level or grid point, by 10, is handed in.
#[tactic(auto, using(refusals::proofs::Numbers::refused_first, refusals::proofs::Numbers::passed_first), unfolding(crate::specs::Entries::entry_refusal))]
pub fn entry_asked(
    format: u8,
    marks: Marks,
    number: u8,
    channel: Result<(), Refusal>,
    range: Result<(), Refusal>,
    given: usize,
) -> Result<(), Refusal>
    ensures { answer_number result ≡ entry_refusal format marks number (answer_number channel) (answer_number range) given }
{
    format_refusal(format)?;
    marks_refusal(marks)?;
    block_refusal(format, number)?;
    channel?;
    range?;
    enough(given, block_of(number).size, Refusal::ShortInput)?;
    unfinished_refusal(marks)
}

// Inner. The same by numbers, for a caller that holds numbers: what refuses an entry; else 0. What the call itself says of its
// channel, 4 or 0, and of its level or grid point, 10 or 0, is handed in; any other number is taken too.
pub fn entry_refusal(
    format: u8,
    marks: Marks,
    number: u8,
    channel: u8,
    range: u8,
    given: usize,
) -> u8
    ensures { result ≡ entry_refusal format marks number channel range given }
{
    let known = number_in(format_refusal(format));
    let asked = first(known, number_in(marks_refusal(marks)));
    let block = number_in(block_refusal(format, number));
    let named = first(first(block, channel), range);
    let needed = block_of(number).size;
    let long = short(given, needed, Refusal::ShortInput.number());
    let whole = first(long, number_in(unfinished_refusal(marks)));
    first(asked, first(named, whole))
}

// Inner. The R*n.m number at a place.
pub fn real_at(block: &[u8], place: usize, n: usize, m: u8) -> R
    requires { (1 ≤ place) × (place + n ≤ length block.now + 1) × (no_real n m ≡ false) }
    ensures { result ≡ real_in n m (stretch block.now (place - 1) n) }
{
    let at = place - 1;
    let end = at + n;
    read_real(&block[at..end], n, m).unwrap()
}

// Inner. The same in f64.
#[tactic(auto, using(floats::proofs::Fitting::real_fits))]
pub fn float_at(block: &[u8], place: usize, n: usize, m: u8) -> f64
    requires { (1 ≤ place) × (place + n ≤ length block.now + 1) × (no_real n m ≡ false) }
    ensures { result ≡ value_of (real_in n m (stretch block.now (place - 1) n)) }
{
    floats::value(real_at(block, place, n, m))
}
