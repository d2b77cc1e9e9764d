// What every call on one sector tests before it looks at it: format, number, and the length of the line's buffer.
ghost use Rattle.std.specs.Prelude.{◌≡◌};
ghost use Rattle.refusals.specs.Refusals.{answer_number};
ghost use Rattle.sector_table.specs.Asked.{asked_of, line_refusal};

use formats::{Format, format_refusal};
use refusals::{Refusal, enough, within};

// Inner. Refuses, with 1, where the format is none of 1, 2, 3, then with 4 where the number is not one from lo to hi.
#[tactic(auto, using(refusals::proofs::Numbers::refused_first, refusals::proofs::Numbers::passed_first), unfolding(crate::specs::Asked::asked_of))]
pub fn asked(format: u8, lo: u8, hi: u8, n: u8) -> Result<(), Refusal>
    ensures { answer_number result ≡ asked_of format lo hi n }
{
    format_refusal(format)?;
    within(lo as u64, hi as u64, n as u64, Refusal::Number)
}

// Inner. Refuses, with 1, then 4, then 2 where the line's buffer is under 44,356 bytes.
#[tactic(auto, using(refusals::proofs::Numbers::refused_first, refusals::proofs::Numbers::passed_first), unfolding(crate::specs::Asked::line_refusal))]
pub fn line_refusal(format: u8, lo: u8, hi: u8, n: u8, given: usize) -> Result<(), Refusal>
    ensures { answer_number result ≡ line_refusal format lo hi n given }
{
    asked(format, lo, hi, n)?;
    enough(given, Format::LINE_BYTES, Refusal::ShortInput)
}
