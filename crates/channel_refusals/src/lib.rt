// What refuses the joined pixels of a channel of a plain line. The call is in `channels`.
//
// The contract cites `specs/Refusing.antt`, over what a sector of a line says (`specs/Sector.antt` of `sector_check`). The function is
// inner.
#![tactic(auto)]

ghost use Rattle.std.specs.Prelude.{◌≡◌};
ghost use Rattle.refusals.specs.Refusals.{answer_number};
ghost use Rattle.channel_refusals.specs.Refusing.{joined_answer};

use formats::check_start;
use pixel_refusals::values_refusal;
use refusals::Refusal;
use sector_check::answer;
use sector_table::asked::line_refusal;
use sector_table::layout::layout_of;

// Inner. Refuses the joined pixels of a channel, with 1, 4, 2, 3, then the upper sector's 5 and 6, then the lower one's.
#[tactic(auto, using(refusals::proofs::Numbers::refused_first, refusals::proofs::Numbers::passed_first), unfolding(crate::specs::Refusing::joined_answer))]
pub fn joined_refusal(format: u8, line: &[u8], channel: u8, given: usize) -> Result<(), Refusal>
    ensures { answer_number result ≡ joined_answer format line.now channel given }
{
    line_refusal(format, 1, 3, channel, line.len())?;
    let upper = layout_of(channel + 1);
    values_refusal(check_start(format), upper, line, given, upper.count)?;
    answer(check_start(format), layout_of(channel + 8), line)
}
