// The sub-commutation bytes: which of the 25 segments of each block a line carries, and on which of its eight lines.
ghost use Rattle.std.specs.Prelude.{◌≡◌};
ghost use Rattle.refusals.specs.Refusals.{answer_number};
ghost use Rattle.document.specs.Segments.{segment_refusal, SubCommutationOk};

use crate::place::{doc_byte, doc_refusal};
use refusals::Refusal;

// What the sub-commutation bytes say: the segment from 0 to 24, and the repeat from 0 to 7.
#[derive(Clone, Copy, Debug, PartialEq, Eq)]
pub struct SubCommutation {
    pub segment: u8,
    pub repeat: u8,
}

// Refuses, with 7, where a byte that must be 0 is not, the segment is above 24 or the repeat above 7.
#[tactic(auto, unfolding(crate::specs::Segments::segment_refusal, refusals::specs::Refusals::when))]
fn segment_refusal(before: u8, segment: u8, between: u8, repeat: u8) -> Result<(), Refusal>
    ensures { answer_number result ≡ segment_refusal before segment between repeat }
{
    if before == 0 && segment <= 24 && between == 0 && repeat <= 7 {
        Ok(())
    } else {
        Err(Refusal::Field)
    }
}

// Segment and repeat of a line, sector bytes 193 to 196; refused with 1, 2, 5, 6, 7.
#[tactic(auto, using(refusals::proofs::Numbers::answers_err, refusals::proofs::Numbers::answers_ok, refusals::proofs::Numbers::refused_first, refusals::proofs::Numbers::passed_first, crate::proofs::Known::doc_long), unfolding(crate::specs::Segments::sub_commutation_refusal))]
pub fn sub_commutation(format: u8, line: &[u8]) -> Result<SubCommutation, Refusal>
    ensures { SubCommutationOk format line.now result }
{
    doc_refusal(format, line)?;
    let segment = doc_byte(line, 194);
    let repeat = doc_byte(line, 196);
    segment_refusal(doc_byte(line, 193), segment, doc_byte(line, 195), repeat)?;
    Ok(SubCommutation { segment, repeat })
}
