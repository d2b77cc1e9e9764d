// The revision of the operator's tables that a finished block holds.
ghost use Rattle.std.specs.Prelude.{◌≡◌};
ghost use Rattle.entries.specs.Entries.{RevisionOk};

use crate::entry::entry_asked;
use blocks::assembly::{Assembly, revision_of};
use blocks::block::{CALIBRATION_2, MANAM};
use refusals::{Refusal, within};

// The revision of a finished block: the MANAM revision of MANAM, the calibration table ID of a calibration block. All its
// segments came from lines that carry this number. Refused with 1, 12, 4, 2, 9; 4 for mapping and orbit too, which go by none.
#[tactic(auto, using(refusals::proofs::Numbers::answers_err, refusals::proofs::Numbers::answers_ok))]
pub fn revision(format: u8, assembly: Assembly, number: u8, block: &[u8]) -> Result<u16, Refusal>
    ensures { RevisionOk format assembly number block.now result }
{
    let served = within(
        MANAM as u64,
        CALIBRATION_2 as u64,
        number as u64,
        Refusal::Number,
    );
    entry_asked(format, assembly.marks, number, served, Ok(()), block.len())?;
    Ok(revision_of(number, assembly.revisions))
}
