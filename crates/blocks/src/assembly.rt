// The record of an assembly: which segments have come, and of which revision of the operator's tables the first one was.
ghost use Rattle.std.specs.Prelude.{◌≡◌};
ghost use Rattle.blocks.specs.Record.{fresh_assembly, revision_of};

use crate::block::{CALIBRATION_1, CALIBRATION_2, MANAM};
use crate::marks::Marks;

// The numbers by which a documentation sector names its tables: the calibration table ID, sector bytes 28-29, and the MANAM
// revision, 30-31.
#[derive(Clone, Copy, Debug, PartialEq, Eq)]
pub struct Revisions {
    pub calibration: u16,
    pub manam: u16,
}

// What an assembly keeps between calls: its marks, and the numbers of the line that brought its first segment. While no segment
// is marked the numbers have no meaning.
#[derive(Clone, Copy, Debug, PartialEq, Eq)]
pub struct Assembly {
    pub marks: Marks,
    pub revisions: Revisions,
}

// An assembly that has no segment yet: 0 in every field.
pub fn fresh_assembly() -> Assembly
    ensures { result ≡ fresh_assembly }
{
    Assembly {
        marks: Marks { segments: 0 },
        revisions: Revisions {
            calibration: 0,
            manam: 0,
        },
    }
}

// Inner. The number that a block goes by: the MANAM revision for MANAM, the calibration table ID for both calibration blocks. The
// other blocks go by none, and have 0: with an `Option` the callers that know their block would have to open what cannot be `None`.
#[tactic(auto, using(crate::proofs::Rows::no_revision), unfolding(crate::specs::Record::revision_of))]
pub fn revision_of(number: u8, revisions: Revisions) -> u16
    ensures { result ≡ revision_of number revisions }
{
    match number {
        MANAM => revisions.manam,
        CALIBRATION_1 | CALIBRATION_2 => revisions.calibration,
        _ => 0,
    }
}
