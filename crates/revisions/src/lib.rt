// The revisions of the operator's tables: which one a line carries, whether it is foreign to an assembly, and which one the
// assembly remembers from then on.
//
// The contracts cite `specs/Carried.antt`, over the record of an assembly in `blocks`. All functions here are inner: `copies`
// and `segments` ask them once a line carries a segment.
#![tactic(auto)]

ghost use Rattle.std.specs.Prelude.{◌≡◌, ◌≤◌, length};
ghost use Rattle.refusals.specs.Refusals.{answer_number};
ghost use Rattle.formats.specs.Formats.{line_bytes};
ghost use Rattle.revisions.specs.Carried.{revisions_in, foreign_refusal, remembered as Carried·remembered};

use blocks::assembly::{Assembly, Revisions, revision_of};
use octets::integer_at;
use refusals::Refusal;

// Inner. The numbers of a line: calibration table ID, sector bytes 28-29, and MANAM revision, 30-31. Both are I*2.
#[tactic(auto, unfolding(crate::specs::Carried::revisions_in, sector_table::specs::Place::doc_part))]
pub fn revisions_in(line: &[u8]) -> Revisions
    requires { line_bytes ≤ length line.now }
    ensures { result ≡ revisions_in line.now }
{
    Revisions {
        calibration: integer_at(line, 28),
        manam: integer_at(line, 30),
    }
}

// Inner. Refuses, with 14, where a segment is stored and the line goes by another number for the block than the assembly does.
#[tactic(auto, unfolding(crate::specs::Carried::foreign_refusal, crate::specs::Carried::foreign, blocks::specs::Record::started, refusals::specs::Refusals::when))]
pub fn foreign_refusal(number: u8, assembly: Assembly, carried: Revisions) -> Result<(), Refusal>
    ensures { answer_number result ≡ foreign_refusal number assembly carried }
{
    let stored = assembly.marks.segments;
    let own = revision_of(number, assembly.revisions);
    let other = revision_of(number, carried);
    if stored == 0 || own == other {
        Ok(())
    } else {
        Err(Refusal::Revision)
    }
}

// Inner. The numbers that an assembly remembers once a line's segment is taken: those of its first segment.
#[tactic(auto, unfolding(crate::specs::Carried::remembered, blocks::specs::Record::started))]
pub fn remembered(assembly: Assembly, carried: Revisions) -> Revisions
    ensures { result ≡ Carried·remembered assembly carried }
{
    let first = assembly.revisions;
    if assembly.marks.segments == 0 {
        carried
    } else {
        first
    }
}
