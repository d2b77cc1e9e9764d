// Blocks put together out of segments, for C and Rust: the record of an assembly, a segment added, and the revision of a finished
// block. Each function hands its numbers and slices on to the call of the same name in `blocks`, `segments` or `entries` and lays
// that call's answer out as one struct of numbers: `refused` is 0 or the number of the refusal, and a refused answer has 0 in every
// other field. The record crosses as a struct of its own, and comes back as it was handed in where a call is refused. The entries
// of a finished block are in `rack_entries`.
//
// Structs with a number beside values, and the number 0 for no refusal, are the C interface.
//
// The contracts cite `specs/Assembly.antt`, over the definitions of the calls themselves. No function has a `requires`: nothing
// checks a caller in C.
//
// A slice crosses as a pointer and a count; slices that are lent to one call must not overlap.
#![tactic(auto)]

ghost use Rattle.std.specs.Prelude.{◌≡◌};
ghost use Rattle.blocks.specs.Record.{fresh_assembly};
ghost use Rattle.segments.specs.Assembly.{add_segment_answer, add_segment_left};
ghost use Rattle.entries.specs.Entries.{revision_answer};
ghost use Rattle.rack_blocks.specs.Assembly.{assembly_of, record_of, add_given, revision_given};

use blocks::assembly::{Assembly, Revisions};
use blocks::marks::Marks;
use refusals::Refusal;
use segments::Placed;

// What an assembly keeps between calls, without gaps and in widths that no machine changes, since a caller may store it: bit s of
// `marks` is set once segment s is stored; calibration table ID and MANAM revision are those of the line that brought the first.
#[repr(C)]
#[derive(Clone, Copy)]
pub struct AssemblyRecord {
    pub marks: u32,
    pub calibration: u16,
    pub manam: u16,
}

// A segment added: the segment, whether this was its first copy, and the record for the next call, which is the one handed in
// where the call is refused.
#[repr(C)]
#[derive(Clone, Copy)]
pub struct AddAnswer {
    pub refused: u8,
    pub first_copy: bool,
    pub segment: u8,
    pub assembly: AssemblyRecord,
}

// The revision of a finished block.
#[repr(C)]
#[derive(Clone, Copy)]
pub struct RevisionAnswer {
    pub refused: u8,
    pub revision: u16,
}

// A record as the calls take it.
impl From<AssemblyRecord> for Assembly {
    ghost from_gives = { λ a assembly. assembly ≡ assembly_of a };

    fn from(a: AssemblyRecord) -> Self {
        Self {
            marks: Marks { segments: a.marks },
            revisions: Revisions {
                calibration: a.calibration,
                manam: a.manam,
            },
        }
    }
}

// A record as it crosses the boundary.
impl From<Assembly> for AssemblyRecord {
    ghost from_gives = { λ a given. given ≡ record_of a };

    fn from(a: Assembly) -> Self {
        Self {
            marks: a.marks.segments,
            calibration: a.revisions.calibration,
            manam: a.revisions.manam,
        }
    }
}

// An assembly that has no segment yet: 0 in every field.
pub fn hansobrik_fresh_assembly() -> AssemblyRecord
    ensures { result ≡ record_of fresh_assembly }
{
    AssemblyRecord::from(blocks::assembly::fresh_assembly())
}

// Inner. A segment added, with the record that was handed in.
#[tactic(auto, unfolding(crate::specs::Assembly::add_given))]
fn add_given(was: AssemblyRecord, a: Result<Placed, Refusal>) -> AddAnswer
    ensures { result ≡ add_given was a }
{
    match a {
        Ok(placed) => AddAnswer {
            refused: 0,
            first_copy: placed.first_copy,
            segment: placed.segment,
            assembly: AssemblyRecord::from(placed.assembly),
        },
        Err(refusal) => AddAnswer {
            refused: refusal.number(),
            first_copy: false,
            segment: 0,
            assembly: was,
        },
    }
}

// The segment of a block that a line carries, added; refused with 1, 12, 4, 2, 5, 6, 7, 14, 8.
#[tactic(auto, using(segments::proofs::Settled::add_segment_is))]
pub fn hansobrik_add_segment(
    format: u8,
    assembly: AssemblyRecord,
    line: &[u8],
    number: u8,
    block: &mut [u8],
) -> AddAnswer
    ensures { (result ≡ add_given assembly (add_segment_answer format (assembly_of assembly) line.now number block.old)) × (block.new ≡ add_segment_left format (assembly_of assembly) line.now number block.old) }
{
    add_given(
        assembly,
        segments::add_segment(format, Assembly::from(assembly), line, number, block),
    )
}

// A revision as it crosses the boundary.
#[tactic(auto, unfolding(crate::specs::Assembly::revision_given))]
impl From<Result<u16, Refusal>> for RevisionAnswer {
    ghost from_gives = { λ a given. given ≡ revision_given a };

    fn from(a: Result<u16, Refusal>) -> Self {
        match a {
            Ok(revision) => Self {
                refused: 0,
                revision,
            },
            Err(refusal) => Self {
                refused: refusal.number(),
                revision: 0,
            },
        }
    }
}

// The revision of a finished MANAM or calibration block; refused with 1, 12, 4, 2, 9.
pub fn hansobrik_revision(
    format: u8,
    assembly: AssemblyRecord,
    number: u8,
    block: &[u8],
) -> RevisionAnswer
    ensures { result ≡ revision_given (revision_answer format (assembly_of assembly) number block.now) }
{
    RevisionAnswer::from(entries::revision::revision(
        format,
        Assembly::from(assembly),
        number,
        block,
    ))
}
