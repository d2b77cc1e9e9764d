// The segments of a block, as the lines bring them, in any order and each as often as it comes, put into an assembly.
//
// The contracts cite `specs/Assembly.antt`: `AddSegmentOk` gives the number of the refusal and the values of the answer,
// `add_segment_left` every lent byte, for every input; refusals stand in the paper's order. What one copy of a segment is tested for,
// and how it is stored, is in `copies`. That a finished block is its segments, whatever order they came in, and of one revision of
// the tables, is in `assemblies`.
//
// No public function has a `requires`. A buffer may be longer than its block.
#![tactic(auto)]

ghost use Rattle.std.specs.Prelude.{◌≡◌};
ghost use Rattle.refusals.specs.Refusals.{answer_number};
ghost use Rattle.blocks.specs.Blocks.{block_of};
ghost use Rattle.copies.specs.Copies.{Placeable};
ghost use Rattle.segments.specs.Assembly.{place_answer, place_left, lent_refusal, CarriedOk, AddSegmentOk, add_segment_left};

use blocks::assembly::Assembly;
use blocks::block::{block_of, block_refusal};
use blocks::marks::{Marks, is_marked, marks_refusal, with_mark};
use copies::{place_refusal, store};
use document::segments::{SubCommutation, sub_commutation};
use formats::{Format, format_refusal};
use refusals::{Refusal, enough};
use revisions::{remembered, revisions_in};

// What became of a line: the record of the assembly from now on, the segment that the line carried, and whether it was
// the first copy, which was stored, or a later one equal to it. Refused, the assembly goes on with the record that it had.
#[derive(Clone, Copy, Debug, PartialEq, Eq)]
pub struct Placed {
    pub assembly: Assembly,
    pub segment: u8,
    pub first_copy: bool,
}

// Inner. A segment in its place: stored and marked where it is new, and the revisions remembered.
fn place(
    number: u8,
    assembly: Assembly,
    line: &[u8],
    segment: u8,
    block: &mut [u8],
) -> Result<Placed, Refusal>
    requires { Placeable (block_of number) line.now segment block.old }
    ensures { (result ≡ place_answer number assembly line.now segment block.old) × (block.new ≡ place_left number assembly line.now segment block.old) }
{
    let carried = revisions_in(line);
    place_refusal(number, assembly, carried, line, segment, block)?;
    let revisions = remembered(assembly, carried);
    let marks = assembly.marks;
    if is_marked(marks, segment) {
        return Ok(Placed {
            assembly: Assembly { marks, revisions },
            segment,
            first_copy: false,
        });
    }
    store(line, block_of(number), segment, block);
    Ok(Placed {
        assembly: Assembly {
            marks: with_mark(marks, segment),
            revisions,
        },
        segment,
        first_copy: true,
    })
}

// What refuses a line by what is lent with it: 1, 12, 4, 2.
#[tactic(auto, using(refusals::proofs::Numbers::refused_first, refusals::proofs::Numbers::passed_first), unfolding(crate::specs::Assembly::lent_refusal))]
fn lent_refusal(
    format: u8,
    marks: Marks,
    number: u8,
    length: usize,
    given: usize,
) -> Result<(), Refusal>
    ensures { answer_number result ≡ lent_refusal format marks number length given }
{
    format_refusal(format)?;
    marks_refusal(marks)?;
    block_refusal(format, number)?;
    enough(length, Format::LINE_BYTES, Refusal::ShortInput)?;
    enough(given, block_of(number).size, Refusal::ShortInput)
}

// Which segment a line carries, or what refuses it: 1, 12, 4, 2, 5, 6, 7.
#[tactic(auto, using(refusals::proofs::Numbers::refused_first, refusals::proofs::Numbers::answers_err), unfolding(crate::specs::Assembly::carried_refusal))]
fn carried(
    format: u8,
    marks: Marks,
    line: &[u8],
    number: u8,
    given: usize,
) -> Result<SubCommutation, Refusal>
    ensures { CarriedOk format marks line.now number given result }
{
    lent_refusal(format, marks, number, line.len(), given)?;
    sub_commutation(format, line)
}

// The segment of a block that a line carries, added to the assembly of record and block buffer. A first copy is stored at
// segment times a 25th of the size, and marked; an equal later copy changes nothing. The first segment taken gives the record
// its revisions, and from then on a line of another one is refused with 14, until a new assembly is begun. Refused with 1, 12, 4,
// 2, 5, 6, 7, 14, 8, and then the block stays as it was. Bytes behind the block's size are kept.
pub fn add_segment(
    format: u8,
    assembly: Assembly,
    line: &[u8],
    number: u8,
    block: &mut [u8],
) -> Result<Placed, Refusal>
    ensures { AddSegmentOk format assembly line.now number block.old result × (block.new ≡ add_segment_left format assembly line.now number block.old) }
{
    let carried = carried(format, assembly.marks, line, number, block.len())?;
    place(number, assembly, line, carried.segment, block)
}
