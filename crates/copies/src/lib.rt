// A copy of a segment, as a line brings it: its bytes compared with those that are stored, or stored, and what refuses it by what the
// assembly holds. The call itself, which refuses what this asks of its caller, is in `segments`.
//
// The contracts cite `specs/Copies.antt`. All functions are inner.
#![tactic(auto)]

ghost use Rattle.std.specs.Prelude.{◌≡◌};
ghost use Rattle.refusals.specs.Refusals.{answer_number};
ghost use Rattle.blocks.specs.Blocks.{block_of};
ghost use Rattle.copies.specs.Copies.{Placeable, differs_refusal, stored_of, place_refusal};

use blocks::assembly::{Assembly, Revisions};
use blocks::block::{Block, SEGMENTS, block_of};
use blocks::marks::is_marked;
use octets::{copy, same};
use refusals::Refusal;
use revisions::foreign_refusal;

// Inner. Refuses, with 8, where the bytes that a line has for a segment are not the stored ones.
#[tactic(auto, unfolding(crate::specs::Copies::differs_refusal, crate::specs::Copies::differs, crate::specs::Copies::segment_of, refusals::specs::Refusals::when))]
fn differs_refusal(line: &[u8], b: Block, segment: u8, block: &[u8]) -> Result<(), Refusal>
    requires { Placeable b line.now segment block.now }
    ensures { answer_number result ≡ differs_refusal b line.now segment block.now }
{
    let n = b.size / SEGMENTS;
    let from = b.first - 1;
    let at = segment as usize * n;
    if same(line, from, block, at, n) {
        Ok(())
    } else {
        Err(Refusal::Segment)
    }
}

// Inner. The bytes that a line has for a segment, stored in its place.
#[tactic(auto, unfolding(crate::specs::Copies::stored_of, crate::specs::Copies::segment_of))]
pub fn store(line: &[u8], b: Block, segment: u8, block: &mut [u8])
    requires { Placeable b line.now segment block.old }
    ensures { block.new ≡ stored_of b line.now segment block.old }
{
    let n = b.size / SEGMENTS;
    let from = b.first - 1;
    let to = segment as usize * n;
    copy(line, from, n, block, to);
}

// Inner. What refuses a segment by what the assembly holds: 14 where the line is of a foreign revision, also where the segment is
// stored already; then 8 where it is stored and differs.
#[tactic(auto, using(refusals::proofs::Numbers::refused_first, refusals::proofs::Numbers::passed_first), unfolding(crate::specs::Copies::place_refusal, crate::specs::Copies::copy_refusal, crate::specs::Copies::differs_refusal, refusals::specs::Refusals::when))]
pub fn place_refusal(
    number: u8,
    assembly: Assembly,
    carried: Revisions,
    line: &[u8],
    segment: u8,
    block: &[u8],
) -> Result<(), Refusal>
    requires { Placeable (block_of number) line.now segment block.now }
    ensures { answer_number result ≡ place_refusal number assembly carried line.now segment block.now }
{
    foreign_refusal(number, assembly, carried)?;
    if !is_marked(assembly.marks, segment) {
        return Ok(());
    }
    differs_refusal(line, block_of(number), segment, block)
}
