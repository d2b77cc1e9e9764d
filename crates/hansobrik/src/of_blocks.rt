// The calls of `rack_blocks` for C.
ghost use Rattle.std.specs.Prelude.{◌≡◌};
ghost use Rattle.blocks.specs.Record.{fresh_assembly};
ghost use Rattle.segments.specs.Assembly.{add_segment_answer, add_segment_left};
ghost use Rattle.entries.specs.Entries.{revision_answer};
ghost use Rattle.rack_blocks.specs.Assembly.{assembly_of, record_of, add_given, revision_given};

use rack_blocks::{AddAnswer, AssemblyRecord, RevisionAnswer};

#[unsafe(no_mangle)]
pub extern "C" fn hansobrik_fresh_assembly() -> AssemblyRecord
    ensures { result ≡ record_of fresh_assembly }
{
    rack_blocks::hansobrik_fresh_assembly()
}

#[unsafe(no_mangle)]
pub extern "C" fn hansobrik_add_segment(
    format: u8,
    assembly: AssemblyRecord,
    line: &[u8],
    number: u8,
    block: &mut [u8],
) -> AddAnswer
    ensures { (result ≡ add_given assembly (add_segment_answer format (assembly_of assembly) line.now number block.old)) × (block.new ≡ add_segment_left format (assembly_of assembly) line.now number block.old) }
{
    rack_blocks::hansobrik_add_segment(format, assembly, line, number, block)
}

#[unsafe(no_mangle)]
pub extern "C" fn hansobrik_revision(
    format: u8,
    assembly: AssemblyRecord,
    number: u8,
    block: &[u8],
) -> RevisionAnswer
    ensures { result ≡ revision_given (revision_answer format (assembly_of assembly) number block.now) }
{
    rack_blocks::hansobrik_revision(format, assembly, number, block)
}
