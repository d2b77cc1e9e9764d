// The points of the mapping grid: 25 rows and 25 columns, five degrees apart. What a point is stands in `grid_points`.
ghost use Rattle.std.specs.Prelude.{◌≡◌};
ghost use Rattle.entries.specs.Entries.{MappingOk};

use crate::entry::entry_asked;
use blocks::assembly::Assembly;
use blocks::block::MAPPING;
use grid_points::{Grid, grid_at};
use refusals::{Refusal, within};

// Rows and columns run from 0 to this.
const LAST: u64 = 24;

// The point of a row and a column, each 0 to 24, of a finished mapping block. Refused with 1, 12, 10, 2, 9.
#[tactic(auto, using(refusals::proofs::Numbers::answers_err, refusals::proofs::Numbers::answers_ok, refusals::proofs::Numbers::and_first, crate::proofs::Known::point_known), unfolding(crate::specs::Entries::grid_refusal))]
pub fn mapping(
    format: u8,
    assembly: Assembly,
    block: &[u8],
    row: u16,
    column: u16,
) -> Result<Grid, Refusal>
    ensures { MappingOk format assembly.marks block.now row column result }
{
    let rows = within(0, LAST, row as u64, Refusal::Range);
    let columns = within(0, LAST, column as u64, Refusal::Range);
    let range = rows.and(columns);
    entry_asked(format, assembly.marks, MAPPING, Ok(()), range, block.len())?;
    Ok(grid_at(format, block, row, column))
}
