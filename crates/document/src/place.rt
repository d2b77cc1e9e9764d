// Where the bytes of the documentation sector lie, and what refuses every call that reads them.
ghost use Rattle.std.specs.Prelude.{◌≡◌, ◌≤◌, length};
ghost use Rattle.formats.specs.Formats.{line_bytes};
ghost use Rattle.refusals.specs.Refusals.{answer_number};
ghost use Rattle.document.specs.Place.{doc_refusal};
ghost use Rattle.sector_table.specs.Place.{doc_bytes, doc_byte};

use refusals::Refusal;
use sectors::check::accepted;

// ID and data of the documentation sector end here.
pub const DOC_BYTES: usize = 2293;

// Inner. The byte at a place from 1 to 2,293.
#[tactic(auto, unfolding(sector_table::specs::Place::doc_byte))]
pub fn doc_byte(line: &[u8], place: usize) -> u8
    requires { (1 ≤ place) × (place ≤ doc_bytes) × (line_bytes ≤ length line.now) }
    ensures { result ≡ doc_byte line.now place }
{
    line[place - 1]
}

// Inner. Refuses, with 1, then with 2 where the line's buffer is under 44,356 bytes, then with 5 or 6 where sector 1 is not accepted.
#[tactic(auto, unfolding(crate::specs::Place::doc_refusal))]
pub fn doc_refusal(format: u8, line: &[u8]) -> Result<(), Refusal>
    ensures { answer_number result ≡ doc_refusal format line.now }
{
    accepted(format, line, 1)
}
