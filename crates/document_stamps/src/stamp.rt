// The stamp of a line, as the crate `stamps` keeps it.
ghost use Rattle.std.specs.Prelude.{◌≡◌, ◌++◌, ◌≤◌, length, drop};
ghost use Rattle.formats.specs.Formats.{line_bytes};
ghost use Rattle.document_stamps.specs.Stamps.{stamp_of};

use octets::copy;

// Inner. The ten bytes of a line's stamp put at the front of a slice: sector bytes 11 and 12, then 20 to 27. What lies behind
// them is kept. The bytes are taken as they are, whatever they say.
#[tactic(auto, using(crate::proofs::Stamped::two_copies, crate::proofs::Stamped::count_length), unfolding(crate::specs::Stamps::stamp_of, sector_table::specs::Place::doc_part))]
pub fn stamp_of(line: &[u8], out: &mut [u8])
    requires { (line_bytes ≤ length line.now) × (10 ≤ length out.old) }
    ensures { out.new ≡ stamp_of line.now ++ drop 10 out.old }
{
    copy(line, 10, 2, out, 0);
    copy(line, 19, 8, out, 2);
}
