// The line desk with the reader, end to end. `specs/` has the area, the feeder's protocol and what a run of takes, reads, publishes
// and releases over one area is; `proofs/` shows what a holder reads:
//
//   Exchanged  demand 3 with a buffer chosen at each call between lines
//   EndToEnd   what a holder reads under serial n is the n-th line of the plain definition in the bytes fed, bit for bit
//   Seen       the same of the part that `seen` gives
//   Pixels     pixels joined from it are that line's
//   Standing   a line stands whole in its slot until a call finds a tail with that slot lent
//   Serving    in such a run nothing is refused that should not be
//   Feeds      every recording has such a run, to its last byte
//   Class      the same of the feeder's protocol over a recording in pieces
//
// The one function here is the feeder's read: a slot of the area lent to the reader.
#![tactic(auto)]

ghost use Rattle.std.specs.Prelude.{◌≡◌, ◌+◌, ◌*◌, ◌≤◌, length};
ghost use Rattle.reader.specs.Read.{read_answer};
ghost use Rattle.feeding.specs.Area.{slot_at, area_after};

use formats::Format;
use reader_line::Reading;
use reader_record::State;
use refusals::Refusal;

// Inner. `reader::read` with one slot of the area lent: its answer on the slot's bytes, and the area with what it left there. It asks
// for a slot inside the area.
pub fn read_slot(
    format: u8,
    setting: u8,
    state: State,
    piece: &[u8],
    area: &mut [u8],
    slot: usize,
) -> Result<Reading, Refusal>
    requires { slot * 44356 + 44356 ≤ length area.old }
    ensures { (result ≡ read_answer format setting state piece.now (slot_at slot area.old)) × (area.new ≡ area_after format setting state piece.now slot area.old) }
{
    let from = slot * Format::LINE_BYTES;
    let to = from + Format::LINE_BYTES;
    reader::read(format, setting, state, piece, &mut area[from..to])
}
