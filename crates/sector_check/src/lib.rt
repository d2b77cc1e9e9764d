// The sectors of a plain line that stands whole in a buffer: whether the check of one is that of its bits, and of all twelve. The
// calls are in `sectors`.
//
// The contracts cite `specs/Sector.antt`, what a sector of a line says, its filler, data and pixels too. All functions are marked
// "Inner.". A line's buffer may be longer than 44,356 bytes.
#![tactic(auto)]

ghost use Rattle.std.specs.Prelude.{◌≡◌, ◌≤◌, length, map};
ghost use Rattle.formats.specs.Formats.{line_bytes};
ghost use Rattle.bits.specs.Bits.{bits_of};
ghost use Rattle.refusals.specs.Refusals.{answer_number};
ghost use Rattle.sector_table.specs.Layout.{Sound};
ghost use Rattle.sector_check.specs.Sector.{answer_of, answers_of};

use refusals::Refusal;
use sector_table::layout::{CHECK_BITS, Layout, layout_of};

// Inner. Refuses, with 5, where the remainder of ID, data and check bits is not 0, then with 6 where the ID is not the sector's own.
#[tactic(auto, using(crate::proofs::Answers::answer_five, crate::proofs::Answers::answer_six, crate::proofs::Answers::answer_none), unfolding(crate::specs::Sector::covered_of, crate::specs::Sector::id_of, bits::specs::Bits::part))]
pub fn answer(start: u16, l: Layout, line: &[u8]) -> Result<(), Refusal>
    requires { Sound l × (line_bytes ≤ length line.now) }
    ensures { answer_number result ≡ answer_of start l (bits_of line.now) }
{
    if crc::remainder(start, line, l.start, l.id_bits + l.data_bits + CHECK_BITS) != 0 {
        return Err(Refusal::Remainder);
    }
    if slices::field(line, l.start, l.id_bits) != l.id {
        return Err(Refusal::Id);
    }
    Ok(())
}

// Inner. The answer of every sector from 1 to 12; each is divided once.
pub fn each_answer(start: u16, line: &[u8]) -> [Result<(), Refusal>; 12]
    requires { line_bytes ≤ length line.now }
    ensures { map answer_number result ≡ answers_of start (bits_of line.now) }
{
    let mut out = [Ok(()); 12];
    for i in 0..12 {
        out[i] = answer(start, layout_of(i as u8 + 1), line);
    }
    out
}
