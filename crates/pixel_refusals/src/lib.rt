// What refuses the data and the pixels of a sector of a plain line. The calls are in `pixels`.
//
// The contracts cite `specs/Refusing.antt`, over what a sector of a line says (`specs/Sector.antt` of `sector_check`). All functions
// are marked "Inner.".
#![tactic(auto)]

ghost use Rattle.std.specs.Prelude.{◌≡◌, ◌≤◌, length};
ghost use Rattle.formats.specs.Formats.{line_bytes};
ghost use Rattle.bits.specs.Bits.{bits_of};
ghost use Rattle.refusals.specs.Refusals.{answer_number};
ghost use Rattle.sector_table.specs.Layout.{Sound};
ghost use Rattle.pixel_refusals.specs.Refusing.{values_refusal, data_answer, pixels_answer};

use formats::check_start;
use refusals::{Refusal, enough};
use sector_check::answer;
use sector_table::asked::line_refusal;
use sector_table::layout::{Layout, data_bytes, layout_of};

// Inner. Refuses, with 3, where the output is shorter than what is needed, then with 5 or 6 where the sector is not accepted.
#[tactic(auto, using(refusals::proofs::Numbers::refused_first, refusals::proofs::Numbers::passed_first), unfolding(crate::specs::Refusing::values_refusal))]
pub fn values_refusal(
    start: u16,
    l: Layout,
    line: &[u8],
    given: usize,
    needed: usize,
) -> Result<(), Refusal>
    requires { Sound l × (line_bytes ≤ length line.now) }
    ensures { answer_number result ≡ values_refusal start l (bits_of line.now) given needed }
{
    enough(given, needed, Refusal::ShortOutput)?;
    answer(start, l, line)
}

// Inner. What refuses the data of a sector: 1, 4, 2, 3, 5, 6.
#[tactic(auto, using(refusals::proofs::Numbers::refused_first, refusals::proofs::Numbers::passed_first), unfolding(crate::specs::Refusing::data_answer))]
pub fn data_refusal(format: u8, line: &[u8], sector: u8, given: usize) -> Result<(), Refusal>
    ensures { answer_number result ≡ data_answer format line.now sector given }
{
    line_refusal(format, 1, 12, sector, line.len())?;
    let l = layout_of(sector);
    values_refusal(check_start(format), l, line, given, data_bytes(l))
}

// Inner. What refuses the pixels of a sector from lo to hi: 1, 4, 2, 3, 5, 6.
#[tactic(auto, using(refusals::proofs::Numbers::refused_first, refusals::proofs::Numbers::passed_first), unfolding(crate::specs::Refusing::pixels_answer))]
pub fn pixels_refusal(
    format: u8,
    lo: u8,
    hi: u8,
    line: &[u8],
    sector: u8,
    given: usize,
) -> Result<(), Refusal>
    requires { (1 ≤ lo) × (hi ≤ 12) }
    ensures { answer_number result ≡ pixels_answer lo hi format line.now sector given }
{
    line_refusal(format, lo, hi, sector, line.len())?;
    let l = layout_of(sector);
    values_refusal(check_start(format), l, line, given, l.count)
}
