// Whether a sector is accepted, and how many of its filler bits are set.
ghost use Rattle.std.specs.Prelude.{◌≡◌, ◌≤◌, length};
ghost use Rattle.formats.specs.Formats.{line_bytes};
ghost use Rattle.bits.specs.Bits.{bits_of};
ghost use Rattle.refusals.specs.Refusals.{answer_number};
ghost use Rattle.sector_table.specs.Layout.{Sound};
ghost use Rattle.sector_check.specs.Sector.{filler_of};
ghost use Rattle.sectors.specs.Calls.{accepted_answer, FillerOk, answers_refusal, AnswersOk};

use formats::{Format, check_start, format_refusal};
use refusals::{Refusal, enough};
use sector_check::{answer, each_answer};
use sector_table::asked::line_refusal;
use sector_table::layout::{CHECK_BITS, FILLER_BITS, Layout, layout_of};

// Inner. How many of the filler bits are set. They lie behind the check bits, at any bit of a byte.
pub fn count_filler(l: Layout, line: &[u8]) -> usize
    requires { Sound l × (line_bytes ≤ length line.now) }
    ensures { result ≡ filler_of l (bits_of line.now) }
{
    set_bits::count_set(
        line,
        l.start + l.id_bits + l.data_bits + CHECK_BITS,
        FILLER_BITS,
    )
}

// Whether a sector of a line is accepted; refused with 1, 4, 2, 5, 6.
#[tactic(auto, using(refusals::proofs::Numbers::refused_first, refusals::proofs::Numbers::passed_first), unfolding(crate::specs::Calls::accepted_answer))]
pub fn accepted(format: u8, line: &[u8], sector: u8) -> Result<(), Refusal>
    ensures { answer_number result ≡ accepted_answer format line.now sector }
{
    line_refusal(format, 1, 12, sector, line.len())?;
    answer(check_start(format), layout_of(sector), line)
}

// How many filler bits of a sector are set; refused with 1, 4, 2. A sector that is not accepted is counted too.
#[tactic(auto, using(refusals::proofs::Numbers::answers_err, refusals::proofs::Numbers::answers_ok), unfolding(crate::specs::Calls::filler_refusal))]
pub fn filler(format: u8, line: &[u8], sector: u8) -> Result<usize, Refusal>
    ensures { FillerOk format line.now sector result }
{
    line_refusal(format, 1, 12, sector, line.len())?;
    Ok(count_filler(layout_of(sector), line))
}

// Inner. Refuses the twelve answers, with 1, 2.
#[tactic(auto, using(refusals::proofs::Numbers::refused_first, refusals::proofs::Numbers::passed_first), unfolding(crate::specs::Calls::answers_refusal))]
fn answers_refusal(format: u8, given: usize) -> Result<(), Refusal>
    ensures { answer_number result ≡ answers_refusal format given }
{
    format_refusal(format)?;
    enough(given, Format::LINE_BYTES, Refusal::ShortInput)
}

// What `accepted` says of each of the twelve sectors of a line, that of sector n at n - 1, each divided once; refused with 1, 2. A
// sector that is not accepted refuses nothing: its own answer says 5 or 6.
#[tactic(auto, using(refusals::proofs::Numbers::answers_err, refusals::proofs::Numbers::answers_ok))]
pub fn answers(format: u8, line: &[u8]) -> Result<[Result<(), Refusal>; 12], Refusal>
    ensures { AnswersOk format line.now result }
{
    answers_refusal(format, line.len())?;
    Ok(each_answer(check_start(format), line))
}
