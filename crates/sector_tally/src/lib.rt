// The tally of a sector over one line: its check is divided once.
//
// The contracts cite `specs/Report.antt` of `report_record`, what a report is, and `specs/Tallied.antt`, a sector in one line by its
// answer.
//
// All functions here are inner: they ask for a buffer that holds the line.
#![tactic(auto)]

ghost use Rattle.std.specs.Prelude.{◌≡◌, [], ◌∷◌, ◌⊎◌, ◌≤◌, length};
ghost use Rattle.formats.specs.Formats.{line_bytes};
ghost use Rattle.bits.specs.Bits.{bits_of};
ghost use Rattle.refusals.specs.Refusals.{answer_number};
ghost use Rattle.report_record.specs.Report.{tally_of};
ghost use Rattle.sector_tally.specs.Tallied.{one_tally};

use refusals::Refusal;
use report_record::Tally;
use sector_check::answer;
use sector_table::layout::layout_of;
use sectors::check::count_filler;

// Inner. A tally of these counts.
fn counted(accepted: u64, remainder: u64, id: u64, filler: u64) -> Tally
    ensures { result ≡ record { accepted = accepted; remainder = remainder; id = id; filler = filler } }
{
    Tally {
        accepted,
        remainder,
        id,
        filler,
    }
}

// Inner. A sector in one line, by its answer, which refuses with 5 or 6 or not, and its filler bits that are set, which count
// whatever the answer is.
#[tactic(auto, unfolding(refusals::specs::Refusals::when))]
fn tally(answer: Result<(), Refusal>, filler: u64) -> Tally
    requires { (answer_number answer ≡ 0) ⊎ (answer_number answer ≡ 5) ⊎ (answer_number answer ≡ 6) }
    ensures { result ≡ one_tally (answer_number answer) filler }
{
    match answer {
        Ok(()) => counted(1, 0, 0, filler),
        Err(Refusal::Remainder) => counted(0, 1, 0, filler),
        Err(_) => counted(0, 0, 1, filler),
    }
}

// Inner. The tally of a sector over one line: its check is divided once.
#[tactic(auto, using(crate::proofs::Told::answer_three, crate::proofs::Told::tally_one))]
pub fn line_tally(start: u16, sector: u8, line: &[u8]) -> Tally
    requires { (1 ≤ sector) × (sector ≤ 12) × (line_bytes ≤ length line.now) }
    ensures { result ≡ tally_of start sector (bits_of line.now ∷ []) }
{
    let l = layout_of(sector);
    tally(answer(start, l, line), count_filler(l, line) as u64)
}
