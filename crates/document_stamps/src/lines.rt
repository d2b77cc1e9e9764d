// The line numbers of the documentation sector: set line, reset line, scan count, and the line position.
ghost use Rattle.std.specs.Prelude.{◌≡◌, ◌≤◌, length};
ghost use Rattle.formats.specs.Formats.{line_bytes};
ghost use Rattle.refusals.specs.Refusals.{answer_number};
ghost use Rattle.document_stamps.specs.Lines.{counts_refusal, position_of, lines_in, LineNumbersOk};

use bcd_dates::decimals::{four_digits, part_refusal};
use document::place::doc_refusal;
use refusals::Refusal;

// Line numbers from 0 to 9,999; the position of the line in the picture lies from -9,999 to 9,999.
#[derive(Clone, Copy, Debug, PartialEq, Eq)]
pub struct LineNumbers {
    pub set_line: u16,
    pub reset_line: u16,
    pub scan_count: u16,
    pub position: i32,
}

// Refuses, with 7, where one of the three numbers has a digit over 9.
#[tactic(auto, using(refusals::proofs::Numbers::refused_first, refusals::proofs::Numbers::passed_first), unfolding(crate::specs::Lines::counts_refusal))]
fn counts_refusal(line: &[u8]) -> Result<(), Refusal>
    requires { line_bytes ≤ length line.now }
    ensures { answer_number result ≡ counts_refusal line.now }
{
    part_refusal(line, 6, 2, 0, 9999)?;
    part_refusal(line, 8, 2, 0, 9999)?;
    part_refusal(line, 10, 2, 0, 9999)
}

// Scan count minus set line.
#[tactic(auto, using(crate::proofs::Position::position_fits), unfolding(crate::specs::Lines::position_of))]
fn position_of(count: u16, set: u16) -> i32
    ensures { result ≡ position_of count set }
{
    i32::from(count) - i32::from(set)
}

// The three numbers and the position.
#[tactic(auto, unfolding(crate::specs::Lines::lines_in))]
fn lines_in(line: &[u8]) -> LineNumbers
    requires { line_bytes ≤ length line.now }
    ensures { result ≡ lines_in line.now }
{
    let set = four_digits(line, 6);
    let reset = four_digits(line, 8);
    let count = four_digits(line, 10);
    let position = position_of(count, set);
    LineNumbers {
        set_line: set,
        reset_line: reset,
        scan_count: count,
        position,
    }
}

// Set line, reset line and scan count, sector bytes 7 to 12, with the line position; refused with 1, 2, 5, 6, and 7 for a
// digit over 9 in these six bytes.
#[tactic(auto, using(refusals::proofs::Numbers::answers_err, refusals::proofs::Numbers::answers_ok, refusals::proofs::Numbers::refused_first, refusals::proofs::Numbers::passed_first, document::proofs::Known::doc_long), unfolding(crate::specs::Lines::line_numbers_refusal))]
pub fn line_numbers(format: u8, line: &[u8]) -> Result<LineNumbers, Refusal>
    ensures { LineNumbersOk format line.now result }
{
    doc_refusal(format, line)?;
    counts_refusal(line)?;
    Ok(lines_in(line))
}
