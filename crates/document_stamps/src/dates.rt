// The date and time at which a line was observed.
ghost use Rattle.document_stamps.specs.Dates.{DateOk};

use bcd_dates::dates::{DateTime, date_in, date_refusal};
use document::place::doc_refusal;
use refusals::Refusal;

// The date of a line, sector bytes 20 to 27; refused with 1, 2, 5, 6, and 7 for a digit over 9 or a part out of its range
// in these eight bytes. A 31st is taken in every month.
#[tactic(auto, using(refusals::proofs::Numbers::answers_err, refusals::proofs::Numbers::answers_ok, refusals::proofs::Numbers::refused_first, refusals::proofs::Numbers::passed_first, document::proofs::Known::doc_long), unfolding(crate::specs::Dates::date_refusal, sector_table::specs::Place::doc_part, bits::specs::Bits::stretch))]
pub fn date(format: u8, line: &[u8]) -> Result<DateTime, Refusal>
    ensures { DateOk format line.now result }
{
    doc_refusal(format, line)?;
    let bytes = &line[19..27];
    date_refusal(bytes)?;
    Ok(date_in(bytes))
}
