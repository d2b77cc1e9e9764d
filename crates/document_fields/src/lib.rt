// Any number field of the documentation sector, by its place and form: I*n, BCD*n, R*n.m, and R*n.m in f64.
//
// The contracts cite `specs/Fields.antt` (`IntegerFieldOk`, `BcdFieldOk`, `RealFieldOk`, `F64FieldOk`). Each gives the paper's
// number of the answer and its value, for every input; refusals are tested in the paper's order.
//
// Places are bytes of sector 1 counted from 1, its ID included, as in the crate `document`.
//
// No public function has a `requires`.
#![tactic(auto)]

ghost use Rattle.std.specs.Prelude.{◌≡◌};
ghost use Rattle.refusals.specs.Refusals.{answer_number};
ghost use Rattle.document_fields.specs.Fields.{no_place, field_refusal, IntegerFieldOk, BcdFieldOk, RealFieldOk, F64FieldOk};

use document::place::{DOC_BYTES, doc_refusal};
use floats::value;
use formats::format_refusal;
use numbers::{R, form_refusal, read_bcd, read_integer, read_real};
use refusals::{Refusal, within};

// Whether n bytes from a place on do not all lie in ID and data, the bytes 1 to 2,293.
#[tactic(auto, unfolding(crate::specs::Fields::no_place))]
fn no_place(place: usize, n: usize) -> bool
    ensures { result ≡ no_place place n }
{
    place < 1 || DOC_BYTES + 1 < place || DOC_BYTES + 1 - place < n
}

// Refuses a field of n bytes at a place: with 1, then as its form is refused, with 2 where its bytes are not all there, 5, 6.
#[tactic(auto, using(refusals::proofs::Numbers::refused_first, refusals::proofs::Numbers::passed_first, crate::proofs::Served::no_room, crate::proofs::Served::some_room), unfolding(crate::specs::Fields::field_refusal))]
fn field_refusal(
    form: Result<(), Refusal>,
    format: u8,
    line: &[u8],
    place: usize,
    n: usize,
) -> Result<(), Refusal>
    ensures { answer_number result ≡ field_refusal (answer_number form) format line.now place n }
{
    format_refusal(format)?;
    form?;
    if no_place(place, n) {
        return Err(Refusal::ShortInput);
    }
    doc_refusal(format, line)
}

// I*n at a place; refused with 1, 10 for n outside 1 to 4, 2 for a short line or a field outside the bytes 1 to 2,293, 5, 6.
#[tactic(auto, using(refusals::proofs::Numbers::answers_err, crate::proofs::Served::served_by), unfolding(crate::specs::Fields::integer_field_refusal))]
pub fn integer_field(format: u8, line: &[u8], place: usize, n: usize) -> Result<u32, Refusal>
    ensures { IntegerFieldOk format line.now place n result }
{
    let form = within(1, 4, n as u64, Refusal::Range);
    field_refusal(form, format, line, place, n)?;
    read_integer(&line[place - 1..], n)
}

// BCD*n at a place; refused likewise, with 10 for n outside 1 to 6, and last with 7 for a digit over 9.
#[tactic(auto, using(refusals::proofs::Numbers::answers_err, refusals::proofs::Numbers::refused_first, crate::proofs::Served::served_by), unfolding(crate::specs::Fields::bcd_field_refusal))]
pub fn bcd_field(format: u8, line: &[u8], place: usize, n: usize) -> Result<u64, Refusal>
    ensures { BcdFieldOk format line.now place n result }
{
    let form = within(1, 6, n as u64, Refusal::Range);
    field_refusal(form, format, line, place, n)?;
    read_bcd(&line[place - 1..], n)
}

// R*n.m at a place as sign, magnitude and places; refused likewise, with 10 for n neither 4 nor 6 or m over 15.
#[tactic(auto, using(refusals::proofs::Numbers::answers_err, crate::proofs::Served::served_by), unfolding(crate::specs::Fields::real_field_refusal))]
pub fn real_field(format: u8, line: &[u8], place: usize, n: usize, m: u8) -> Result<R, Refusal>
    ensures { RealFieldOk format line.now place n m result }
{
    field_refusal(form_refusal(n, m), format, line, place, n)?;
    read_real(&line[place - 1..], n, m)
}

// R*n.m at a place in f64, refused as `real_field` refuses.
#[tactic(auto, using(refusals::proofs::Numbers::answers_err, floats::proofs::Fitting::float_answers, crate::proofs::Readings::field_fits))]
pub fn f64_field(format: u8, line: &[u8], place: usize, n: usize, m: u8) -> Result<f64, Refusal>
    ensures { F64FieldOk format line.now place n m result }
{
    Ok(value(real_field(format, line, place, n, m)?))
}
