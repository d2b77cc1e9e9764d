// What refuses data and pixels that are to be written into a sector of a plain line, with the search for a pixel over its width. The
// calls are in `sector_writer`.
//
// The contracts cite `specs/Refusing.antt`. All functions are marked "Inner.".
#![tactic(auto)]

ghost use Rattle.std.specs.Prelude.{◌≡◌, ◌^◌, ◌≤◌, ◌<◌, ◌↔◌, IsTrue, All, map, take};
ghost use Rattle.refusals.specs.Refusals.{answer_number};
ghost use Rattle.write_refusals.specs.Refusing.{over_of, input_short, put_data_answer, put_pixels_answer};

use formats::Format;
use refusals::{Refusal, enough};
use sector_table::asked::asked;
use sector_table::layout::{data_bytes, layout_of};
use slices::Stored;

// Inner. The first number that does not fit a width.
pub fn limit_of(width: usize) -> u32
    requires { width ≤ 16 }
    ensures { result ≡ 2 ^ width }
{
    1u32 << width
}

// Inner. Whether each of the first n pixels is below the limit, or each of all where there are fewer than n.
fn each_below<T: Stored>(pixels: &[T], n: usize, limit: u32) -> bool
    ensures { IsTrue result ↔ All (λ pixel. T.number pixel < limit) (take n pixels.now) }
{
    pixels
        .iter()
        .take(n)
        .all(|pixel| u32::from(pixel.number()) < limit)
}

// Inner. Refuses, with 10, where one of the first n pixels is not below the limit, or of all where there are fewer than n.
pub fn over<T: Stored>(pixels: &[T], n: usize, limit: u32) -> Result<(), Refusal>
    ensures { answer_number result ≡ over_of limit (take n (map T.number pixels.now)) }
{
    if each_below(pixels, n, limit) {
        Ok(())
    } else {
        Err(Refusal::Range)
    }
}

// Inner. Refuses, with 2, where the line's buffer is short, or fewer were given than are needed.
#[tactic(auto, using(refusals::proofs::Numbers::refused_first, refusals::proofs::Numbers::passed_first), unfolding(crate::specs::Refusing::input_short))]
fn input_short(length: usize, given: usize, needed: usize) -> Result<(), Refusal>
    ensures { answer_number result ≡ input_short length given needed }
{
    enough(length, Format::LINE_BYTES, Refusal::ShortInput)?;
    enough(given, needed, Refusal::ShortInput)
}

// Inner. Refuses data, with 1, 4, 2.
#[tactic(auto, using(refusals::proofs::Numbers::refused_first, refusals::proofs::Numbers::passed_first), unfolding(crate::specs::Refusing::put_data_answer))]
pub fn data_refusal(format: u8, length: usize, sector: u8, given: usize) -> Result<(), Refusal>
    ensures { answer_number result ≡ put_data_answer format length sector given }
{
    asked(format, 1, 12, sector)?;
    input_short(length, given, data_bytes(layout_of(sector)))
}

// Inner. Refuses the pixels of a sector from lo to hi, with 1, 4, 10, 2.
#[tactic(auto, using(refusals::proofs::Numbers::refused_first, refusals::proofs::Numbers::passed_first), unfolding(crate::specs::Refusing::put_pixels_answer))]
pub fn pixels_refusal<T: Stored>(
    format: u8,
    lo: u8,
    hi: u8,
    length: usize,
    sector: u8,
    pixels: &[T],
) -> Result<(), Refusal>
    requires { (1 ≤ lo) × (hi ≤ 12) }
    ensures { answer_number result ≡ put_pixels_answer lo hi format length sector (map T.number pixels.now) }
{
    asked(format, lo, hi, sector)?;
    let l = layout_of(sector);
    over(pixels, l.count, limit_of(l.width))?;
    input_short(length, pixels.len(), l.count)
}
