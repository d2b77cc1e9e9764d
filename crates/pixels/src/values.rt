// The data of a checked sector as bytes, and its pixels as numbers.
ghost use Rattle.std.specs.Prelude.{◌≡◌, ◌≤◌, ℕ, length, map};
ghost use Rattle.refusals.specs.Refusals.{answer_number};
ghost use Rattle.sector_table.specs.Layout.{layout_of};
ghost use Rattle.pixel_refusals.specs.Refusing.{data_answer, pixels_answer};
ghost use Rattle.pixels.specs.Calls.{data_left, pixels_left};

use pixel_refusals::{data_refusal, pixels_refusal};
use refusals::Refusal;
use sector_table::layout::layout_of;
use slices::Stored;
use unpacking::{unpack_data, unpack_pixels};

// The data of a sector into bytes: 2,291 of DOC and IR1-3 upper, 6,873 of VIS1-4, 573 of IR1-3 lower, 2,864 of IR4;
// the two spare low bits of the last are zero in sectors 9 to 12. Refused with 1, 4, 2, 3, 5, 6, which leaves out as it was. What
// lies behind the data in out is kept.
#[tactic(auto, using(refusals::proofs::Numbers::answers_err, refusals::proofs::Numbers::answers_ok), unfolding(crate::specs::Calls::data_left))]
pub fn data(format: u8, line: &[u8], sector: u8, out: &mut [u8]) -> Result<(), Refusal>
    ensures { (answer_number result ≡ data_answer format line.now sector (length out.old)) × (out.new ≡ data_left format line.now sector out.old) }
{
    data_refusal(format, line, sector, out.len())?;
    unpack_data(layout_of(sector), line, out);
    Ok(())
}

// Inner. The pixels of a sector from lo to hi, whose widths what stores them has room for. Refused with 1, 4, 2, 3, 5, 6, which
// leaves out as it was. What lies behind the pixels in out is kept.
#[tactic(auto, using(refusals::proofs::Numbers::answers_err, refusals::proofs::Numbers::answers_ok), unfolding(crate::specs::Calls::pixels_left))]
fn stored_pixels<T: Stored>(
    format: u8,
    lo: u8,
    hi: u8,
    line: &[u8],
    sector: u8,
    out: &mut [T],
) -> Result<(), Refusal>
    requires { (1 ≤ lo) × (hi ≤ 12) × ((n : ℕ) → lo ≤ n → n ≤ hi → (layout_of n).width ≤ T.room) }
    ensures { (answer_number result ≡ pixels_answer lo hi format line.now sector (length out.old)) × (map T.number out.new ≡ pixels_left lo hi format line.now sector (map T.number out.old)) }
{
    pixels_refusal(format, lo, hi, line, sector, out.len())?;
    unpack_pixels(layout_of(sector), line, out);
    Ok(())
}

// The pixels of IR1-3 upper, VIS1-4 and IR1-3 lower, sectors 2 to 11, at eight, six and two bits, into bytes. Refused with 1, 4, 2, 3,
// 5, 6, which leaves out as it was. What lies behind the pixels in out is kept.
pub fn pixels(format: u8, line: &[u8], sector: u8, out: &mut [u8]) -> Result<(), Refusal>
    ensures { (answer_number result ≡ pixels_answer 2 11 format line.now sector (length out.old)) × (out.new ≡ pixels_left 2 11 format line.now sector out.old) }
{
    stored_pixels(format, 2, 11, line, sector, out)
}

// The pixels of IR4, sector 12, at ten bits. Refused with 1, 4, 2, 3, 5, 6, which leaves out as it was.
pub fn pixels_wide(format: u8, line: &[u8], sector: u8, out: &mut [u16]) -> Result<(), Refusal>
    ensures { (answer_number result ≡ pixels_answer 12 12 format line.now sector (length out.old)) × (out.new ≡ pixels_left 12 12 format line.now sector out.old) }
{
    stored_pixels(format, 12, 12, line, sector, out)
}
