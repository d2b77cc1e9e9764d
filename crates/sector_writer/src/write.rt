// The calls that write a sector.
ghost use Rattle.std.specs.Prelude.{◌≡◌, ◌≤◌, length, map};
ghost use Rattle.bits.specs.Bits.{bits_of};
ghost use Rattle.refusals.specs.Refusals.{answer_number};
ghost use Rattle.write_refusals.specs.Refusing.{put_data_answer, put_pixels_answer};
ghost use Rattle.sector_writer.specs.Calls.{put_data_left, put_pixels_left};

use formats::check_start;
use refusals::Refusal;
use sector_rows::{write_bytes, write_row};
use sector_table::layout::layout_of;
use slices::Stored;
use write_refusals::{data_refusal, pixels_refusal};

// Data into a sector: 2,291 bytes for DOC and IR1-3 upper, 6,873 for VIS1-4, 573 for IR1-3 lower, 2,864 for IR4; bytes
// behind them are not read, and the two spare low bits of the last are ignored in sectors 9 to 12. Refused with 1, 4, 2, which leaves
// the line as it was. Every other bit of the buffer is kept.
#[tactic(auto, using(refusals::proofs::Numbers::answers_err, refusals::proofs::Numbers::answers_ok), unfolding(crate::specs::Calls::put_data_left))]
pub fn put_data(format: u8, line: &mut [u8], sector: u8, bytes: &[u8]) -> Result<(), Refusal>
    ensures { (answer_number result ≡ put_data_answer format (length line.old) sector (length bytes.now)) × (bits_of line.new ≡ put_data_left format line.old sector bytes.now) }
{
    data_refusal(format, line.len(), sector, bytes.len())?;
    write_bytes(check_start(format), layout_of(sector), line, bytes);
    Ok(())
}

// Inner. Pixels into a sector from lo to hi. Refused with 1, 4, 10, 2, which leaves the line as it was.
#[tactic(auto, using(refusals::proofs::Numbers::answers_err, refusals::proofs::Numbers::answers_ok), unfolding(crate::specs::Calls::put_pixels_left))]
fn put_stored<T: Stored>(
    format: u8,
    lo: u8,
    hi: u8,
    line: &mut [u8],
    sector: u8,
    pixels: &[T],
) -> Result<(), Refusal>
    requires { (1 ≤ lo) × (hi ≤ 12) }
    ensures { (answer_number result ≡ put_pixels_answer lo hi format (length line.old) sector (map T.number pixels.now)) × (bits_of line.new ≡ put_pixels_left lo hi format line.old sector (map T.number pixels.now)) }
{
    pixels_refusal(format, lo, hi, line.len(), sector, pixels)?;
    write_row(check_start(format), layout_of(sector), line, pixels);
    Ok(())
}

// Pixels into a sector of IR1-3 upper, VIS1-4 or IR1-3 lower, 2 to 11, at eight, six and two bits. Refused with 1, 4, 10, 2, which
// leaves the line as it was. Only the pixels that the sector takes are looked at; where fewer are given, one of those that is over
// its width is 10 before the count is 2. Every other bit of the buffer is kept.
pub fn put_pixels(format: u8, line: &mut [u8], sector: u8, pixels: &[u8]) -> Result<(), Refusal>
    ensures { (answer_number result ≡ put_pixels_answer 2 11 format (length line.old) sector pixels.now) × (bits_of line.new ≡ put_pixels_left 2 11 format line.old sector pixels.now) }
{
    put_stored(format, 2, 11, line, sector, pixels)
}

// Pixels into IR4, sector 12, at ten bits. Refusals and edges as for `put_pixels`.
pub fn put_pixels_wide(
    format: u8,
    line: &mut [u8],
    sector: u8,
    pixels: &[u16],
) -> Result<(), Refusal>
    ensures { (answer_number result ≡ put_pixels_answer 12 12 format (length line.old) sector pixels.now) × (bits_of line.new ≡ put_pixels_left 12 12 format line.old sector pixels.now) }
{
    put_stored(format, 12, 12, line, sector, pixels)
}
