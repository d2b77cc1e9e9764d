// The four visible lines in one strip, each in its own part of 9,164 bytes.
ghost use Rattle.std.specs.Prelude.{◌≡◌, ◌≤◌, length, map};
ghost use Rattle.formats.specs.Formats.{line_bytes};
ghost use Rattle.bits.specs.Bits.{bits_of};
ghost use Rattle.refusals.specs.Refusals.{answer_number};
ghost use Rattle.sector_table.specs.Layout.{layout_of};
ghost use Rattle.sector_check.specs.Sector.{answer_of};
ghost use Rattle.visible.specs.Strip.{part_bytes, strip_bytes, visible_of, lent_of, part_answers_of, strip_of, strip_refusal, StripOk, strip_left};

use formats::{Format, check_start, format_refusal};
use refusals::{Refusal, enough};
use sector_check::answer;
use sector_table::layout::layout_of;
use unpacking::unpack_pixels;

pub const PART_BYTES: usize = 9164;

pub const STRIP_BYTES: usize = 4 * PART_BYTES;

// Inner. The unpacker of one visible sector, 5 to 8: it fills all of its part, or leaves it as it was.
#[tactic(auto, using(refusals::proofs::Numbers::answers_err, refusals::proofs::Numbers::answers_ok), unfolding(crate::specs::Strip::visible_of))]
fn visible(start: u16, sector: u8, line: &[u8], part: &mut [u8]) -> Result<(), Refusal>
    requires { (5 ≤ sector) × (sector ≤ 8) × (line_bytes ≤ length line.now) × (length part.old ≡ part_bytes) }
    ensures { (answer_number result ≡ answer_of start (layout_of sector) (bits_of line.now)) × (part.new ≡ visible_of start sector (bits_of line.now) part.old) }
{
    let l = layout_of(sector);
    answer(start, l, line)?;
    unpack_pixels(l, line, part);
    Ok(())
}

// Inner. A visible sector's own part of the strip, lent to its unpacker.
fn lend_part(start: u16, sector: u8, line: &[u8], strip: &mut [u8]) -> Result<(), Refusal>
    requires { (5 ≤ sector) × (sector ≤ 8) × (line_bytes ≤ length line.now) × (strip_bytes ≤ length strip.old) }
    ensures { (answer_number result ≡ answer_of start (layout_of sector) (bits_of line.now)) × (strip.new ≡ lent_of start sector (bits_of line.now) strip.old) }
{
    let n = sector as usize;
    let a = (n - 5) * PART_BYTES;
    let b = a + PART_BYTES;
    visible(start, sector, line, &mut strip[a..b])
}

// Inner. All four parts, one after the other.
fn four_parts(start: u16, line: &[u8], strip: &mut [u8]) -> [Result<(), Refusal>; 4]
    requires { (line_bytes ≤ length line.now) × (strip_bytes ≤ length strip.old) }
    ensures { (map answer_number result ≡ part_answers_of start (bits_of line.now)) × (strip.new ≡ strip_of start (bits_of line.now) strip.old) }
{
    let one = lend_part(start, 5, line, strip);
    let two = lend_part(start, 6, line, strip);
    let three = lend_part(start, 7, line, strip);
    let four = lend_part(start, 8, line, strip);
    [one, two, three, four]
}

// Inner. Refuses a strip, with 1, 2, 3.
#[tactic(auto, using(refusals::proofs::Numbers::refused_first, refusals::proofs::Numbers::passed_first), unfolding(crate::specs::Strip::strip_refusal))]
fn strip_refusal(format: u8, length: usize, given: usize) -> Result<(), Refusal>
    ensures { answer_number result ≡ strip_refusal format length given }
{
    format_refusal(format)?;
    enough(length, Format::LINE_BYTES, Refusal::ShortInput)?;
    enough(given, STRIP_BYTES, Refusal::ShortOutput)
}

// The four visible lines into one strip of 36,656 bytes. Refused with 1, 2, 3, and then the strip stays as it was. A sector that is
// not accepted refuses nothing: its own answer, one of VIS1 to VIS4, says 5 or 6, and its own part stays. What lies behind the
// strip's 36,656 bytes is kept.
#[tactic(auto, using(refusals::proofs::Numbers::answers_err, refusals::proofs::Numbers::answers_ok), unfolding(crate::specs::Strip::strip_left))]
pub fn strip(format: u8, line: &[u8], strip: &mut [u8]) -> Result<[Result<(), Refusal>; 4], Refusal>
    ensures { StripOk format line.now strip.old result × (strip.new ≡ strip_left format line.now strip.old) }
{
    strip_refusal(format, line.len(), strip.len())?;
    Ok(four_parts(check_start(format), line, strip))
}
