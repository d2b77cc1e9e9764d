// IR1-3 at ten bits: four times the pixel of the upper sector plus the pixel of the lower one.
ghost use Rattle.std.specs.Prelude.{◌≡◌, ◌++◌, ◌+◌, ◌*◌, ◌^◌, ◌≤◌, ◌<◌, length, drop};
ghost use Rattle.formats.specs.Formats.{line_bytes};
ghost use Rattle.bits.specs.Bits.{bits_of, part, number_of, fields_of};
ghost use Rattle.refusals.specs.Refusals.{answer_number};
ghost use Rattle.sector_table.specs.Layout.{Sound};
ghost use Rattle.sector_check.specs.Sector.{pixels_of, joined_of};
ghost use Rattle.channel_refusals.specs.Refusing.{joined_answer};
ghost use Rattle.channels.specs.Join.{joined_left};

use channel_refusals::joined_refusal;
use refusals::Refusal;
use sector_table::layout::{Layout, layout_of};

// Inner. One pixel: eight bits of the upper part above two of the lower one.
fn join_one(line: &[u8], high: usize, low: usize) -> u16
    requires { (high + 8 ≤ 8 * length line.now) × (low + 2 ≤ 8 * length line.now) }
    ensures { result ≡ 4 * number_of (part line.now high 8) + number_of (part line.now low 2) }
{
    4 * slices::field(line, high, 8) + slices::field(line, low, 2)
}

// Inner. The pixels of an upper part and of a lower one from two places on, joined, as many as out has.
#[tactic(auto, using(crate::proofs::Joined::joining_none, crate::proofs::Joined::joining_turn, crate::proofs::Joined::joining_all))]
fn join_run(line: &[u8], upper: usize, lower: usize, out: &mut [u16])
    requires { (upper + length out.old * 8 ≤ 8 * length line.now) × (lower + length out.old * 2 ≤ 8 * length line.now) × (upper + length out.old * 8 < 2 ^ 64) × (lower + length out.old * 2 < 2 ^ 64) }
    ensures { out.new ≡ joined_of (fields_of 8 (length out.old) (drop upper (bits_of line.now))) (fields_of 2 (length out.old) (drop lower (bits_of line.now))) }
{
    let mut high = upper;
    let mut low = lower;
    for pixel in out.iter_mut() {
        *pixel = join_one(line, high, low);
        high += 8;
        low += 2;
    }
}

// Inner. The pixels of an upper sector, eight bits wide, and of a lower one, two bits wide, joined.
fn join(upper: Layout, lower: Layout, line: &[u8], out: &mut [u16])
    requires { Sound upper × Sound lower × (upper.width ≡ 8) × (lower.width ≡ 2) × (lower.count ≡ upper.count) × (line_bytes ≤ length line.now) × (upper.count ≤ length out.old) }
    ensures { out.new ≡ joined_of (pixels_of upper (bits_of line.now)) (pixels_of lower (bits_of line.now)) ++ drop upper.count out.old }
{
    join_run(
        line,
        upper.start + upper.id_bits,
        lower.start + lower.id_bits,
        &mut out[..upper.count],
    );
}

// The pixels of IR1, IR2 or IR3, channel 1 to 3, at ten bits: 2,291 of them. Refused with 1, 4, 2, 3, the upper sector's 5 and 6, the
// lower one's 5 and 6, which leaves out as it was. What lies behind the pixels is kept.
#[tactic(auto, using(refusals::proofs::Numbers::answers_err, refusals::proofs::Numbers::answers_ok), unfolding(crate::specs::Join::joined_left))]
pub fn joined(format: u8, line: &[u8], channel: u8, out: &mut [u16]) -> Result<(), Refusal>
    ensures { (answer_number result ≡ joined_answer format line.now channel (length out.old)) × (out.new ≡ joined_left format line.now channel out.old) }
{
    joined_refusal(format, line, channel, out.len())?;
    join(layout_of(channel + 1), layout_of(channel + 8), line, out);
    Ok(())
}
