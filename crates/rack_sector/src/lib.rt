// The twelve sectors of one plain line, read and written, for C and Rust. Each function hands its numbers and slices on to
// the call of the same name in `sectors`, `pixels`, `channels`, `visible` or `sector_writer`. A number that comes back alone is 0 or
// that of the refusal; an answer of more is one struct of numbers, with 0 in every other field where `refused` is not 0.
//
// Structs with a number beside values, and the number 0 for no refusal, are the C interface.
//
// The contracts cite the definitions of the calls, and `specs/Sector.antt` for each struct. No function has a `requires`:
// nothing checks a caller in C.
//
// A slice crosses as a pointer and a count; slices that are lent to one call must not overlap.
#![tactic(auto)]

ghost use Rattle.std.specs.Prelude.{◌≡◌, length};
ghost use Rattle.bits.specs.Bits.{bits_of};
ghost use Rattle.sector_check.specs.Sector.{in_numbers};
ghost use Rattle.sectors.specs.Calls.{accepted_answer, answers_answer, filler_answer};
ghost use Rattle.pixel_refusals.specs.Refusing.{data_answer, pixels_answer};
ghost use Rattle.pixels.specs.Calls.{data_left, pixels_left};
ghost use Rattle.channel_refusals.specs.Refusing.{joined_answer};
ghost use Rattle.channels.specs.Join.{joined_left};
ghost use Rattle.visible.specs.Strip.{strip_answer, strip_left};
ghost use Rattle.write_refusals.specs.Refusing.{put_data_answer, put_pixels_answer};
ghost use Rattle.sector_writer.specs.Calls.{put_data_left, put_pixels_left};
ghost use Rattle.rack_sector.specs.Sector.{twelve_given, filler_given, strip_given};

use rack_number::CountAnswer;
use refusals::{Refusal, number_in};

// The answer to a strip: for each of VIS1 to VIS4 0, or 5 or 6 where the sector is not accepted and its part stays.
#[repr(C)]
#[derive(Clone, Copy)]
pub struct StripAnswer {
    pub refused: u8,
    pub vis: [u8; 4],
}

// Whether a sector is accepted: 0, or refused with 1, 4, 2, 5, 6.
pub fn hansobrik_accepted(format: u8, line: &[u8], sector: u8) -> u8
    ensures { result ≡ accepted_answer format line.now sector }
{
    number_in(sectors::check::accepted(format, line, sector))
}

// The answers of sectors 1 to 12: 0, or 5 or 6 where the sector is not accepted.
#[repr(C)]
#[derive(Clone, Copy)]
pub struct TwelveAnswer {
    pub refused: u8,
    pub answers: [u8; 12],
}

// The twelve answers as they cross the boundary.
impl From<Result<[Result<(), Refusal>; 12], Refusal>> for TwelveAnswer {
    ghost from_gives = { λ a given. given ≡ twelve_given (in_numbers a) };

    #[tactic(auto, unfolding(crate::specs::Sector::twelve_given))]
    fn from(a: Result<[Result<(), Refusal>; 12], Refusal>) -> Self {
        match a {
            Ok(answers) => Self {
                refused: 0,
                answers: answers.map(number_in),
            },
            Err(refusal) => Self {
                refused: refusal.number(),
                answers: [0; 12],
            },
        }
    }
}

// What `hansobrik_accepted` says of each of the twelve sectors; refused with 1, 2.
pub fn hansobrik_answers(format: u8, line: &[u8]) -> TwelveAnswer
    ensures { result ≡ twelve_given (answers_answer format line.now) }
{
    TwelveAnswer::from(sectors::check::answers(format, line))
}

// How many filler bits of a sector are set; refused with 1, 4, 2.
pub fn hansobrik_filler(format: u8, line: &[u8], sector: u8) -> CountAnswer
    ensures { result ≡ filler_given (filler_answer format line.now sector) }
{
    CountAnswer::from(sectors::check::filler(format, line, sector))
}

// The data of a sector as bytes; refused with 1, 4, 2, 3, 5, 6.
pub fn hansobrik_data(format: u8, line: &[u8], sector: u8, out: &mut [u8]) -> u8
    ensures { (result ≡ data_answer format line.now sector (length out.old)) × (out.new ≡ data_left format line.now sector out.old) }
{
    number_in(pixels::values::data(format, line, sector, out))
}

// The pixels of a sector from 2 to 11; refused with 1, 4, 2, 3, 5, 6.
pub fn hansobrik_pixels(format: u8, line: &[u8], sector: u8, out: &mut [u8]) -> u8
    ensures { (result ≡ pixels_answer 2 11 format line.now sector (length out.old)) × (out.new ≡ pixels_left 2 11 format line.now sector out.old) }
{
    number_in(pixels::values::pixels(format, line, sector, out))
}

// The pixels of IR4, sector 12; refused with 1, 4, 2, 3, 5, 6.
pub fn hansobrik_pixels_wide(format: u8, line: &[u8], sector: u8, out: &mut [u16]) -> u8
    ensures { (result ≡ pixels_answer 12 12 format line.now sector (length out.old)) × (out.new ≡ pixels_left 12 12 format line.now sector out.old) }
{
    number_in(pixels::values::pixels_wide(format, line, sector, out))
}

// The ten-bit pixels of IR1, IR2 or IR3; refused with 1, 4, 2, 3, the upper sector's 5 and 6, the lower one's.
pub fn hansobrik_joined(format: u8, line: &[u8], channel: u8, out: &mut [u16]) -> u8
    ensures { (result ≡ joined_answer format line.now channel (length out.old)) × (out.new ≡ joined_left format line.now channel out.old) }
{
    number_in(channels::join::joined(format, line, channel, out))
}

// The answers of a strip as they cross the boundary.
impl From<Result<[Result<(), Refusal>; 4], Refusal>> for StripAnswer {
    ghost from_gives = { λ a given. given ≡ strip_given (in_numbers a) };

    #[tactic(auto, unfolding(crate::specs::Sector::strip_given))]
    fn from(a: Result<[Result<(), Refusal>; 4], Refusal>) -> Self {
        match a {
            Ok(parts) => Self {
                refused: 0,
                vis: parts.map(number_in),
            },
            Err(refusal) => Self {
                refused: refusal.number(),
                vis: [0; 4],
            },
        }
    }
}

// The four visible lines in one strip; refused with 1, 2, 3.
pub fn hansobrik_strip(format: u8, line: &[u8], strip: &mut [u8]) -> StripAnswer
    ensures { (result ≡ strip_given (strip_answer format line.now strip.old)) × (strip.new ≡ strip_left format line.now strip.old) }
{
    StripAnswer::from(visible::strip::strip(format, line, strip))
}

// Data into a sector, with ID, check word and filler; refused with 1, 4, 2.
pub fn hansobrik_put_data(format: u8, line: &mut [u8], sector: u8, bytes: &[u8]) -> u8
    ensures { (result ≡ put_data_answer format (length line.old) sector (length bytes.now)) × (bits_of line.new ≡ put_data_left format line.old sector bytes.now) }
{
    number_in(sector_writer::write::put_data(format, line, sector, bytes))
}

// Pixels into a sector from 2 to 11; refused with 1, 4, 10, 2.
pub fn hansobrik_put_pixels(format: u8, line: &mut [u8], sector: u8, pixels: &[u8]) -> u8
    ensures { (result ≡ put_pixels_answer 2 11 format (length line.old) sector pixels.now) × (bits_of line.new ≡ put_pixels_left 2 11 format line.old sector pixels.now) }
{
    number_in(sector_writer::write::put_pixels(format, line, sector, pixels))
}

// Pixels into IR4, sector 12; refused with 1, 4, 10, 2.
pub fn hansobrik_put_pixels_wide(format: u8, line: &mut [u8], sector: u8, pixels: &[u16]) -> u8
    ensures { (result ≡ put_pixels_answer 12 12 format (length line.old) sector pixels.now) × (bits_of line.new ≡ put_pixels_left 12 12 format line.old sector pixels.now) }
{
    number_in(sector_writer::write::put_pixels_wide(format, line, sector, pixels))
}
