// The calls of `rack_sector` for C.
ghost use Rattle.std.specs.Prelude.{◌≡◌, length};
ghost use Rattle.bits.specs.Bits.{bits_of};
ghost use Rattle.sectors.specs.Calls.{accepted_answer, answers_answer, filler_answer};
ghost use Rattle.pixel_refusals.specs.Refusing.{data_answer, pixels_answer};
ghost use Rattle.pixels.specs.Calls.{data_left, pixels_left};
ghost use Rattle.channel_refusals.specs.Refusing.{joined_answer};
ghost use Rattle.channels.specs.Join.{joined_left};
ghost use Rattle.visible.specs.Strip.{strip_answer, strip_left};
ghost use Rattle.write_refusals.specs.Refusing.{put_data_answer, put_pixels_answer};
ghost use Rattle.sector_writer.specs.Calls.{put_data_left, put_pixels_left};
ghost use Rattle.rack_sector.specs.Sector.{twelve_given, filler_given, strip_given};

use rack_number::CountAnswer;
use rack_sector::{StripAnswer, TwelveAnswer};

#[unsafe(no_mangle)]
pub extern "C" fn hansobrik_accepted(format: u8, line: &[u8], sector: u8) -> u8
    ensures { result ≡ accepted_answer format line.now sector }
{
    rack_sector::hansobrik_accepted(format, line, sector)
}

#[unsafe(no_mangle)]
pub extern "C" fn hansobrik_answers(format: u8, line: &[u8]) -> TwelveAnswer
    ensures { result ≡ twelve_given (answers_answer format line.now) }
{
    rack_sector::hansobrik_answers(format, line)
}

#[unsafe(no_mangle)]
pub extern "C" fn hansobrik_filler(format: u8, line: &[u8], sector: u8) -> CountAnswer
    ensures { result ≡ filler_given (filler_answer format line.now sector) }
{
    rack_sector::hansobrik_filler(format, line, sector)
}

#[unsafe(no_mangle)]
pub extern "C" fn hansobrik_data(format: u8, line: &[u8], sector: u8, out: &mut [u8]) -> u8
    ensures { (result ≡ data_answer format line.now sector (length out.old)) × (out.new ≡ data_left format line.now sector out.old) }
{
    rack_sector::hansobrik_data(format, line, sector, out)
}

#[unsafe(no_mangle)]
pub extern "C" fn hansobrik_pixels(format: u8, line: &[u8], sector: u8, out: &mut [u8]) -> u8
    ensures { (result ≡ pixels_answer 2 11 format line.now sector (length out.old)) × (out.new ≡ pixels_left 2 11 format line.now sector out.old) }
{
    rack_sector::hansobrik_pixels(format, line, sector, out)
}

#[unsafe(no_mangle)]
pub extern "C" fn hansobrik_pixels_wide(format: u8, line: &[u8], sector: u8, out: &mut [u16]) -> u8
    ensures { (result ≡ pixels_answer 12 12 format line.now sector (length out.old)) × (out.new ≡ pixels_left 12 12 format line.now sector out.old) }
{
    rack_sector::hansobrik_pixels_wide(format, line, sector, out)
}

#[unsafe(no_mangle)]
pub extern "C" fn hansobrik_joined(format: u8, line: &[u8], channel: u8, out: &mut [u16]) -> u8
    ensures { (result ≡ joined_answer format line.now channel (length out.old)) × (out.new ≡ joined_left format line.now channel out.old) }
{
    rack_sector::hansobrik_joined(format, line, channel, out)
}

#[unsafe(no_mangle)]
pub extern "C" fn hansobrik_strip(format: u8, line: &[u8], strip: &mut [u8]) -> StripAnswer
    ensures { (result ≡ strip_given (strip_answer format line.now strip.old)) × (strip.new ≡ strip_left format line.now strip.old) }
{
    rack_sector::hansobrik_strip(format, line, strip)
}

#[unsafe(no_mangle)]
pub extern "C" fn hansobrik_put_data(format: u8, line: &mut [u8], sector: u8, bytes: &[u8]) -> u8
    ensures { (result ≡ put_data_answer format (length line.old) sector (length bytes.now)) × (bits_of line.new ≡ put_data_left format line.old sector bytes.now) }
{
    rack_sector::hansobrik_put_data(format, line, sector, bytes)
}

#[unsafe(no_mangle)]
pub extern "C" fn hansobrik_put_pixels(format: u8, line: &mut [u8], sector: u8, pixels: &[u8]) -> u8
    ensures { (result ≡ put_pixels_answer 2 11 format (length line.old) sector pixels.now) × (bits_of line.new ≡ put_pixels_left 2 11 format line.old sector pixels.now) }
{
    rack_sector::hansobrik_put_pixels(format, line, sector, pixels)
}

#[unsafe(no_mangle)]
pub extern "C" fn hansobrik_put_pixels_wide(
    format: u8,
    line: &mut [u8],
    sector: u8,
    pixels: &[u16],
) -> u8
    ensures { (result ≡ put_pixels_answer 12 12 format (length line.old) sector pixels.now) × (bits_of line.new ≡ put_pixels_left 12 12 format line.old sector pixels.now) }
{
    rack_sector::hansobrik_put_pixels_wide(format, line, sector, pixels)
}
