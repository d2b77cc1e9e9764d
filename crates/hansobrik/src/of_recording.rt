// The calls of `rack_recording` for C.
ghost use Rattle.std.specs.Prelude.{◌≡◌};
ghost use Rattle.reader_record.specs.Records.{fresh_state};
ghost use Rattle.writer.specs.Wire.{write_line_answer, write_line_left};
ghost use Rattle.rack_recording.specs.Recording.{kept_of, read_of, line_left, written_given};

use rack_number::CountAnswer;
use rack_recording::{ReadAnswer, ReaderState};

#[unsafe(no_mangle)]
pub extern "C" fn hansobrik_fresh() -> ReaderState
    ensures { result ≡ kept_of fresh_state }
{
    rack_recording::hansobrik_fresh()
}

#[unsafe(no_mangle)]
pub extern "C" fn hansobrik_read(
    format: u8,
    setting: u8,
    state: ReaderState,
    piece: &[u8],
    line: &mut [u8],
) -> ReadAnswer
    ensures { (result ≡ read_of format setting state piece.now line.old) × (line.new ≡ line_left format setting state piece.now line.old) }
{
    rack_recording::hansobrik_read(format, setting, state, piece, line)
}

#[unsafe(no_mangle)]
pub extern "C" fn hansobrik_write_line(format: u8, line: &[u8], out: &mut [u8]) -> CountAnswer
    ensures { (result ≡ written_given (write_line_answer format line.now out.old)) × (out.new ≡ write_line_left format line.now out.old) }
{
    rack_recording::hansobrik_write_line(format, line, out)
}
