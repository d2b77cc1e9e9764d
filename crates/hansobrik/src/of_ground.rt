// The calls of `rack_ground` for C.
ghost use Rattle.std.specs.Prelude.{◌≡◌};
ghost use Rattle.formats.specs.Formats.{format_of};
ghost use Rattle.scramble.specs.Step.{step_answer, register_left};
ghost use Rattle.sync.specs.Put.{put_sync_answer, put_sync_left};
ghost use Rattle.rack_ground.specs.Ground.{version, format_given, step_given, sync_given};

use rack_ground::{FormatAnswer, StepAnswer};
use rack_number::CountAnswer;

#[unsafe(no_mangle)]
pub extern "C" fn hansobrik_version() -> u32
    ensures { result ≡ version }
{
    rack_ground::hansobrik_version()
}

#[unsafe(no_mangle)]
pub extern "C" fn hansobrik_format(format: u8) -> FormatAnswer
    ensures { result ≡ format_given (format_of format) }
{
    rack_ground::hansobrik_format(format)
}

#[unsafe(no_mangle)]
pub extern "C" fn hansobrik_stepped(register: u16) -> StepAnswer
    ensures { result ≡ step_given (step_answer register) (register_left register) }
{
    rack_ground::hansobrik_stepped(register)
}

#[unsafe(no_mangle)]
pub extern "C" fn hansobrik_step(register: &mut u16) -> StepAnswer
    ensures { (result ≡ step_given (step_answer register.old) (register_left register.old)) × (register.new ≡ register_left register.old) }
{
    rack_ground::hansobrik_step(register)
}

#[unsafe(no_mangle)]
pub extern "C" fn hansobrik_put_sync(format: u8, out: &mut [u8]) -> CountAnswer
    ensures { (result ≡ sync_given (put_sync_answer format out.old)) × (out.new ≡ put_sync_left format out.old) }
{
    rack_ground::hansobrik_put_sync(format, out)
}
