// The version of the library; formats, the scrambling register and SYNC for C and Rust. But for the version each function
// hands its numbers and slices on to the call of the same name in `formats`, `scramble` or `sync` and lays that call's answer
// out as one struct of numbers: `refused` is 0 or the number of the refusal, and a refused answer has 0 in every other field,
// but for a register, which comes back as it was.
//
// The contracts cite `specs/Ground.antt`, one definition for each answer, over the definitions of the calls themselves. No
// function has a `requires`: nothing checks a caller in C.
//
// Structs with a number beside values are the C interface.
//
// A slice crosses as a pointer and a count; slices that are lent to one call must not overlap.
#![tactic(auto)]

ghost use Rattle.std.specs.Prelude.{◌≡◌};
ghost use Rattle.formats.specs.Formats.{format_of};
ghost use Rattle.scramble.specs.Step.{step_answer, register_left};
ghost use Rattle.sync.specs.Put.{put_sync_answer, put_sync_left};
ghost use Rattle.rack_ground.specs.Ground.{version, format_given, step_given, sync_given};

use formats::Format;
use rack_number::CountAnswer;
use refusals::Refusal;
use scramble::{Register, StepTaken};

// A format: its number, the start value of the check of its sectors, the bits of the three parts of one line on the wire, and the
// bytes of them all.
#[repr(C)]
#[derive(Clone, Copy)]
pub struct FormatAnswer {
    pub refused: u8,
    pub number: u8,
    pub check_start: u16,
    pub sync_bits: usize,
    pub information_bits: usize,
    pub dummy_bits: usize,
    pub bytes: usize,
}

// One step of the scrambling register: the bit that it gave, and the register after it.
#[repr(C)]
#[derive(Clone, Copy)]
pub struct StepAnswer {
    pub refused: u8,
    pub bit: u8,
    pub register: u16,
}

// The version of the library as one number, so that a caller sees whether its declarations are of the same one.
pub fn hansobrik_version() -> u32
    ensures { result ≡ version }
{
    800
}

// A format as it crosses the boundary.
impl From<Result<Format, Refusal>> for FormatAnswer {
    ghost from_gives = { λ a given. given ≡ format_given a };

    #[tactic(auto, unfolding(crate::specs::Ground::format_given))]
    fn from(a: Result<Format, Refusal>) -> Self {
        match a {
            Ok(f) => Self {
                refused: 0,
                number: f.number,
                check_start: f.check_start,
                sync_bits: f.sync,
                information_bits: f.information,
                dummy_bits: f.dummy,
                bytes: f.bytes,
            },
            Err(refusal) => Self {
                refused: refusal.number(),
                number: 0,
                check_start: 0,
                sync_bits: 0,
                information_bits: 0,
                dummy_bits: 0,
                bytes: 0,
            },
        }
    }
}

// The lengths of a format, and the start value of its check; refused with 1.
pub fn hansobrik_format(format: u8) -> FormatAnswer
    ensures { result ≡ format_given (format_of format) }
{
    FormatAnswer::from(Format::of(format))
}

// Inner. A step's answer as it crosses the boundary, with the register after it.
#[tactic(auto, unfolding(crate::specs::Ground::step_given))]
fn step_given(a: Result<u8, Refusal>, register: u16) -> StepAnswer
    ensures { result ≡ step_given a register }
{
    match a {
        Ok(bit) => StepAnswer {
            refused: 0,
            bit,
            register,
        },
        Err(refusal) => StepAnswer {
            refused: refusal.number(),
            bit: 0,
            register,
        },
    }
}

// The step of a register by value. Refused with 12 for a register over fifteen bits, which comes back as it was.
pub fn hansobrik_stepped(register: u16) -> StepAnswer
    ensures { result ≡ step_given (step_answer register) (register_left register) }
{
    let StepTaken { next, answer } = scramble::stepped(Register { bits: register });
    step_given(answer, next.bits)
}

// The step of a register that the caller lends: it changes in place. Refused with 12 for a register over fifteen bits,
// which stays as it was. The answer's `register` is the lent one after the call.
pub fn hansobrik_step(register: &mut u16) -> StepAnswer
    ensures { (result ≡ step_given (step_answer register.old) (register_left register.old)) × (register.new ≡ register_left register.old) }
{
    let mut own = Register { bits: *register };
    let answer = scramble::step(&mut own);
    *register = own.bits;
    step_given(answer, own.bits)
}

// SYNC of a format at the front of out, and how many bytes it takes; refused with 1, 3.
pub fn hansobrik_put_sync(format: u8, out: &mut [u8]) -> CountAnswer
    ensures { (result ≡ sync_given (put_sync_answer format out.old)) × (out.new ≡ put_sync_left format out.old) }
{
    CountAnswer::from(sync::put_sync(format, out))
}
