// What refuses a call of the reader: the format, the setting, the record and the buffer.
//
// The contracts cite `specs/Refusing.antt`. All functions are inner, and none has a `requires`.
#![tactic(auto)]

ghost use Rattle.std.specs.Prelude.{◌≡◌};
ghost use Rattle.refusals.specs.Refusals.{answer_number};
ghost use Rattle.reader_refusals.specs.Refusing.{setting_refusal, read_refusal};

use formats::Format;
use reader_record::State;
use refusals::Refusal;

// The largest setting: that many of a window's 64 bits may differ from the tail.
pub const LARGEST_SETTING: u8 = 6;

// Inner. Refuses, with 13, a setting above the largest.
pub fn setting_refusal(setting: u8) -> Result<(), Refusal>
    ensures { answer_number result ≡ setting_refusal setting }
{
    refusals::within(0, LARGEST_SETTING as u64, setting as u64, Refusal::Setting)
}

// Inner. What refuses a call with a record and a buffer of so many bytes.
#[tactic(auto, using(refusals::proofs::Numbers::refused_first, refusals::proofs::Numbers::passed_first), unfolding(crate::specs::Refusing::read_refusal))]
pub fn read_refusal(format: u8, setting: u8, state: State, given: usize) -> Result<(), Refusal>
    ensures { answer_number result ≡ read_refusal format setting state given }
{
    formats::format_refusal(format)?;
    setting_refusal(setting)?;
    reader_record::impossible(state)?;
    refusals::enough(given, Format::LINE_BYTES, Refusal::ShortInput)
}
