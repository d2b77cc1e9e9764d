// The formats of a recording, S-VISSR 2.0, HiRID, and S-VISSR 2.0 with a check that starts from ones, with what belongs to a format
// as its named constants: the lengths of one line on the wire, and the start value of the check.
//
// The contracts cite `specs/Formats.antt`. No public function has a `requires`.
#![tactic(auto)]

ghost use Rattle.std.specs.Prelude.{◌≡◌};
ghost use Rattle.refusals.specs.Refusals.{answer_number};
ghost use Rattle.formats.specs.Formats.{svissr, hirid, svissr_ones, format_refusal, check_start, FormatOk};

use refusals::Refusal;

// A format: its number, the bits of the three parts of one line on the wire, the bytes of them all, and the start value of
// the check of its sectors.
#[derive(Clone, Copy, Debug, PartialEq, Eq)]
pub struct Format {
    pub number: u8,
    pub sync: usize,
    pub information: usize,
    pub dummy: usize,
    pub bytes: usize,
    pub check_start: u16,
}

impl Format {
    pub const SYNC_BITS_1: usize = 10000;

    pub const SYNC_BITS_2: usize = 20000;

    pub const SYNC_BITS_3: usize = Self::SYNC_BITS_1;

    // All formats carry the same twelve sectors.
    pub const INFORMATION_BITS: usize = 354848;

    pub const DUMMY_BITS_1: usize = 0;

    pub const DUMMY_BITS_2: usize = 21152;

    pub const DUMMY_BITS_3: usize = Self::DUMMY_BITS_1;

    // One plain line in a buffer.
    pub const LINE_BYTES: usize = Self::INFORMATION_BITS / 8;

    pub const BYTES_1: usize = (Self::SYNC_BITS_1 + Self::INFORMATION_BITS + Self::DUMMY_BITS_1)
        / 8;

    pub const BYTES_2: usize = (Self::SYNC_BITS_2 + Self::INFORMATION_BITS + Self::DUMMY_BITS_2)
        / 8;

    pub const BYTES_3: usize = (Self::SYNC_BITS_3 + Self::INFORMATION_BITS + Self::DUMMY_BITS_3)
        / 8;

    // No preset: the sources name only the polynomial.
    pub const CHECK_START_1: u16 = 0;

    pub const CHECK_START_2: u16 = 0;

    // The card presets its check register with sixteen ones.
    pub const CHECK_START_3: u16 = 0xffff;

    // S-VISSR 2.0, format 1.
    pub fn svissr() -> Self
        ensures { result ≡ svissr }
    {
        Self {
            number: 1,
            sync: Self::SYNC_BITS_1,
            information: Self::INFORMATION_BITS,
            dummy: Self::DUMMY_BITS_1,
            bytes: Self::BYTES_1,
            check_start: Self::CHECK_START_1,
        }
    }

    // HiRID, format 2.
    pub fn hirid() -> Self
        ensures { result ≡ hirid }
    {
        Self {
            number: 2,
            sync: Self::SYNC_BITS_2,
            information: Self::INFORMATION_BITS,
            dummy: Self::DUMMY_BITS_2,
            bytes: Self::BYTES_2,
            check_start: Self::CHECK_START_2,
        }
    }

    // S-VISSR 2.0 with a check that starts from ones, format 3.
    pub fn svissr_ones() -> Self
        ensures { result ≡ svissr_ones }
    {
        Self {
            number: 3,
            sync: Self::SYNC_BITS_3,
            information: Self::INFORMATION_BITS,
            dummy: Self::DUMMY_BITS_3,
            bytes: Self::BYTES_3,
            check_start: Self::CHECK_START_3,
        }
    }

    // The format of a number; refused with 1 where the number is none of 1, 2, 3.
    pub fn of(number: u8) -> Result<Self, Refusal>
        ensures { FormatOk number result }
    {
        match number {
            1 => Ok(Self::svissr()),
            2 => Ok(Self::hirid()),
            3 => Ok(Self::svissr_ones()),
            _ => Err(Refusal::Format),
        }
    }
}

// Inner. Refuses, with 1, where the format is none of 1, 2, 3.
pub fn format_refusal(format: u8) -> Result<(), Refusal>
    ensures { answer_number result ≡ format_refusal format }
{
    Format::of(format)?;
    Ok(())
}

// Inner. The start value of the check in a format; 0 where the number names none.
pub fn check_start(format: u8) -> u16
    ensures { result ≡ check_start format }
{
    match Format::of(format) {
        Ok(named) => named.check_start,
        Err(_) => 0,
    }
}
