// The two bytes that name a way of scanning: scan mode and scanner select. A byte that names none is kept.
ghost use Rattle.std.specs.Prelude.{◌≡◌};
ghost use Rattle.document.specs.Modes.{mode_of, ScanModeOk, mirror_of, ScannerSelectOk};

use crate::place::{doc_byte, doc_refusal};
use refusals::Refusal;

// How the scan goes: full disk, the preset lines only, or a single line.
#[derive(Clone, Copy, Debug, PartialEq, Eq)]
pub enum ScanMode {
    Full,
    Limited,
    Single,
    Unnamed(u8),
}

// Which mirror scans: 1-A, 1-B, 2-A or 2-B.
#[derive(Clone, Copy, Debug, PartialEq, Eq)]
pub enum Mirror {
    OneA,
    OneB,
    TwoA,
    TwoB,
    Unnamed(u8),
}

// The scan mode that a byte names.
impl From<u8> for ScanMode {
    ghost from_gives = { λ byte mode. mode ≡ mode_of byte };

    fn from(byte: u8) -> Self {
        match byte {
            0x00 => Self::Full,
            0x0F => Self::Limited,
            0xFF => Self::Single,
            other => Self::Unnamed(other),
        }
    }
}

// The mirror that a byte names.
impl From<u8> for Mirror {
    ghost from_gives = { λ byte mirror. mirror ≡ mirror_of byte };

    fn from(byte: u8) -> Self {
        match byte {
            0xFF => Self::OneA,
            0xF0 => Self::OneB,
            0x00 => Self::TwoA,
            0x0F => Self::TwoB,
            other => Self::Unnamed(other),
        }
    }
}

// The scan mode, sector byte 3; refused with 1, 2, 5, 6. No byte is refused.
#[tactic(auto, using(refusals::proofs::Numbers::answers_err, refusals::proofs::Numbers::answers_ok, crate::proofs::Known::doc_long, crate::proofs::Named::mode_both))]
pub fn scan_mode(format: u8, line: &[u8]) -> Result<ScanMode, Refusal>
    ensures { ScanModeOk format line.now result }
{
    doc_refusal(format, line)?;
    Ok(doc_byte(line, 3).into())
}

// Scanner select, sector byte 67; refused with 1, 2, 5, 6. No byte is refused.
#[tactic(auto, using(refusals::proofs::Numbers::answers_err, refusals::proofs::Numbers::answers_ok, crate::proofs::Known::doc_long, crate::proofs::Named::mirror_both))]
pub fn scanner_select(format: u8, line: &[u8]) -> Result<Mirror, Refusal>
    ensures { ScannerSelectOk format line.now result }
{
    doc_refusal(format, line)?;
    Ok(doc_byte(line, 67).into())
}
