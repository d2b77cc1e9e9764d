// SYNC of a format, put on the wire.
//
// The contracts cite `specs/Put.antt`, over `SYNC` of the crate `scramble`. `put_sync` asks nothing of its caller; `before_sync` is
// inner.
#![tactic(auto)]

ghost use Rattle.std.specs.Prelude.{◌≡◌};
ghost use Rattle.sync.specs.Put.{before_sync, PutSyncOk, put_sync_left};

use formats::Format;
use refusals::Refusal;
use scramble::Register;

// The registers from which SYNC's 10,000 and 20,000 bits lead to fifteen ones.
const BEFORE_1: u16 = 0x339f;

const BEFORE_2: u16 = 0x61df;

// Inner. The register before the first bit of a format's SYNC, by SYNC's length: a format with the SYNC of another begins
// where that one does.
#[tactic(auto, unfolding(crate::specs::Put::before_sync))]
pub fn before_sync(f: Format) -> Register
    ensures { result.bits ≡ before_sync f.sync }
{
    if f.sync == Format::SYNC_BITS_1 {
        Register { bits: BEFORE_1 }
    } else {
        Register { bits: BEFORE_2 }
    }
}

// SYNC of a format, put at the front of out; the bytes of out past it stay. Refused with 1 for the format, and with 3
// where out is shorter than SYNC.
pub fn put_sync(format: u8, out: &mut [u8]) -> Result<usize, Refusal>
    ensures { PutSyncOk format out.old result × (out.new ≡ put_sync_left format out.old) }
{
    let f = Format::of(format)?;
    let bytes = f.sync / 8;
    refusals::enough(out.len(), bytes, Refusal::ShortOutput)?;
    sync_bits::put_scrambling(out, 0, f.sync, before_sync(f));
    Ok(bytes)
}
