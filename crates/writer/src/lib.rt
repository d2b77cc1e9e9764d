// The writer: one plain line to the wire, as SYNC, the 44,356 bytes of the line complemented and scrambled without a
// restart, and in format 2 the dummy.
//
// The contract cites `specs/Wire.antt`: `on_wire` is one line on the wire, and `WriteLineOk` and `write_line_left` say what the
// call answers and leaves in its output, for every input. `write_line` has no `requires`.
#![tactic(auto)]

ghost use Rattle.std.specs.Prelude.{◌≡◌, ◌++◌, ◌*◌, take, drop};
ghost use Rattle.bits.specs.Bits.{bits_of};
ghost use Rattle.writer.specs.Wire.{on_wire, WriteLineOk, write_line_left, CanPut};

use formats::Format;
use refusals::Refusal;
use scramble::Register;

// Inner. SYNC, the line and the dummy, plain as they are, and then line and dummy put on the wire in one go: the scrambling bits
// and the groups of eight go on through both.
#[tactic(auto, using(sync::proofs::Opening::before_small))]
fn put_line(f: Format, line: &[u8], out: &mut [u8])
    requires { CanPut f line.now out.old }
    ensures { bits_of out.new ≡ on_wire f (bits_of (take 44356 line.now)) ++ drop (f.bytes * 8) (bits_of out.old) }
{
    let sync_bits = f.sync;
    let first = sync_bits / 8;
    let last = first + Format::LINE_BYTES;
    let dummy = f.dummy;
    sync_bits::put_scrambling(out, 0, sync_bits, sync::before_sync(f));
    octets::copy(line, 0, Format::LINE_BYTES, out, first);
    octets::fill(0, dummy / 8, out, last);
    let start = Register {
        bits: scramble::FIFTEEN_ONES,
    };
    wire_bits::mix(out, sync_bits, Format::INFORMATION_BITS + dummy, 0, start);
}

// One plain line, the first 44,356 bytes of line, put on the wire at the front of out: 45,606 bytes in format 1 and 49,500
// in format 2; the bytes of out past them stay. Refused with 1 for the format, 2 for a short line, 3 for a short output.
pub fn write_line(format: u8, line: &[u8], out: &mut [u8]) -> Result<usize, Refusal>
    ensures { WriteLineOk format line.now out.old result × (out.new ≡ write_line_left format line.now out.old) }
{
    let f = Format::of(format)?;
    refusals::enough(line.len(), Format::LINE_BYTES, Refusal::ShortInput)?;
    refusals::enough(out.len(), f.bytes, Refusal::ShortOutput)?;
    put_line(f, line, out);
    Ok(f.bytes)
}
