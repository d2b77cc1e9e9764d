// What the two loops of a reader stand on: the definitions, and the test of a window. The loops are `tail_search` and `line_bits`.
//
// What the lines of a recording are is said in `specs/Lines.antt`; a reader bit by bit in `specs/Loops.antt`, over
// `specs/Phase.antt` (one bit) and `specs/Call.antt` (one call). The function is inner.
#![tactic(auto)]

ghost use Rattle.std.specs.Prelude.{◌≡◌};
ghost use Rattle.bits.specs.Bits.{digits};
ghost use Rattle.reader_bits.specs.Lines.{is_tail};

// The last 64 bits of SYNC.
const TAIL: u64 = 0x4bbb_b999_9555_7fff;

// Inner. Whether a window of 64 bits counts as the tail at a setting: at most so many of its bits differ. The setting 0 asks for
// the tail itself, and nothing is counted.
pub fn counts_as_tail(setting: u8, window: u64) -> bool
    ensures { result ≡ is_tail setting (digits 64 window) }
{
    if setting == 0 {
        return window == TAIL;
    }
    word_ones::ones(TAIL ^ window) <= setting as usize
}
