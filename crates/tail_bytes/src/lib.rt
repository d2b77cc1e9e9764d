// Whether a whole byte can be passed over in the search for the tail: a test of the bits before it that asks nothing of the byte itself.
//
// The contracts cite `specs/Clear.antt`, over the definitions of `reader_bits`. The functions are inner.
#![tactic(auto)]

ghost use Rattle.std.specs.Prelude.{◌≡◌, true, ◌<◌, ◌^◌, ltb};
ghost use Rattle.tail_bytes.specs.Clear.{Clear, unlike};

use word_ones::ones;

// The tail without its last bit.
const ONE_LESS: u64 = 0x25dd_dccc_caaa_bfff;

// Places in which the tail without its last bit, three, five and seven has the same bits. It is made of runs with a short period, so
// there are 25 of them, and one more, the lowest, which the bits moved up by one do not have.
const PLACES: u64 = 0x0015_5400_007f_eafe;

// Whether a word differs there in more places than the setting says.
fn far(setting: u8, word: u64) -> bool
    ensures { result ≡ ltb setting (unlike word) }
{
    ones((word ^ ONE_LESS) & PLACES) > setting as usize
}

// Inner. Whether no window that ends in the next byte can count as the tail at a setting, whatever that byte is. At the setting 0
// the last seven bits are compared: the tail ends with fifteen ones, so each such window has seven of them before the byte. Above
// it the places that differ are counted, among those that four windows have in common; and of the other four, which are those
// of the bits moved up by one.
pub fn passes(setting: u8, remembered: u64) -> bool
    requires { remembered < 2 ^ 63 }
    ensures { result ≡ true → Clear setting remembered 8 }
{
    if setting == 0 {
        return (remembered & 0x7f) != 0x7f;
    }
    if !far(setting, remembered) {
        return false;
    }
    far(setting, remembered << 1)
}
