// The calls of `rack_number` for C.
ghost use Rattle.std.specs.Prelude.{◌≡◌, length};
ghost use Rattle.numbers.specs.Integers.{read_integer_answer};
ghost use Rattle.numbers.specs.Decimals.{read_bcd_answer};
ghost use Rattle.numbers.specs.Reals.{read_real_answer};
ghost use Rattle.floats.specs.Floats.{read_f64_answer};
ghost use Rattle.refusals.specs.Refusals.{answer_number};
ghost use Rattle.number_writer.specs.Written.{put_real_answer, put_real_left};
ghost use Rattle.rack_number.specs.Number.{integer_given, bcd_given, real_given, float_given};

use rack_number::{BcdAnswer, FloatAnswer, IntegerAnswer, RealAnswer};

#[unsafe(no_mangle)]
pub extern "C" fn hansobrik_read_integer(bytes: &[u8], n: usize) -> IntegerAnswer
    ensures { result ≡ integer_given (read_integer_answer n bytes.now) }
{
    rack_number::hansobrik_read_integer(bytes, n)
}

#[unsafe(no_mangle)]
pub extern "C" fn hansobrik_read_bcd(bytes: &[u8], n: usize) -> BcdAnswer
    ensures { result ≡ bcd_given (read_bcd_answer n bytes.now) }
{
    rack_number::hansobrik_read_bcd(bytes, n)
}

#[unsafe(no_mangle)]
pub extern "C" fn hansobrik_read_real(bytes: &[u8], n: usize, m: u8) -> RealAnswer
    ensures { result ≡ real_given (read_real_answer n m bytes.now) }
{
    rack_number::hansobrik_read_real(bytes, n, m)
}

#[unsafe(no_mangle)]
pub extern "C" fn hansobrik_read_f64(bytes: &[u8], n: usize, m: u8) -> FloatAnswer
    ensures { result ≡ float_given (read_f64_answer n m bytes.now) }
{
    rack_number::hansobrik_read_f64(bytes, n, m)
}

#[unsafe(no_mangle)]
pub extern "C" fn hansobrik_put_real(
    negative: bool,
    magnitude: u64,
    n: usize,
    m: u8,
    out: &mut [u8],
) -> u8
    ensures { (result ≡ answer_number (put_real_answer magnitude n m (length out.old))) × (out.new ≡ put_real_left negative magnitude n m out.old) }
{
    rack_number::hansobrik_put_real(negative, magnitude, n, m, out)
}
