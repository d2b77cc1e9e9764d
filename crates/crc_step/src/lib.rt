// One step of the division by x^16 + x^12 + x^5 + 1 over two elements, also with a bit of the start value put on the bit.
//
// The contracts cite `specs/Remainder.antt`, the remainder as it is computed bit by bit. All functions here are inner.
#![tactic(auto)]

ghost use Rattle.std.specs.Prelude.{◌≡◌, ◌+◌, ◌*◌, ◌/◌, ◌%◌, ◌^◌, ◌<◌};
ghost use Rattle.crc_step.specs.Remainder.{next};

// Inner. One bit more: the remainder goes one place up, and where a bit goes out at the top the divisor goes off.
pub fn step(rem: u16, bit: u8) -> u16
    requires { bit < 2 }
    ensures { result ≡ next rem bit }
{
    let up = (rem << 1) | bit as u16;
    if rem >> 15 == 1 { up ^ 0x1021 } else { up }
}

// A remainder, and what is left of the start value behind the bits that it is of.
#[derive(Clone, Copy)]
pub struct Running {
    pub rem: u16,
    pub start: u16,
}

// Inner. One bit more, the highest bit of the start value put on it.
pub fn stepped(a: Running, bit: u8) -> Running
    requires { bit < 2 }
    ensures { (result.rem ≡ next a.rem ((bit + a.start / 2 ^ 15) % 2)) × (result.start ≡ a.start * 2 % 2 ^ 16) }
{
    Running {
        rem: step(a.rem, bit ^ (a.start >> 15) as u8),
        start: a.start << 1,
    }
}
