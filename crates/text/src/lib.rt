// A row of text, written in one write; how a program stops before it has done all, and what it then says on standard error.
//
// A row is what its parts say of themselves by `Display`. The library puts it together in a buffer of 1,024 bytes and writes it in one
// write, so that the rows of two programs on one terminal do not mix, and no row is half there; the longest row of our programs has
// some 300 bytes. Of these functions it is proved that they are safe and end. What they write is compared with the second decoder.
#![tactic(auto)]

ghost use Rattle.std.specs.Prelude.{◌≡◌, nat_abs};

use std::io;

mod stop;

pub use stop::{Stop, end, fail, row, told};

/// How far a number is from 0.
pub fn magnitude(n: i32) -> u64
    ensures { result ≡ nat_abs n }
{
    u64::from(n.unsigned_abs())
}
