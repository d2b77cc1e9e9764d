// The five blocks, assembled one behind the other in one room of 47,950 bytes.
ghost use Rattle.std.specs.Prelude.{◌≤◌};

use crate::ROOM;
use blocks::assembly::Assembly;
use blocks::block::{CALIBRATION_1, CALIBRATION_2, MANAM, ORBIT};
use refusals::Refusal;
use std::fmt;

/// What is kept of a block: the record of its assembly, what it answered to the last segment, and how many lines it refused as of a
/// foreign revision.
#[derive(Clone, Copy, Debug)]
pub struct Kept {
    pub assembly: Assembly,
    pub answer: Result<(), Refusal>,
    pub foreign: u64,
}

/// That of the five, the block of number n at n - 1.
#[derive(Clone, Copy, Debug)]
pub struct Five {
    pub kept: [Kept; 5],
}

/// Where the block of a number begins in the room.
pub fn place_of(number: u8) -> usize
    ensures { result ≤ 22350 }
{
    match number {
        ORBIT => 2500,
        MANAM => 5700,
        CALIBRATION_1 => 15950,
        CALIBRATION_2 => 22350,
        _ => 0,
    }
}

impl Kept {
    // A line's segment to the block. The blocks behind it are lent with it: a buffer may be longer than its block.
    fn add(&mut self, format: u8, plain: &[u8], number: u8, block: &mut [u8]) {
        match segments::add_segment(format, self.assembly, plain, number, block) {
            Ok(placed) => {
                self.assembly = placed.assembly;
                self.answer = Ok(());
            }
            Err(refusal) => {
                self.answer = Err(refusal);
                if refusal == Refusal::Revision {
                    self.foreign = self.foreign.wrapping_add(1);
                }
            }
        }
    }

    // The number of what it answered, 0 for no refusal.
    fn number(&self) -> u8 {
        refusals::number_in(self.answer)
    }
}

impl Five {
    pub fn fresh() -> Five {
        let fresh = Kept {
            assembly: blocks::assembly::fresh_assembly(),
            answer: Ok(()),
            foreign: 0,
        };
        Five { kept: [fresh; 5] }
    }

    /// A line's segment to each of the five.
    pub fn add(&mut self, format: u8, plain: &[u8], room: &mut [u8; ROOM]) {
        for (number, kept) in (1..).zip(self.kept.iter_mut()) {
            kept.add(format, plain, number, &mut room[place_of(number)..]);
        }
    }
}

// What the five answered.
impl fmt::Display for Five {
    fn fmt<W: fmt::Write>(&self, f: &mut fmt::Formatter<W>) -> fmt::Result {
        let [a, b, c, d, e] = self.kept.map(|kept| kept.number());
        write!(f, "blocks {a} {b} {c} {d} {e}")
    }
}
