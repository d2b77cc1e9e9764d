// The five blocks: how many bytes each has, and where its segments stand in the documentation sector.
ghost use Rattle.std.specs.Prelude.{◌≡◌};
ghost use Rattle.refusals.specs.Refusals.{answer_number};
ghost use Rattle.blocks.specs.Blocks.{block_of, block_refusal};

use refusals::{Refusal, within};

pub const MAPPING: u8 = 1;

pub const ORBIT: u8 = 2;

pub const MANAM: u8 = 3;

pub const CALIBRATION_1: u8 = 4;

// In format 1 only.
pub const CALIBRATION_2: u8 = 5;

// A block: its bytes in all, and the sector byte, from 1 and with the ID, at which its segments start.
#[derive(Clone, Copy, Debug, PartialEq, Eq)]
pub struct Block {
    pub size: usize,
    pub first: usize,
}

// Every block comes in as many segments.
pub const SEGMENTS: usize = 25;

// Inner. The block of a number; one of no bytes where there is none. It is no `Option`: callers have refused such a number before,
// and would have to open what cannot be `None` there.
#[tactic(auto, using(crate::proofs::Rows::no_block), unfolding(crate::specs::Blocks::block_of, crate::specs::Blocks::blocks))]
pub fn block_of(number: u8) -> Block
    ensures { result ≡ block_of number }
{
    match number {
        MAPPING => Block {
            size: 2500,
            first: 197,
        },
        ORBIT => Block {
            size: 3200,
            first: 297,
        },
        MANAM => Block {
            size: 10250,
            first: 425,
        },
        CALIBRATION_1 => Block {
            size: 6400,
            first: 835,
        },
        CALIBRATION_2 => Block {
            size: 25600,
            first: 1091,
        },
        _ => Block { size: 0, first: 0 },
    }
}

// Inner. Refuses, with 4, where the block number is not one from 1 to 5, and calibration-2 in format 2.
#[tactic(auto, using(refusals::proofs::Numbers::refused_first, refusals::proofs::Numbers::passed_first), unfolding(crate::specs::Blocks::block_refusal, refusals::specs::Refusals::when))]
pub fn block_refusal(format: u8, number: u8) -> Result<(), Refusal>
    ensures { answer_number result ≡ block_refusal format number }
{
    within(1, 5, number as u64, Refusal::Number)?;
    if number == CALIBRATION_2 && format == 2 {
        Err(Refusal::Number)
    } else {
        Ok(())
    }
}
