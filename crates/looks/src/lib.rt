// What a program says of a line: how many of its sectors are accepted, and the sum of its IR1 pixels of ten bits.
//
// What a sector and a pixel are is proved of `sectors` and `channels`; of these functions it is proved that they are safe and end.
#![tactic(auto)]

use refusals::Refusal;
use std::fmt;

/// How many of the twelve sectors are accepted, each divided once.
pub fn goods(format: u8, line: &[u8]) -> usize {
    match sectors::check::answers(format, line) {
        Ok(answers) => answers.iter().filter(|answer| answer.is_ok()).count(),
        Err(_) => 0,
    }
}

/// What is seen of a line: how many sectors are accepted, and the sum of its IR1 pixels, or what refuses them.
#[derive(Clone, Copy, Debug, PartialEq, Eq)]
pub struct Look {
    pub good: usize,
    pub sum: Result<u64, Refusal>,
}

impl Look {
    pub fn of(format: u8, line: &[u8]) -> Look {
        Look {
            good: goods(format, line),
            sum: sum(format, line),
        }
    }
}

// The sum of the IR1 pixels.
fn sum(format: u8, line: &[u8]) -> Result<u64, Refusal> {
    let mut pixels = [0u16; 2291];
    channels::join::joined(format, line, 1, &mut pixels)?;
    Ok(
        pixels
            .iter()
            .fold(0, |sum: u64, pixel| sum.wrapping_add(u64::from(*pixel))),
    )
}

impl fmt::Display for Look {
    fn fmt<W: fmt::Write>(&self, f: &mut fmt::Formatter<W>) -> fmt::Result {
        let good = self.good;
        match self.sum {
            Ok(sum) => write!(f, "good {good} sum {sum}"),
            Err(refusal) => write!(f, "good {good} sum {refusal}"),
        }
    }
}
