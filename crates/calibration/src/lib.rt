// The levels of calibration-2, out of a finished block: albedo of the visible channels and temperature of the infrared ones. Each
// comes with the revision of the tables that the block holds.
//
// The contracts cite `specs/Tables.antt` (`LevelOk`, `LevelF64Ok`). Each gives the paper's number of the answer and its values, for
// every input; refusals stand in the paper's order, and nothing is given of a block that is not finished.
//
// No public function has a `requires`. A buffer may be longer than its block.
#![tactic(auto)]

ghost use Rattle.std.specs.Prelude.{◌≡◌, ◌+◌, ◌≤◌, ◌<◌};
ghost use Rattle.calibration.specs.Tables.{Table, albedos, temperatures, level_place, LevelOk, LevelF64Ok};

use blocks::assembly::{Assembly, revision_of};
use blocks::block::CALIBRATION_2;
use entries::entry::{entry_asked, real_at};
use floats::value;
use numbers::R;
use refusals::{Refusal, within};

// A table of four channels: the byte at which it starts, the levels of one channel, and the decimal places of its R*4
// numbers.
#[derive(Clone, Copy, Debug, PartialEq, Eq)]
pub struct Levels {
    pub first: usize,
    pub levels: u16,
    pub places: u8,
}

// A level with the revision of its block, the calibration table ID; its value is an R number, or the same in f64.
#[derive(Clone, Copy, Debug, PartialEq, Eq)]
pub struct Level<V> {
    pub value: V,
    pub revision: u16,
}

// VIS1-4, R*4.6.
const ALBEDOS: Levels = Levels {
    first: 257,
    levels: 64,
    places: 6,
};

// IR1-4, R*4.3.
const TEMPERATURES: Levels = Levels {
    first: 1281,
    levels: 1024,
    places: 3,
};

// Inner. Where a level of a channel stands, counted from 1.
#[tactic(auto, using(crate::proofs::Tables::in_table, crate::proofs::Tables::place_fits))]
fn level_place(t: Levels, channel: u8, level: u16) -> usize
    requires { Table t × (1 ≤ channel) × (channel ≤ 4) × (level < t.levels) }
    ensures { (result ≡ level_place t channel level) × (1 ≤ result) × (result + 4 ≤ 25601) }
{
    let levels = t.levels as usize;
    let c = channel as usize;
    let l = level as usize;
    t.first + 4 * levels * (c - 1) + 4 * l
}

// Inner. A level of a table with the block's revision. Refused with 1, 12, 4, 10, 2, 9.
#[tactic(auto, using(refusals::proofs::Numbers::answers_err, refusals::proofs::Numbers::answers_ok, crate::proofs::Tables::level_known, crate::proofs::Tables::calibration_size), unfolding(crate::specs::Tables::level_at, crate::specs::Tables::level_refusal))]
fn level_of(
    t: Levels,
    format: u8,
    assembly: Assembly,
    block: &[u8],
    channel: u8,
    level: u16,
) -> Result<Level<R>, Refusal>
    requires { Table t }
    ensures { LevelOk t format assembly block.now channel level result }
{
    let served = within(1, 4, channel as u64, Refusal::Number);
    let last = t.levels - 1;
    let range = within(0, last as u64, level as u64, Refusal::Range);
    entry_asked(
        format,
        assembly.marks,
        CALIBRATION_2,
        served,
        range,
        block.len(),
    )?;
    let revision = revision_of(CALIBRATION_2, assembly.revisions);
    let value = real_at(block, level_place(t, channel, level), 4, t.places);
    Ok(Level { value, revision })
}

// Inner. The same in f64.
#[tactic(auto, using(refusals::proofs::Numbers::answers_err, crate::proofs::Tables::fits_given, crate::proofs::Tables::in_f64))]
fn level_f64_of(
    t: Levels,
    format: u8,
    assembly: Assembly,
    block: &[u8],
    channel: u8,
    level: u16,
) -> Result<Level<f64>, Refusal>
    requires { Table t }
    ensures { LevelF64Ok t format assembly block.now channel level result }
{
    let exact = level_of(t, format, assembly, block, channel, level)?;
    Ok(Level {
        value: value(exact.value),
        revision: exact.revision,
    })
}

// The albedo of a level 0 to 63 of VIS 1 to 4, out of a finished calibration-2 block. Refused with 1, 12, 4, 10, 2, 9.
#[tactic(auto, using(crate::proofs::Tables::albedo_table))]
pub fn albedo(
    format: u8,
    assembly: Assembly,
    block: &[u8],
    channel: u8,
    level: u16,
) -> Result<Level<R>, Refusal>
    ensures { LevelOk albedos format assembly block.now channel level result }
{
    level_of(ALBEDOS, format, assembly, block, channel, level)
}

// The same in f64.
#[tactic(auto, using(crate::proofs::Tables::albedo_table))]
pub fn albedo_f64(
    format: u8,
    assembly: Assembly,
    block: &[u8],
    channel: u8,
    level: u16,
) -> Result<Level<f64>, Refusal>
    ensures { LevelF64Ok albedos format assembly block.now channel level result }
{
    level_f64_of(ALBEDOS, format, assembly, block, channel, level)
}

// The temperature of a level 0 to 1,023 of IR 1 to 4. Refused with 1, 12, 4, 10, 2, 9.
#[tactic(auto, using(crate::proofs::Tables::temperature_table))]
pub fn temperature(
    format: u8,
    assembly: Assembly,
    block: &[u8],
    channel: u8,
    level: u16,
) -> Result<Level<R>, Refusal>
    ensures { LevelOk temperatures format assembly block.now channel level result }
{
    level_of(TEMPERATURES, format, assembly, block, channel, level)
}

// The same in f64.
#[tactic(auto, using(crate::proofs::Tables::temperature_table))]
pub fn temperature_f64(
    format: u8,
    assembly: Assembly,
    block: &[u8],
    channel: u8,
    level: u16,
) -> Result<Level<f64>, Refusal>
    ensures { LevelF64Ok temperatures format assembly block.now channel level result }
{
    level_f64_of(TEMPERATURES, format, assembly, block, channel, level)
}
