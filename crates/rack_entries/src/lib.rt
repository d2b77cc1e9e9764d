// The entries of a finished block, for C and Rust. Each function hands its numbers and its slice on to the call of the same name in
// `entries` or `calibration` and lays that call's answer out as one struct of numbers: `refused` is 0 or the number of the refusal,
// and a refused answer has 0 in every other field. The record of an assembly is that of `rack_blocks`.
//
// Structs with a number beside values are the C interface.
//
// The contracts cite `specs/Entry.antt`, over the definitions of the calls themselves. No function has a `requires`: nothing checks a
// caller in C.
//
// A slice crosses as a pointer and a count.
#![tactic(auto)]

ghost use Rattle.std.specs.Prelude.{◌≡◌};
ghost use Rattle.entries.specs.Entries.{mapping_answer, elements_answer};
ghost use Rattle.calibration.specs.Tables.{albedos, temperatures, level_answer, level_f64_answer};
ghost use Rattle.rack_blocks.specs.Assembly.{assembly_of};
ghost use Rattle.rack_entries.specs.Entry.{level_given, level_f64_given, grid_given, orbit_given};

use blocks::assembly::Assembly;
use calibration::Level;
use entries::orbit::Orbit;
use grid_points::Grid;
use numbers::R;
use rack_blocks::AssemblyRecord;
use refusals::Refusal;

// A level of calibration-2 as sign, magnitude and decimal places, with the block's revision.
#[repr(C)]
#[derive(Clone, Copy)]
pub struct LevelAnswer {
    pub refused: u8,
    pub negative: bool,
    pub places: u8,
    pub revision: u16,
    pub magnitude: u64,
}

// The same in f64.
#[repr(C)]
#[derive(Clone, Copy)]
pub struct LevelFloatAnswer {
    pub refused: u8,
    pub revision: u16,
    pub value: f64,
}

// A point of the mapping grid: image line and pixel, degrees north and degrees east.
#[repr(C)]
#[derive(Clone, Copy)]
pub struct GridAnswer {
    pub refused: u8,
    pub line: u16,
    pub pixel: u16,
    pub latitude: i16,
    pub longitude: i16,
}

// The orbital elements.
#[repr(C)]
#[derive(Clone, Copy)]
pub struct OrbitAnswer {
    pub refused: u8,
    pub epoch: f64,
    pub axis: f64,
    pub eccentricity: f64,
    pub inclination: f64,
    pub node: f64,
    pub perigee: f64,
    pub anomaly: f64,
}

// A point of the grid as it crosses the boundary.
#[tactic(auto, unfolding(crate::specs::Entry::grid_given))]
impl From<Result<Grid, Refusal>> for GridAnswer {
    ghost from_gives = { λ a given. given ≡ grid_given a };

    fn from(a: Result<Grid, Refusal>) -> Self {
        match a {
            Ok(point) => Self {
                refused: 0,
                line: point.line,
                pixel: point.pixel,
                latitude: point.latitude,
                longitude: point.longitude,
            },
            Err(refusal) => Self {
                refused: refusal.number(),
                line: 0,
                pixel: 0,
                latitude: 0,
                longitude: 0,
            },
        }
    }
}

// A point of the mapping grid; refused with 1, 12, 10, 2, 9.
pub fn hansobrik_mapping(
    format: u8,
    assembly: AssemblyRecord,
    block: &[u8],
    row: u16,
    column: u16,
) -> GridAnswer
    ensures { result ≡ grid_given (mapping_answer format (assembly_of assembly).marks block.now row column) }
{
    GridAnswer::from(entries::mapping::mapping(
        format,
        Assembly::from(assembly),
        block,
        row,
        column,
    ))
}

// A level as it crosses the boundary.
#[tactic(auto, unfolding(crate::specs::Entry::level_given))]
impl From<Result<Level<R>, Refusal>> for LevelAnswer {
    ghost from_gives = { λ a given. given ≡ level_given a };

    fn from(a: Result<Level<R>, Refusal>) -> Self {
        match a {
            Ok(level) => Self {
                refused: 0,
                negative: level.value.negative,
                places: level.value.places,
                revision: level.revision,
                magnitude: level.value.magnitude,
            },
            Err(refusal) => Self {
                refused: refusal.number(),
                negative: false,
                places: 0,
                revision: 0,
                magnitude: 0,
            },
        }
    }
}

// The same in f64.
#[tactic(auto, unfolding(crate::specs::Entry::level_f64_given))]
impl From<Result<Level<f64>, Refusal>> for LevelFloatAnswer {
    ghost from_gives = { λ a given. given ≡ level_f64_given a };

    fn from(a: Result<Level<f64>, Refusal>) -> Self {
        match a {
            Ok(level) => Self {
                refused: 0,
                revision: level.revision,
                value: level.value,
            },
            Err(refusal) => Self {
                refused: refusal.number(),
                revision: 0,
                value: 0.0,
            },
        }
    }
}

// The albedo of a level of VIS 1 to 4; refused with 1, 12, 4, 10, 2, 9.
pub fn hansobrik_albedo(
    format: u8,
    assembly: AssemblyRecord,
    block: &[u8],
    channel: u8,
    level: u16,
) -> LevelAnswer
    ensures { result ≡ level_given (level_answer albedos format (assembly_of assembly) block.now channel level) }
{
    LevelAnswer::from(calibration::albedo(format, Assembly::from(assembly), block, channel, level))
}

// The same in f64.
pub fn hansobrik_albedo_f64(
    format: u8,
    assembly: AssemblyRecord,
    block: &[u8],
    channel: u8,
    level: u16,
) -> LevelFloatAnswer
    ensures { result ≡ level_f64_given (level_f64_answer albedos format (assembly_of assembly) block.now channel level) }
{
    LevelFloatAnswer::from(calibration::albedo_f64(
        format,
        Assembly::from(assembly),
        block,
        channel,
        level,
    ))
}

// The temperature of a level of IR 1 to 4; refused with 1, 12, 4, 10, 2, 9.
pub fn hansobrik_temperature(
    format: u8,
    assembly: AssemblyRecord,
    block: &[u8],
    channel: u8,
    level: u16,
) -> LevelAnswer
    ensures { result ≡ level_given (level_answer temperatures format (assembly_of assembly) block.now channel level) }
{
    LevelAnswer::from(calibration::temperature(
        format,
        Assembly::from(assembly),
        block,
        channel,
        level,
    ))
}

// The same in f64.
pub fn hansobrik_temperature_f64(
    format: u8,
    assembly: AssemblyRecord,
    block: &[u8],
    channel: u8,
    level: u16,
) -> LevelFloatAnswer
    ensures { result ≡ level_f64_given (level_f64_answer temperatures format (assembly_of assembly) block.now channel level) }
{
    LevelFloatAnswer::from(calibration::temperature_f64(
        format,
        Assembly::from(assembly),
        block,
        channel,
        level,
    ))
}

// The orbital elements as they cross the boundary.
#[tactic(auto, unfolding(crate::specs::Entry::orbit_given))]
impl From<Result<Orbit, Refusal>> for OrbitAnswer {
    ghost from_gives = { λ a given. given ≡ orbit_given a };

    fn from(a: Result<Orbit, Refusal>) -> Self {
        match a {
            Ok(orbit) => Self {
                refused: 0,
                epoch: orbit.epoch,
                axis: orbit.axis,
                eccentricity: orbit.eccentricity,
                inclination: orbit.inclination,
                node: orbit.node,
                perigee: orbit.perigee,
                anomaly: orbit.anomaly,
            },
            Err(refusal) => Self {
                refused: refusal.number(),
                epoch: 0.0,
                axis: 0.0,
                eccentricity: 0.0,
                inclination: 0.0,
                node: 0.0,
                perigee: 0.0,
                anomaly: 0.0,
            },
        }
    }
}

// The orbital elements; refused with 1, 12, 2, 9.
pub fn hansobrik_elements(format: u8, assembly: AssemblyRecord, block: &[u8]) -> OrbitAnswer
    ensures { result ≡ orbit_given (elements_answer format (assembly_of assembly).marks block.now) }
{
    OrbitAnswer::from(entries::orbit::elements(format, Assembly::from(assembly), block))
}
