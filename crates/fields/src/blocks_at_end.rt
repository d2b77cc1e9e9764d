// The five blocks at the end of a recording: how many of its 25 segments each has, the revision of a finished one, and how many
// lines were foreign to it; and of the finished ones the corners and a point of the map, the orbital elements, and the first, a
// middle and the last level of each channel.
use crate::ROOM;
use crate::five::{Five, Kept, place_of};
use crate::said::{Decimal, Said};
use blocks::assembly::Assembly;
use blocks::block::{CALIBRATION_1, CALIBRATION_2, MANAM, MAPPING, ORBIT};
use blocks::marks::ALL;
use grid_points::Grid;
use std::fmt;
use text::Stop;

// The row of a block: its name, how many segments it has, its revision where it is finished and has one, and how many lines were
// foreign to it. HiRID has no calibration-2.
#[derive(Clone, Copy)]
struct Row {
    format: u8,
    number: u8,
    segments: u32,
    revision: Option<u16>,
    foreign: u64,
}

impl Row {
    fn of(format: u8, number: u8, kept: &Kept, block: &[u8]) -> Row {
        Row {
            format,
            number,
            segments: kept.assembly.marks.segments.count_ones(),
            revision: entries::revision::revision(format, kept.assembly, number, block).ok(),
            foreign: kept.foreign,
        }
    }

    fn name(&self) -> &'static str {
        match self.number {
            MAPPING => "mapping",
            ORBIT => "orbit",
            MANAM => "MANAM",
            CALIBRATION_1 => "calibration-1",
            _ => "calibration-2",
        }
    }
}

impl fmt::Display for Row {
    fn fmt<W: fmt::Write>(&self, f: &mut fmt::Formatter<W>) -> fmt::Result {
        let name = self.name();
        let segments = self.segments;
        let foreign = self.foreign;
        if self.number == CALIBRATION_2 && self.format == 2 {
            write!(f, "{name} not in HiRID")?;
        } else {
            write!(f, "{name} {segments}/25")?;
        }
        if let Some(revision) = self.revision {
            write!(f, " revision {revision}")?;
        }
        if foreign > 0 {
            write!(f, " foreign {foreign}")?;
        }
        Ok(())
    }
}

// Degrees, and on which side of 0 they are.
#[derive(Clone, Copy)]
struct Degrees {
    degrees: i16,
    above: &'static str,
    below: &'static str,
}

impl fmt::Display for Degrees {
    fn fmt<W: fmt::Write>(&self, f: &mut fmt::Formatter<W>) -> fmt::Result {
        let away = text::magnitude(i32::from(self.degrees));
        let side = if self.degrees < 0 {
            self.below
        } else {
            self.above
        };
        write!(f, "{away} {side}")
    }
}

// A point of the map.
#[derive(Clone, Copy)]
struct Point(Grid);

impl fmt::Display for Point {
    fn fmt<W: fmt::Write>(&self, f: &mut fmt::Formatter<W>) -> fmt::Result {
        let Grid {
            line,
            pixel,
            latitude,
            longitude,
        } = self.0;
        let latitude = Degrees {
            degrees: latitude,
            above: "north",
            below: "south",
        };
        let longitude = Degrees {
            degrees: longitude,
            above: "east",
            below: "west",
        };
        write!(
            f,
            "line {line} pixel {pixel} latitude {latitude} longitude {longitude}"
        )
    }
}

// The corners of the map, and a point within.
fn mapping(rt: &HostRuntime, format: u8, a: Assembly, block: &[u8]) -> Result<(), Stop> {
    for (row, column) in [(0, 0), (0, 24), (24, 0), (24, 24), (12, 13)] {
        let point = Said(entries::mapping::mapping(format, a, block, row, column).map(Point));
        text::row(
            rt,
            format_args!("mapping row {row} column {column} {point}"),
        )?;
    }
    Ok(())
}

// An orbital element with its decimal places, exactly as the block has it: R*6 numbers from byte 157 on.
fn element(block: &[u8], i: u8, places: u8) -> Said<Decimal> {
    let number = block.get(156 + 6 * usize::from(i)..).unwrap_or(&[]);
    Said(numbers::read_real(number, 6, places).map(Decimal))
}

// The elements, in the order in which `entries::orbit::elements` gives them.
fn orbit(rt: &HostRuntime, format: u8, a: Assembly, block: &[u8]) -> Result<(), Stop> {
    match entries::orbit::elements(format, a, block) {
        Ok(_) => text::row(
            rt,
            format_args!(
                "orbit epoch {} axis {} eccentricity {} inclination {} node {} perigee {} anomaly {}",
                element(block, 0, 8),
                element(block, 1, 8),
                element(block, 2, 10),
                element(block, 3, 8),
                element(block, 4, 8),
                element(block, 5, 8),
                element(block, 6, 8),
            ),
        ),
        Err(refusal) => text::row(rt, format_args!("orbit {refusal}")),
    }
}

// Three levels of each of the four visible channels, and of each of the four infrared ones.
fn levels(rt: &HostRuntime, format: u8, a: Assembly, block: &[u8]) -> Result<(), Stop> {
    for channel in 1..5 {
        for level in [0, 32, 63] {
            let albedo = calibration::albedo(format, a, block, channel, level);
            let value = Said(albedo.map(|level| Decimal(level.value)));
            text::row(
                rt,
                format_args!("albedo VIS{channel} level {level} {value}"),
            )?;
        }
    }
    for channel in 1..5 {
        for level in [0, 512, 1023] {
            let temperature = calibration::temperature(format, a, block, channel, level);
            let value = Said(temperature.map(|level| Decimal(level.value)));
            text::row(
                rt,
                format_args!("temperature IR{channel} level {level} {value}"),
            )?;
        }
    }
    Ok(())
}

// Some entries of a block.
fn entries(
    rt: &HostRuntime,
    format: u8,
    number: u8,
    a: Assembly,
    block: &[u8],
) -> Result<(), Stop> {
    match number {
        MAPPING => mapping(rt, format, a, block),
        ORBIT => orbit(rt, format, a, block),
        CALIBRATION_2 => levels(rt, format, a, block),
        _ => Ok(()),
    }
}

/// The rows of all five, and then some entries of the finished ones. The other blocks stand behind a block in what is lent.
pub fn show(rt: &HostRuntime, format: u8, five: &Five, room: &[u8; ROOM]) -> Result<(), Stop> {
    for (number, kept) in (1..).zip(five.kept.iter()) {
        let row = Row::of(format, number, kept, &room[place_of(number)..]);
        text::row(rt, row)?;
    }
    for (number, kept) in (1..).zip(five.kept.iter()) {
        if kept.assembly.marks.segments == ALL {
            entries(rt, format, number, kept.assembly, &room[place_of(number)..])?;
        }
    }
    Ok(())
}
