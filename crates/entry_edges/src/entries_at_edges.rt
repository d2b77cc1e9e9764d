// The entries of the blocks at their edges: the first and last that a finished block has, and the first past them; the revision of
// each block; and a segment of another revision, offered to an assembly that has it. The blocks are of zeros, and so is the line:
// its documentation sector is accepted, and carries segment 0 under the numbers 0.
use blocks::assembly::{Assembly, Revisions};
use blocks::marks::{ALL, Marks};
use refusals::Refusal;

// The marks of a block that lacks its last segment.
const UNFINISHED: u32 = 0xFF_FFFF;

// A mark above 24.
const IMPOSSIBLE: u32 = 0x200_0000;

/// A row with the number of a refusal, 0 for none.
pub fn told<T: Copy>(rt: &HostRuntime, name: &str, answer: Result<T, Refusal>) {
    let refusal = refusals::number_in(answer);
    let _ = text::row(rt, format_args!("{name}: refusal {refusal}"));
}

// The record of an assembly with these marks and numbers.
fn record(segments: u32, calibration: u16, manam: u16) -> Assembly {
    Assembly {
        marks: Marks { segments },
        revisions: Revisions { calibration, manam },
    }
}

fn point(rt: &HostRuntime, name: &str, segments: u32, row: u16, column: u16) {
    let block = [0; 2500];
    let point = entries::mapping::mapping(1, record(segments, 0, 0), &block, row, column);
    told(rt, name, point);
}

fn albedo(rt: &HostRuntime, name: &str, format: u8, segments: u32, channel: u8, level: u16) {
    let block = [0; 25600];
    let albedo = calibration::albedo(format, record(segments, 0, 0), &block, channel, level);
    told(rt, name, albedo);
}

fn temperature(rt: &HostRuntime, name: &str, format: u8, segments: u32, channel: u8, level: u16) {
    let block = [0; 25600];
    let temperature = calibration::temperature(
        format,
        record(segments, 0, 0),
        &block,
        channel,
        level,
    );
    told(rt, name, temperature);
}

fn revision(rt: &HostRuntime, name: &str, format: u8, segments: u32, number: u8) {
    let block = [0; 25600];
    let revision = entries::revision::revision(format, record(segments, 0, 0), number, &block);
    told(rt, name, revision);
}

// The line's segment, offered to an assembly whose block has this byte everywhere.
fn offered(rt: &HostRuntime, name: &str, a: Assembly, number: u8, byte: u8) {
    let line = [0; 44356];
    let mut block = [byte; 25600];
    told(
        rt,
        name,
        segments::add_segment(1, a, &line, number, &mut block),
    );
}

fn points(rt: &HostRuntime) {
    point(rt, "mapping row 0 column 0", ALL, 0, 0);
    point(rt, "mapping row 24 column 24", ALL, 24, 24);
    point(rt, "mapping row 25 column 0", ALL, 25, 0);
    point(rt, "mapping row 0 column 25", ALL, 0, 25);
    point(rt, "mapping of 24 segments", UNFINISHED, 0, 0);
    point(rt, "mapping row 25 of 24 segments", UNFINISHED, 25, 0);
}

fn albedos(rt: &HostRuntime) {
    albedo(rt, "albedo VIS1 level 63", 1, ALL, 1, 63);
    albedo(rt, "albedo VIS1 level 64", 1, ALL, 1, 64);
    albedo(rt, "albedo VIS4 level 63", 1, ALL, 4, 63);
    albedo(rt, "albedo VIS4 level 64", 1, ALL, 4, 64);
    albedo(rt, "albedo VIS0", 1, ALL, 0, 0);
    albedo(rt, "albedo VIS5", 1, ALL, 5, 0);
    albedo(rt, "albedo of 24 segments", 1, UNFINISHED, 1, 0);
    albedo(rt, "albedo level 64 of 24 segments", 1, UNFINISHED, 1, 64);
    albedo(rt, "albedo in format 2", 2, ALL, 1, 0);
    albedo(rt, "albedo in format 3", 3, ALL, 1, 0);
    albedo(rt, "albedo with a mark above 24", 1, IMPOSSIBLE, 1, 0);
}

fn temperatures(rt: &HostRuntime) {
    temperature(rt, "temperature IR1 level 1023", 1, ALL, 1, 1023);
    temperature(rt, "temperature IR1 level 1024", 1, ALL, 1, 1024);
    temperature(rt, "temperature IR4 level 1023", 1, ALL, 4, 1023);
    temperature(rt, "temperature IR4 level 1024", 1, ALL, 4, 1024);
    temperature(rt, "temperature IR0", 1, ALL, 0, 0);
    temperature(rt, "temperature IR5", 1, ALL, 5, 0);
    temperature(rt, "temperature of 24 segments", 1, UNFINISHED, 1, 0);
    temperature(rt, "temperature in format 2", 2, ALL, 1, 0);
    temperature(rt, "temperature in format 3", 3, ALL, 1, 0);
}

fn revisions(rt: &HostRuntime) {
    revision(rt, "revision MANAM", 1, ALL, 3);
    revision(rt, "revision calibration-1", 2, ALL, 4);
    revision(rt, "revision calibration-2", 1, ALL, 5);
    revision(rt, "revision calibration-2 in format 2", 2, ALL, 5);
    revision(rt, "revision calibration-2 in format 3", 3, ALL, 5);
    revision(rt, "revision mapping", 1, ALL, 1);
    revision(rt, "revision orbit", 1, ALL, 2);
    revision(rt, "revision block 6", 1, ALL, 6);
    revision(rt, "revision of 24 segments", 1, UNFINISHED, 3);
    revision(rt, "revision with a mark above 24", 1, IMPOSSIBLE, 3);
}

fn segments(rt: &HostRuntime) {
    offered(rt, "first segment, numbers 5 and 7", record(0, 5, 7), 3, 0);
    offered(
        rt,
        "equal segment of its own revision",
        record(1, 5, 0),
        3,
        0,
    );
    offered(
        rt,
        "equal segment of another MANAM revision",
        record(1, 0, 7),
        3,
        0,
    );
    offered(
        rt,
        "equal segment of another calibration ID",
        record(1, 5, 0),
        5,
        0,
    );
    offered(
        rt,
        "calibration-1, another MANAM revision",
        record(1, 0, 7),
        4,
        0,
    );
    offered(rt, "new segment of another revision", record(2, 0, 7), 3, 0);
    offered(rt, "other bytes", record(1, 0, 0), 3, 1);
    offered(rt, "other bytes of another revision", record(1, 0, 7), 3, 1);
    offered(rt, "orbit, both numbers others", record(1, 5, 7), 2, 0);
    offered(
        rt,
        "mapping, other bytes, both numbers others",
        record(1, 5, 7),
        1,
        1,
    );
    offered(
        rt,
        "another revision and a mark above 24",
        record(IMPOSSIBLE, 5, 7),
        3,
        0,
    );
}

pub fn all(rt: &HostRuntime) {
    points(rt);
    albedos(rt);
    temperatures(rt);
    revisions(rt);
    segments(rt);
}
