// Both sides of each edge that document 01 names for the reader, as runs: one line of output for each; `entry_edges` has those of
// a finished block's entries and of the check. The expected lines in `stdout` follow from documents 01 and 02, and not from a run
// of this program.
//
// A recording here is noise of one byte, tails where the edge has them, and information bits that are the noise too. With
// noise of zeros the plain line opens with the scrambling bytes after SYNC, every second one inverted: 00 FD 00 F3. Where
// the line's first bits are those of a tail, they are information bits like any others, and it opens 4B 46 B9 6A.
#![tactic(auto)]

ghost use Rattle.std.specs.Prelude.{◌≤◌};

use reader_line::Reading;
use reader_record::State;
use std::fmt::Display;

// The bytes that a recording here can have, and those of a line.
const SPACE: usize = 89000;

const LINE: usize = 44356;

// The tail, sixteen bits a number; with its last bit wrong; with three, the first, one within and the last; with its first three and
// the last three; and with its first three and the last four.
const TAIL: [u16; 4] = [0x4bbb, 0xb999, 0x9555, 0x7fff];

const ONE_WRONG: [u16; 4] = [0x4bbb, 0xb999, 0x9555, 0x7ffe];

const THREE_WRONG: [u16; 4] = [0xcbbb, 0xb998, 0x9555, 0x7ffe];

const SIX_WRONG: [u16; 4] = [0xabbb, 0xb999, 0x9555, 0x7ff8];

const SEVEN_WRONG: [u16; 4] = [0xabbb, 0xb999, 0x9555, 0x7ff0];

// A tail, at a bit place.
fn put_tail(rec: &mut [u8; SPACE], at: usize, tail: [u16; 4])
    requires { at ≤ 711000 }
{
    for (i, bits) in tail.iter().enumerate() {
        slice_writer::put_field(rec, at + 16 * i, 16, *bits);
    }
}

// What a run of calls leaves: how many lines were handed out, and where the last one ended.
#[derive(Clone, Copy)]
struct Run {
    lines: u64,
    last: Option<Ended>,
}

// The bytes taken up to a line's end, and the bits of the last one that were still unread.
#[derive(Clone, Copy)]
struct Ended {
    bytes: usize,
    unread: u8,
}

// A fresh reader over a recording in pieces of at most size bytes, each unread rest offered again.
fn drive(setting: u8, rec: &[u8], size: usize, line: &mut [u8; LINE]) -> Run {
    let mut run = Run {
        lines: 0,
        last: None,
    };
    let mut state = reader_record::fresh();
    let mut rest = rec;
    for _ in 0..50000 {
        let piece = &rest[..size.min(rest.len())];
        let (taken, whole) = match reader::read(1, setting, state, piece, line) {
            Ok(Reading::More { taken, state: next }) => {
                state = next;
                (taken, false)
            }
            Ok(Reading::Line { taken, state: next }) => {
                state = next;
                (taken, true)
            }
            Err(_) => break,
        };
        rest = &rest[taken.min(rest.len())..];
        if whole {
            run = Run {
                lines: run.lines.wrapping_add(1),
                last: Some(Ended {
                    bytes: rec.len() - rest.len(),
                    unread: state.unread_count,
                }),
            };
        }
        if rest.is_empty() {
            break;
        }
    }
    run
}

// The first bytes of a recording, read in pieces of at most size bytes, and what was seen; at setting 0, and at another.
fn edge(rt: &HostRuntime, name: &str, rec: &[u8; SPACE], bytes: usize, size: usize) {
    seen(rt, name, 0, rec, bytes, size);
}

fn edge_at(
    rt: &HostRuntime,
    name: &str,
    setting: u8,
    rec: &[u8; SPACE],
    bytes: usize,
    size: usize,
) {
    seen(
        rt,
        format_args!("{name} at setting {setting}"),
        setting,
        rec,
        bytes,
        size,
    )
}

fn seen<D: Display + Drop>(
    rt: &HostRuntime,
    name: D,
    setting: u8,
    rec: &[u8; SPACE],
    bytes: usize,
    size: usize,
) {
    let mut line = [7; LINE];
    let run = drive(setting, &rec[..bytes.min(SPACE)], size, &mut line);
    let lines = run.lines;
    let _ = match run.last {
        Some(Ended { bytes, unread }) => text::row(
            rt,
            format_args!(
                "{name}: lines {lines}, the last after {bytes} bytes with {unread} bits unread, opening {} {} {} {} and ending {}",
                line[0], line[1], line[2], line[3], line[44355],
            ),
        ),
        None => text::row(rt, format_args!("{name}: lines {lines}")),
    };
}

// The refusal of a call with nothing to read, 0 for none, in a format, at a setting, with a record and a buffer that is lent.
fn told(rt: &HostRuntime, name: &str, format: u8, setting: u8, s: State, line: &mut [u8]) {
    let refusal = refusals::number_in(reader::read(format, setting, s, &[], line));
    let _ = text::row(rt, format_args!("{name}: refusal {refusal}"));
}

// With a buffer of 44,356 bytes, at setting 0 and at another; and of one byte less.
fn asked(rt: &HostRuntime, name: &str, format: u8, s: State) {
    asked_at(rt, name, format, 0, s);
}

fn asked_at(rt: &HostRuntime, name: &str, format: u8, setting: u8, s: State) {
    let mut line = [0; LINE];
    told(rt, name, format, setting, s, &mut line);
}

fn asked_short(rt: &HostRuntime, name: &str, format: u8, setting: u8, s: State) {
    let mut line = [0; 44355];
    told(rt, name, format, setting, s, &mut line);
}

// A record between lines, and one in a line, with the fields that an edge has.
fn searching(search: u64, search_count: u8, unread: u8, unread_count: u8) -> State {
    State {
        search,
        search_count,
        unread,
        unread_count,
        ..reader_record::fresh()
    }
}

fn reading(
    position: usize,
    register: u16,
    waiting: u8,
    waiting_count: u8,
    unread_count: u8,
) -> State {
    State {
        in_line: true,
        position,
        register,
        unread_count,
        waiting,
        waiting_count,
        ..reader_record::fresh()
    }
}

// Lines at their edges.
fn lines_at_edges(rt: &HostRuntime) {
    let mut rec = [0; SPACE];
    // 63 bits of the tail, from the second bit on, and the end
    put_tail(&mut rec, 1, TAIL);
    edge(rt, "63 tail bits and the end", &rec, 8, SPACE);
    edge(rt, "64 tail bits and 354847 bits", &rec, 44364, SPACE);
    rec.fill(0);
    put_tail(&mut rec, 0, TAIL);
    edge(rt, "64 tail bits and 354848 bits", &rec, 44364, SPACE);
    edge(rt, "one-byte pieces", &rec, 44364, 1);
    edge(rt, "44363-byte pieces", &rec, 44364, 44363);
    // another tail inside the line, at byte 1000 of it
    put_tail(&mut rec, 8064, TAIL);
    edge(rt, "a tail inside a line", &rec, SPACE, SPACE);
    // another across the line's end, 32 bits on each side
    rec.fill(0);
    put_tail(&mut rec, 0, TAIL);
    put_tail(&mut rec, 354880, TAIL);
    edge(rt, "a tail across a line's end", &rec, SPACE, SPACE);
    // another right after the line's end
    rec.fill(0);
    put_tail(&mut rec, 0, TAIL);
    put_tail(&mut rec, 354912, TAIL);
    edge(rt, "a tail right after a line's end", &rec, SPACE, SPACE);
    // a tail inside noise of ones and zeros
    rec.fill(0x55);
    put_tail(&mut rec, 803, TAIL);
    edge(rt, "a tail inside noise", &rec, SPACE, SPACE);
    edge(
        rt,
        "a tail inside noise, pieces of 100 bytes",
        &rec,
        SPACE,
        100,
    );
}

// Every bit of a byte as a line's start.
fn offsets(rt: &HostRuntime) {
    for offset in 0..8 {
        let mut rec = [0; SPACE];
        put_tail(&mut rec, offset, TAIL);
        seen(rt, format_args!("offset {offset}"), 0, &rec, 44365, SPACE);
    }
}

// Tails with wrong bits, on both sides of the setting; and one in front of the exact tail, which is the first and wins.
fn tails_at_edges(rt: &HostRuntime) {
    let mut rec = [0; SPACE];
    put_tail(&mut rec, 0, THREE_WRONG);
    edge_at(rt, "a tail with 3 wrong bits", 2, &rec, SPACE, SPACE);
    edge_at(rt, "a tail with 3 wrong bits", 3, &rec, SPACE, SPACE);
    edge_at(
        rt,
        "a tail with 3 wrong bits, one-byte pieces,",
        3,
        &rec,
        44364,
        1,
    );
    put_tail(&mut rec, 0, SIX_WRONG);
    edge_at(rt, "a tail with 6 wrong bits", 5, &rec, SPACE, SPACE);
    edge_at(rt, "a tail with 6 wrong bits", 6, &rec, SPACE, SPACE);
    put_tail(&mut rec, 0, SEVEN_WRONG);
    edge_at(rt, "a tail with 7 wrong bits", 6, &rec, SPACE, SPACE);
    put_tail(&mut rec, 0, ONE_WRONG);
    put_tail(&mut rec, 64, TAIL);
    edge_at(
        rt,
        "a tail with a wrong bit before the tail",
        0,
        &rec,
        SPACE,
        SPACE,
    );
    edge_at(
        rt,
        "a tail with a wrong bit before the tail",
        1,
        &rec,
        SPACE,
        SPACE,
    );
}

// An empty piece.
fn nothing(rt: &HostRuntime) {
    let mut line = [0; LINE];
    let taken = match reader::read(1, 0, reader_record::fresh(), &[], &mut line) {
        Ok(Reading::More { taken, .. } | Reading::Line { taken, .. }) => taken,
        Err(_) => 0,
    };
    let _ = text::row(rt, format_args!("empty piece: taken {taken}"));
}

// Refusals, both sides of each.
fn refused(rt: &HostRuntime) {
    let s = reader_record::fresh();
    asked(rt, "format 0", 0, s);
    asked(rt, "format 1", 1, s);
    asked(rt, "format 2", 2, s);
    asked(rt, "format 3", 3, s);
    asked(rt, "format 4", 4, s);
    asked_short(rt, "buffer 44355", 1, 0, s);
    asked(rt, "buffer 44356", 1, s);
    asked(rt, "position 354847", 1, reading(354847, 32767, 0, 7, 0));
    asked(rt, "position 354848", 1, reading(354848, 32767, 0, 0, 0));
    asked(rt, "63 remembered bits", 1, searching(0, 63, 0, 0));
    asked(rt, "64 remembered bits", 1, searching(0, 64, 0, 0));
    asked(rt, "register 32767", 1, reading(0, 32767, 0, 0, 0));
    asked(rt, "register 32768", 1, reading(0, 32768, 0, 0, 0));
    asked(rt, "7 unread bits", 1, searching(0, 0, 127, 7));
    asked(rt, "8 unread bits", 1, searching(0, 0, 255, 8));
    asked(rt, "search bit 1 of 1", 1, searching(1, 1, 0, 0));
    asked(rt, "search bits 2 of 1", 1, searching(2, 1, 0, 0));
    asked(
        rt,
        "remembered and unread bits together",
        1,
        searching(5, 3, 2, 2),
    );
    asked(rt, "3 bits wait at position 11", 1, reading(11, 0, 7, 3, 0));
    asked(rt, "2 bits wait at position 11", 1, reading(11, 0, 3, 2, 0));
    asked(rt, "waiting bits 8 of 3", 1, reading(11, 0, 8, 3, 0));
    asked(rt, "an unread bit inside a line", 1, reading(0, 0, 0, 0, 1));
    asked_short(
        rt,
        "impossible record and short buffer",
        1,
        0,
        reading(0, 32768, 0, 0, 0),
    );
    asked(
        rt,
        "unknown format and impossible record",
        4,
        reading(0, 32768, 0, 0, 0),
    );
    asked_at(rt, "setting 6", 1, 6, s);
    asked_at(rt, "setting 7", 1, 7, s);
    asked_at(rt, "unknown format and setting 7", 4, 7, s);
    asked_at(
        rt,
        "setting 7 and impossible record",
        1,
        7,
        reading(0, 32768, 0, 0, 0),
    );
    asked_short(rt, "setting 7 and short buffer", 1, 7, s);
}

// A row that cannot be written is told, and the next one is tried.
fn main(rt: HostRuntime) {
    lines_at_edges(&rt);
    offsets(&rt);
    tails_at_edges(&rt);
    nothing(&rt);
    refused(&rt);
}
