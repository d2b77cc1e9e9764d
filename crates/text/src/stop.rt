// What ends a program, and what is told of a call of the system's that failed.
use arrayvec::ArrayString;
use std::fmt::{Display, Write};
use std::io;
use std::io::Print;

// The bytes that an error's text has room for, its number included.
const ROOM: usize = 128;

/// Why a program stops before it has done all.
#[derive(Clone, Copy, Debug)]
pub enum Stop {
    /// What is no row of text cannot be written to standard output.
    Output(io::Error),
    /// Another reason, which has been told where it arose; or help was asked for.
    Told,
}

// The one call of the system's whose error goes up by itself is the write of a recording.
impl From<io::Error> for Stop {
    fn from(error: io::Error) -> Stop {
        Stop::Output(error)
    }
}

/// Inner. What failed, as the caller names it, a colon and the system's text of the error, as a line on standard error. A name is any
/// bytes.
pub fn fail(rt: &HostRuntime, what: &[u8], error: &io::Error) -> Stop {
    let mut room = ArrayString::<ROOM>::new();
    let _ = write!(room, "{error}");
    let text = room.as_str();
    // the library puts the error's number behind the system's text
    let cause = match text.split_once(" (os error ") {
        Some((cause, _)) => cause,
        None => text,
    };
    let _ = Print::write_all(&rt.stderr(), what);
    let _ = eprintln!(rt; ": {cause}");
    Stop::Told
}

/// A row and the end of its line to standard output, in one write. Where it cannot be written, standard error says so at once, and the
/// answer is to stop.
pub fn row<D: Display + Drop>(rt: &HostRuntime, row: D) -> Result<(), Stop> {
    rt.println(row)
        .map_err(|error| fail(rt, b"standard output", &error))
}

/// Inner. Why a program stops, as a line on standard error.
pub fn told<D: Display + Drop>(rt: &HostRuntime, why: D) -> Stop {
    let _ = rt.eprintln(why);
    Stop::Told
}

/// How a program ended, where standard error has not been told yet.
pub fn end(rt: &HostRuntime, ended: Result<(), Stop>) {
    if let Err(Stop::Output(error)) = ended {
        fail(rt, b"standard output", &error);
    }
}
