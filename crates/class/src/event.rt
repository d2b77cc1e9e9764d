// The rows that a class writes, one for each event.
use refusals::Refusal;
use std::fmt;
use text::Stop;

/// Who does what with a slot, under its serial number, in a line time.
#[derive(Clone, Copy, Debug)]
pub struct Event {
    pub time: u64,
    pub who: &'static str,
    pub does: &'static str,
    pub slot: usize,
    pub serial: u32,
}

impl fmt::Display for Event {
    fn fmt<W: fmt::Write>(&self, f: &mut fmt::Formatter<W>) -> fmt::Result {
        let Event {
            time,
            who,
            does,
            slot,
            serial,
        } = *self;
        write!(f, "time {time} {who} {does} slot {slot} serial {serial}")
    }
}

impl Event {
    /// The row of an event, and what the desk refused it with.
    pub fn answered(self, rt: &HostRuntime, answer: Result<(), Refusal>) -> Result<(), Stop> {
        match answer {
            Ok(()) => text::row(rt, self),
            Err(refusal) => text::row(rt, format_args!("{self} {refusal}")),
        }
    }
}
