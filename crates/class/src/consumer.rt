// A consumer of a class: what it sees, and what it releases.
use crate::AREA;
use crate::event::Event;
use desk::Part;
use desk_record::Desk;
use looks::Look;
use text::Stop;

/// A consumer: its name, its number at the desk, how many line times it lags, the serial number of its next line, and the slot of
/// its last one.
#[derive(Clone, Copy, Debug)]
pub struct Consumer {
    name: &'static str,
    number: u8,
    lag: u64,
    pub next: u32,
    last: Option<usize>,
}

// A line that the desk lets a consumer read: its slot, when it was published, and the part of the area.
#[derive(Clone, Copy)]
struct Readable {
    slot: usize,
    published: u64,
    part: Part,
}

impl Consumer {
    /// Before its first line.
    pub fn arrived(name: &'static str, number: u8, lag: u64) -> Consumer {
        Consumer {
            name,
            number,
            lag,
            next: 1,
            last: None,
        }
    }

    // What it does with the line of a serial number, which stands in a slot.
    fn event(&self, time: u64, does: &'static str, slot: usize, serial: u32) -> Event {
        Event {
            time,
            who: self.name,
            does,
            slot,
            serial,
        }
    }

    // Its next line, where that is published.
    fn readable(&self, desk: Desk, published: &[u64; 8]) -> Option<Readable> {
        for (slot, published) in published.iter().enumerate() {
            if let Ok(part) = desk::seen(desk, AREA, self.number, slot, self.next) {
                return Some(Readable {
                    slot,
                    published: *published,
                    part,
                });
            }
        }
        None
    }

    /// Its turn: its next line, where it is published and due, is seen and released.
    pub fn turn(
        &mut self,
        rt: &HostRuntime,
        desk: &mut Desk,
        published: &[u64; 8],
        time: u64,
        format: u8,
        area: &[u8; AREA],
    ) -> Result<(), Stop> {
        let Some(line) = self.readable(*desk, published) else {
            return Ok(());
        };
        if time.saturating_sub(line.published) < self.lag {
            return Ok(());
        }
        let bytes = area.get(line.part.from..line.part.to).unwrap_or(&[]);
        let look = Look::of(format, bytes);
        let sees = self.event(time, "sees", line.slot, self.next);
        let seen = text::row(rt, format_args!("{sees} {look}"));
        let changed = desk::release(*desk, AREA, self.number, line.slot, self.next);
        *desk = changed.desk;
        let releases = self.event(time, "releases", line.slot, self.next);
        self.last = Some(line.slot);
        self.next = self.next.wrapping_add(1);
        // it releases the line in any case, also where the row before could not be written
        let released = releases.answered(rt, changed.answer);
        seen.and(released)
    }

    /// The old fault: it releases its last line once more.
    pub fn again(&self, rt: &HostRuntime, desk: Desk, time: u64) -> Result<(), Stop> {
        let Some(slot) = self.last else {
            return Ok(());
        };
        let serial = self.next.wrapping_sub(1);
        let changed = desk::release(desk, AREA, self.number, slot, serial);
        self.event(time, "releases", slot, serial)
            .answered(rt, changed.answer)
    }
}
