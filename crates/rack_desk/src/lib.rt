// The line desk for C and Rust. Each function hands its record on to the call of the same name in `desk` and lays the answer out as
// one struct of numbers: `refused` is 0 or the number of the refusal, and then the record is the one that was handed in, every field
// of it. A call that is not refused changes one slot of that record, and `take` the last serial number; all else stands as it was.
//
// Structs with a number beside values, and numbers for what a slot is used for, are the C interface.
//
// The contracts cite `specs/LineDesk.antt`, over the definitions of the calls themselves. No function has a `requires`: nothing
// checks a caller in C.
#![tactic(auto)]

ghost use Rattle.std.specs.Prelude.{◌≡◌, ◌||◌, ◌<◌, eqb};
ghost use Rattle.rack_desk.specs.LineDesk.{slot_handed, desk_handed, holders_of, slot_given, desk_left, fresh_of, take_of, publish_of, release_of, seen_of};

use desk_record::{Desk, Slot, Use};
use refusals::number_in;

// One slot. `used` says what for: 0 nothing, 1 a line being filled, 2 a line that is held; `holders` then who holds it: 1 preview,
// 2 capture, 3 both. A desk with another number there, in a slot below its count, is impossible. Of a free slot serial and holders
// are not looked at, and of one being filled the holders.
#[repr(C)]
#[derive(Clone, Copy)]
pub struct DeskSlot {
    pub serial: u32,
    pub used: u16,
    pub holders: u16,
}

// The desk, laid out without gaps and in widths that no machine changes, since a caller may store it.
#[repr(C)]
#[derive(Clone, Copy)]
pub struct LineDesk {
    pub count: u32,
    pub last: u32,
    pub slots: [DeskSlot; 8],
}

// The answer of a call that changes the desk.
#[repr(C)]
#[derive(Clone, Copy)]
pub struct DeskAnswer {
    pub refused: u8,
    pub desk: LineDesk,
}

// The answer of a take, with the slot and its serial number.
#[repr(C)]
#[derive(Clone, Copy)]
pub struct TakenAnswer {
    pub refused: u8,
    pub serial: u32,
    pub slot: usize,
    pub desk: LineDesk,
}

// The answer of `hansobrik_seen`: the part of the area that a holder may read, from its first byte to before its last.
#[repr(C)]
#[derive(Clone, Copy)]
pub struct SeenAnswer {
    pub refused: u8,
    pub from: usize,
    pub to: usize,
}

// Inner. Whether one of two holders is among those of a slot.
fn holds(holders: u16, who: u16) -> bool
    ensures { result ≡ (eqb holders who || eqb holders 3) }
{
    holders == who || holders == 3
}

// A slot as the calls take it. A number that means nothing becomes a line under serial 0, which no desk has.
impl From<DeskSlot> for Slot {
    ghost from_gives = { λ s slot. slot ≡ slot_handed s };

    fn from(s: DeskSlot) -> Self {
        let used = match s.used {
            0 => Use::Free,
            1 => Use::Filling(s.serial),
            2 => Use::Held {
                serial: s.serial,
                preview: holds(s.holders, 1),
                capture: holds(s.holders, 2),
            },
            _ => Use::Filling(0),
        };
        Self { used }
    }
}

// The desk as the calls take it.
impl From<LineDesk> for Desk {
    ghost from_gives = { λ d desk. desk ≡ desk_handed d };

    fn from(d: LineDesk) -> Self {
        Self {
            count: d.count as usize,
            last: d.last,
            slots: d.slots.map(Slot::from),
        }
    }
}

// Inner. Who holds a slot, as one number.
fn holders_of(preview: bool, capture: bool) -> u16
    ensures { result ≡ holders_of preview capture }
{
    match (preview, capture) {
        (true, true) => 3,
        (true, false) => 1,
        (false, true) => 2,
        (false, false) => 0,
    }
}

// A slot as the caller keeps it.
impl From<Slot> for DeskSlot {
    ghost from_gives = { λ s given. given ≡ slot_given s.used };

    fn from(s: Slot) -> Self {
        match s.used {
            Use::Free => Self {
                serial: 0,
                used: 0,
                holders: 0,
            },
            Use::Filling(serial) => Self {
                serial,
                used: 1,
                holders: 0,
            },
            Use::Held {
                serial,
                preview,
                capture,
            } => Self {
                serial,
                used: 2,
                holders: holders_of(preview, capture),
            },
        }
    }
}

// Inner. The caller's desk after a call on one slot: that slot and the last serial number are those of the call's desk.
fn desk_left(was: LineDesk, d: Desk, i: usize) -> LineDesk
    requires { i < 8 }
    ensures { result ≡ desk_left was d i }
{
    let mut slots = was.slots;
    slots[i] = DeskSlot::from(d.slots[i]);
    LineDesk {
        last: d.last,
        slots,
        ..was
    }
}

// An empty desk of so many slots; refused with 19.
#[tactic(auto, unfolding(crate::specs::LineDesk::fresh_of))]
pub fn hansobrik_fresh_desk(count: u32) -> DeskAnswer
    ensures { result ≡ fresh_of count }
{
    let free = DeskSlot {
        serial: 0,
        used: 0,
        holders: 0,
    };
    DeskAnswer {
        refused: number_in(desk::fresh(count as usize).answer),
        desk: LineDesk {
            count,
            last: 0,
            slots: [free; 8],
        },
    }
}

// The feeder takes the lowest free slot and the next serial number; refused with 19, 12, 2, 18, 16.
#[tactic(auto, using(crate::proofs::Across::take_below), unfolding(crate::specs::LineDesk::take_of))]
pub fn hansobrik_take(desk: LineDesk, area: usize) -> TakenAnswer
    ensures { result ≡ take_of desk area }
{
    match desk::take_or_refused(Desk::from(desk), area) {
        Ok(taken) => TakenAnswer {
            refused: 0,
            serial: taken.serial,
            slot: taken.slot,
            desk: desk_left(desk, taken.desk, taken.slot),
        },
        Err(refusal) => TakenAnswer {
            refused: refusal.number(),
            serial: 0,
            slot: 0,
            desk,
        },
    }
}

// The feeder publishes a complete line, which preview and capture hold from then on; refused with 19, 12, 2, 17.
#[tactic(auto, using(crate::proofs::Across::publish_below), unfolding(crate::specs::LineDesk::publish_of))]
pub fn hansobrik_publish(desk: LineDesk, area: usize, slot: usize, serial: u32) -> DeskAnswer
    ensures { result ≡ publish_of desk area slot serial }
{
    match desk::publish_or_refused(Desk::from(desk), area, slot, serial) {
        Ok(after) => DeskAnswer {
            refused: 0,
            desk: desk_left(desk, after, slot),
        },
        Err(refusal) => DeskAnswer {
            refused: refusal.number(),
            desk,
        },
    }
}

// A consumer, 1 preview and 2 capture, releases its own hold; refused with 19, 12, 2, 17.
#[tactic(auto, using(crate::proofs::Across::release_below), unfolding(crate::specs::LineDesk::release_of))]
pub fn hansobrik_release(
    desk: LineDesk,
    area: usize,
    consumer: u8,
    slot: usize,
    serial: u32,
) -> DeskAnswer
    ensures { result ≡ release_of desk area consumer slot serial }
{
    match desk::release_or_refused(Desk::from(desk), area, consumer, slot, serial) {
        Ok(after) => DeskAnswer {
            refused: 0,
            desk: desk_left(desk, after, slot),
        },
        Err(refusal) => DeskAnswer {
            refused: refusal.number(),
            desk,
        },
    }
}

// The part of the area that a holder may read; refused with 19, 12, 2, 17. Nothing changes.
#[tactic(auto, unfolding(crate::specs::LineDesk::seen_of))]
pub fn hansobrik_seen(
    desk: LineDesk,
    area: usize,
    consumer: u8,
    slot: usize,
    serial: u32,
) -> SeenAnswer
    ensures { result ≡ seen_of desk area consumer slot serial }
{
    match desk::seen(Desk::from(desk), area, consumer, slot, serial) {
        Ok(part) => SeenAnswer {
            refused: 0,
            from: part.from,
            to: part.to,
        },
        Err(refusal) => SeenAnswer {
            refused: refusal.number(),
            from: 0,
            to: 0,
        },
    }
}
