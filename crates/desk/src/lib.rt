// The line desk. A lent area has 2 to 8 slots of one line each, numbered from 0. The feeder takes the lowest free slot and the next
// serial number with it, fills the slot with the reader, and publishes the complete line by slot and serial. Preview and capture
// both hold it then; each reads the part that `seen` gives and releases its own hold, by slot and serial. The slot is free again once
// neither holds it.
//
// A desk is copied in, and a call gives the desk after it beside its answer: a refused call gives it back as it was. A caller that goes
// on only where it is served takes the calls in `.._or_refused`.
//
// No call is lent the area, only told its length: the reader alone writes there.
//
// The contracts cite `specs/Calls.antt`, the refusals and the answer of each call. No public function has a `requires`.
#![tactic(auto)]

ghost use Rattle.std.specs.Prelude.{◌≡◌};
ghost use Rattle.desk_record.specs.Desks.{empty_desk};
ghost use Rattle.desk.specs.Calls.{changed, slot_taken, fresh_answer, fresh_or_refused_answer, take_answer, publish_answer, release_answer, seen_answer};

use desk_record::{Desk, Slot, Use, let_go};
use desk_refusals::{count_refusal, publish_refusal, release_refusal, take_refusal};
use desk_whole::{lowest, with_slot};
use formats::Format;
use refusals::Refusal;

// The consumers by number; any other holds nothing. Numbers, and no enum: a caller may hand in any, and is then refused with 17.
pub const PREVIEW: u8 = 1;

pub const CAPTURE: u8 = 2;

// What a call gives that changes the desk: its answer, and the desk after it, which is as it was where the call is refused. Before
// `fresh` there is none: refused, it gives an empty one of the count that was asked for, which every call refuses again.
#[derive(Clone, Copy, Debug, PartialEq, Eq)]
pub struct Changed {
    pub answer: Result<(), Refusal>,
    pub desk: Desk,
}

// The same of `take`.
#[derive(Clone, Copy, Debug, PartialEq, Eq)]
pub struct SlotTaken {
    pub answer: Result<Taken, Refusal>,
    pub desk: Desk,
}

// What was taken: the slot, its serial number, and the desk after the call.
#[derive(Clone, Copy, Debug, PartialEq, Eq)]
pub struct Taken {
    pub slot: usize,
    pub serial: u32,
    pub desk: Desk,
}

// The part of the area that a holder may read, from its first byte to before its last.
#[derive(Clone, Copy, Debug, PartialEq, Eq)]
pub struct Part {
    pub from: usize,
    pub to: usize,
}

// Inner. An empty desk of so many slots, whether so many serve or not.
fn empty(count: usize) -> Desk
    ensures { result ≡ empty_desk count }
{
    Desk {
        count,
        last: 0,
        slots: [Slot { used: Use::Free }; 8],
    }
}

// An empty desk of so many slots; refused with 19 where they are not 2 to 8.
#[tactic(auto, unfolding(crate::specs::Calls::fresh_answer, refusals::specs::Refusals::answered))]
pub fn fresh(count: usize) -> Changed
    ensures { result ≡ fresh_answer count }
{
    let desk = empty(count);
    let answer = count_refusal(desk);
    Changed { answer, desk }
}

// An empty desk of so many slots, and none where that is refused, with 19.
#[tactic(auto, unfolding(crate::specs::Calls::fresh_or_refused_answer, refusals::specs::Refusals::answered))]
pub fn fresh_or_refused(count: usize) -> Result<Desk, Refusal>
    ensures { result ≡ fresh_or_refused_answer count }
{
    let desk = empty(count);
    count_refusal(desk)?;
    Ok(desk)
}

// Inner. The desk after a call on one, by what the call answers.
fn after(was: Desk, answer: Result<Desk, Refusal>) -> Changed
    ensures { result ≡ changed was answer }
{
    match answer {
        Ok(desk) => Changed {
            answer: Ok(()),
            desk,
        },
        Err(refusal) => Changed {
            answer: Err(refusal),
            desk: was,
        },
    }
}

// The feeder takes the lowest free slot and the next serial number, with the length of the area. Refused with 19, 12, 2, 18
// and 16, in this order, and then the desk comes back as it was.
pub fn take(d: Desk, area: usize) -> SlotTaken
    ensures { result ≡ slot_taken d (take_answer d area) }
{
    let answer = take_or_refused(d, area);
    let desk = match answer {
        Ok(taken) => taken.desk,
        Err(_) => d,
    };
    SlotTaken { answer, desk }
}

// The feeder publishes the line in a slot by its serial number: preview and capture both hold it. Refused with 19, 12, 2
// and 17, in this order, and then the desk comes back as it was.
pub fn publish(d: Desk, area: usize, slot: usize, serial: u32) -> Changed
    ensures { result ≡ changed d (publish_answer d area slot serial) }
{
    after(d, publish_or_refused(d, area, slot, serial))
}

// A consumer, 1 preview and 2 capture, releases its own hold of a slot by the serial number. Refused with 19, 12, 2 and 17,
// in this order, and then the desk comes back as it was; any other consumer holds nothing.
pub fn release(d: Desk, area: usize, consumer: u8, slot: usize, serial: u32) -> Changed
    ensures { result ≡ changed d (release_answer d area consumer slot serial) }
{
    after(d, release_or_refused(d, area, consumer, slot, serial))
}

// What `take` takes, and nothing where that is refused, with 19, 12, 2, 18 and 16.
#[tactic(auto, using(desk_refusals::proofs::Served::take_small, desk_refusals::proofs::Served::take_below, desk_refusals::proofs::Served::take_last), unfolding(crate::specs::Calls::take_answer, refusals::specs::Refusals::answered))]
pub fn take_or_refused(d: Desk, area: usize) -> Result<Taken, Refusal>
    ensures { result ≡ take_answer d area }
{
    take_refusal(d, area)?;
    let slot = lowest(d);
    let serial = d.last + 1;
    let filled = with_slot(d, slot, Use::Filling(serial));
    Ok(Taken {
        slot,
        serial,
        desk: Desk {
            last: serial,
            ..filled
        },
    })
}

// The desk once the line is published, and none where that is refused, with 19, 12, 2 and 17.
#[tactic(auto, using(desk_refusals::proofs::Served::publish_below), unfolding(crate::specs::Calls::publish_answer, refusals::specs::Refusals::answered))]
pub fn publish_or_refused(d: Desk, area: usize, slot: usize, serial: u32) -> Result<Desk, Refusal>
    ensures { result ≡ publish_answer d area slot serial }
{
    publish_refusal(d, area, slot, serial)?;
    let held = Use::Held {
        serial,
        preview: true,
        capture: true,
    };
    Ok(with_slot(d, slot, held))
}

// The desk without that hold, and none where the release is refused, with 19, 12, 2 and 17.
#[tactic(auto, using(desk_refusals::proofs::Served::release_below), unfolding(crate::specs::Calls::release_answer, refusals::specs::Refusals::answered))]
pub fn release_or_refused(
    d: Desk,
    area: usize,
    consumer: u8,
    slot: usize,
    serial: u32,
) -> Result<Desk, Refusal>
    ensures { result ≡ release_answer d area consumer slot serial }
{
    release_refusal(d, area, consumer, slot, serial)?;
    let left = let_go(d.slots[slot], consumer);
    Ok(with_slot(d, slot, left))
}

// The part of the area that a consumer may read: that of a slot which it holds under the serial number. Refused as `release`
// is; nothing changes.
#[tactic(auto, using(desk_refusals::proofs::Served::release_below), unfolding(crate::specs::Calls::seen_answer, refusals::specs::Refusals::answered))]
pub fn seen(d: Desk, area: usize, consumer: u8, slot: usize, serial: u32) -> Result<Part, Refusal>
    ensures { result ≡ seen_answer d area consumer slot serial }
{
    release_refusal(d, area, consumer, slot, serial)?;
    let from = slot * Format::LINE_BYTES;
    Ok(Part {
        from,
        to: from + Format::LINE_BYTES,
    })
}
