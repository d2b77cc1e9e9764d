// What refuses a call on the line desk, in the order in which it is tested. `desk` has the calls.
//
// The contracts cite `specs/Asked.antt`. All functions here are inner; some ask for a count of at most 8, which the first test sees to.
#![tactic(auto)]

ghost use Rattle.std.specs.Prelude.{◌≡◌, ◌≤◌, leb};
ghost use Rattle.refusals.specs.Refusals.{when, answer_number};
ghost use Rattle.desk_record.specs.Desks.{lowest_of, last_serial};
ghost use Rattle.desk_refusals.specs.Asked.{count_refusal, slot_refusal, rest_refusal, none_refusal, take_refusal, publish_refusal, release_refusal};

use desk_record::{Desk, LAST_SERIAL, LEAST_SLOTS, MOST_SLOTS, filling_as, held_by};
use desk_whole::{lowest, possible};
use formats::Format;
use refusals::{Refusal, enough, within};

// Inner. Refuses, with 19, where the count is not 2 to 8.
#[tactic(auto, unfolding(crate::specs::Asked::count_refusal))]
pub fn count_refusal(d: Desk) -> Result<(), Refusal>
    ensures { answer_number result ≡ count_refusal d }
{
    within(
        LEAST_SLOTS as u64,
        MOST_SLOTS as u64,
        d.count as u64,
        Refusal::OutOfRange,
    )
}

// Inner. Refuses, with 19, where the count is out of range, or the slot is not below it.
#[tactic(auto, using(refusals::proofs::Numbers::refused_first, refusals::proofs::Numbers::passed_first), unfolding(crate::specs::Asked::slot_refusal, refusals::specs::Refusals::when))]
pub fn slot_refusal(d: Desk, slot: usize) -> Result<(), Refusal>
    ensures { answer_number result ≡ slot_refusal d slot }
{
    count_refusal(d)?;
    if slot < d.count {
        Ok(())
    } else {
        Err(Refusal::OutOfRange)
    }
}

// Inner. Refuses, with 12, where the desk is impossible, then with 2 where the area is short.
#[tactic(auto, unfolding(crate::specs::Asked::rest_refusal, refusals::specs::Refusals::first, refusals::specs::Refusals::when))]
pub fn rest_refusal(d: Desk, area: usize) -> Result<(), Refusal>
    requires { d.count ≤ 8 }
    ensures { answer_number result ≡ rest_refusal d area }
{
    if !possible(d) {
        return Err(Refusal::State);
    }
    enough(area, d.count * Format::LINE_BYTES, Refusal::ShortInput)
}

// Inner. Refuses, with 18, where serial numbers are used up.
#[tactic(auto, unfolding(refusals::specs::Refusals::when))]
fn serial_refusal(last: u32) -> Result<(), Refusal>
    ensures { answer_number result ≡ when (leb last_serial last) 18 }
{
    if last < LAST_SERIAL {
        Ok(())
    } else {
        Err(Refusal::NoSerial)
    }
}

// Inner. Refuses, with 16, where no slot is free.
#[tactic(auto, unfolding(refusals::specs::Refusals::when))]
fn free_refusal(d: Desk) -> Result<(), Refusal>
    requires { d.count ≤ 8 }
    ensures { answer_number result ≡ when (leb d.count (lowest_of d)) 16 }
{
    if lowest(d) < d.count {
        Ok(())
    } else {
        Err(Refusal::NoSlot)
    }
}

// Inner. Refuses, with 18, where serial numbers are used up, then with 16 where no slot is free.
#[tactic(auto, using(refusals::proofs::Numbers::refused_first, refusals::proofs::Numbers::passed_first), unfolding(crate::specs::Asked::none_refusal))]
pub fn none_refusal(d: Desk) -> Result<(), Refusal>
    requires { d.count ≤ 8 }
    ensures { answer_number result ≡ none_refusal d }
{
    serial_refusal(d.last)?;
    free_refusal(d)
}

// Inner. The refusals of `take`, in their order.
#[tactic(auto, using(refusals::proofs::Numbers::refused_first, refusals::proofs::Numbers::passed_first, crate::proofs::Served::count_small), unfolding(crate::specs::Asked::take_refusal))]
pub fn take_refusal(d: Desk, area: usize) -> Result<(), Refusal>
    ensures { answer_number result ≡ take_refusal d area }
{
    count_refusal(d)?;
    rest_refusal(d, area)?;
    none_refusal(d)
}

// Inner. Those of `publish`.
#[tactic(auto, using(refusals::proofs::Numbers::refused_first, refusals::proofs::Numbers::passed_first, crate::proofs::Served::slots_small, crate::proofs::Served::slot_small), unfolding(crate::specs::Asked::publish_refusal, refusals::specs::Refusals::when))]
pub fn publish_refusal(d: Desk, area: usize, slot: usize, serial: u32) -> Result<(), Refusal>
    ensures { answer_number result ≡ publish_refusal d area slot serial }
{
    slot_refusal(d, slot)?;
    rest_refusal(d, area)?;
    if filling_as(d.slots[slot], serial) {
        Ok(())
    } else {
        Err(Refusal::NoHold)
    }
}

// Inner. Those of `release`.
#[tactic(auto, using(refusals::proofs::Numbers::refused_first, refusals::proofs::Numbers::passed_first, crate::proofs::Served::slots_small, crate::proofs::Served::slot_small), unfolding(crate::specs::Asked::release_refusal, refusals::specs::Refusals::when))]
pub fn release_refusal(
    d: Desk,
    area: usize,
    consumer: u8,
    slot: usize,
    serial: u32,
) -> Result<(), Refusal>
    ensures { answer_number result ≡ release_refusal d area consumer slot serial }
{
    slot_refusal(d, slot)?;
    rest_refusal(d, area)?;
    if held_by(d.slots[slot], consumer, serial) {
        Ok(())
    } else {
        Err(Refusal::NoHold)
    }
}
