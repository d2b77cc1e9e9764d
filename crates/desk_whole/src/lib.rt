// All slots of a desk: the lowest free one, and whether the desk is possible. One slot is `desk_record`'s.
//
// The contracts cite `specs/Slots.antt` and `specs/Desks.antt` of `desk_record`.
//
// All functions here are inner; they ask for a count of at most 8.
#![tactic(auto)]

ghost use Rattle.std.specs.Prelude.{◌≡◌, ◌||◌, not, ◌+◌, ◌-◌, ◌<◌, ◌≤◌};
ghost use Rattle.desk_record.specs.Slots.{slot_of, is_free, serial_of};
ghost use Rattle.desk_record.specs.Desks.{busy_from, possible_of, lowest_of, with_slot};

use desk_record::{Desk, Slot, Use, busy_as, free, serial, sound};

// Inner. The lowest free slot; the count where there is none.
pub fn lowest(d: Desk) -> usize
    requires { d.count ≤ 8 }
    ensures { result ≡ lowest_of d }
{
    (0..d.count).find(|&i| free(d.slots[i])).unwrap_or(d.count)
}

// Inner. Whether some slot of the desk from a slot on is busy with serial n.
pub fn busy_from(d: Desk, n: u32, from: usize) -> bool
    requires { (d.count ≤ 8) × (from ≤ d.count) }
    ensures { result ≡ busy_from (slot_of d) n (d.count - from) from }
{
    d.slots[from..d.count].iter().any(|s| busy_as(*s, n))
}

// Inner. Whether no later slot is busy with the serial of a busy one.
pub fn alone(d: Desk, i: usize) -> bool
    requires { (d.count ≤ 8) × (i < d.count) }
    ensures { result ≡ (is_free (slot_of d i) || not (busy_from (slot_of d) (serial_of (slot_of d i)) (d.count - (i + 1)) (i + 1))) }
{
    let s = d.slots[i];
    free(s) || !busy_from(d, serial(s), i + 1)
}

// Inner. Whether the desk is possible: refusal 12 is given exactly where it is not.
pub fn possible(d: Desk) -> bool
    requires { d.count ≤ 8 }
    ensures { result ≡ possible_of d }
{
    (0..d.count).all(|i| sound(d.slots[i], d.last) && alone(d, i))
}

// Inner. The desk with a slot used otherwise.
pub fn with_slot(d: Desk, i: usize, u: Use) -> Desk
    requires { i < 8 }
    ensures { result ≡ with_slot d i u }
{
    let mut slots = d.slots;
    slots[i] = Slot { used: u };
    Desk { slots, ..d }
}
