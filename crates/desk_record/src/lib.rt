// The record of the line desk, by value: which slots of a lent area are free, being filled, or held by preview and capture. What a
// slot is used for and the functions on one slot stand here; `desk_whole` has those on all slots, and `desk` the calls.
//
// The contracts cite `specs/Slots.antt`; `specs/Desks.antt` says which desks are possible, refusal 12.
//
// All functions here are inner.
#![tactic(auto)]

ghost use Rattle.std.specs.Prelude.{◌≡◌, ◌&&◌, not, ltb, leb, eqb};
ghost use Rattle.desk_record.specs.Slots.{is_free, serial_of, filling_as, held_by, held_or, let_go, sound_use, busy_as};

// The most slots of an area, and the least.
pub const MOST_SLOTS: usize = 8;

pub const LEAST_SLOTS: usize = 2;

// The last serial number that there is.
pub const LAST_SERIAL: u32 = 4294967295;

// What a slot is used for, and it is one of three: nothing; a line being filled under a serial number; or a line held under one, by
// preview, by capture or by both. So no slot is in two states.
#[derive(Clone, Copy, Debug, PartialEq, Eq)]
pub enum Use {
    Free,
    Filling(u32),
    Held {
        serial: u32,
        preview: bool,
        capture: bool,
    },
}

// One slot.
#[derive(Clone, Copy, Debug, PartialEq, Eq)]
pub struct Slot {
    pub used: Use,
}

// The desk: the number of slots, 2 to 8; the last serial number given, 0 before the first; the slots, of which those past the count
// do not exist: no call looks at them, and each gives them back as they stand.
#[derive(Clone, Copy, Debug, PartialEq, Eq)]
pub struct Desk {
    pub count: usize,
    pub last: u32,
    pub slots: [Slot; 8],
}

// Inner. Whether a slot is free.
pub fn free(s: Slot) -> bool
    ensures { result ≡ is_free s.used }
{
    matches!(s.used, Use::Free)
}

// Inner. The serial number of a busy slot; 0 for a free one.
pub fn serial(s: Slot) -> u32
    ensures { result ≡ serial_of s.used }
{
    match s.used {
        Use::Free => 0,
        Use::Filling(n) => n,
        Use::Held { serial, .. } => serial,
    }
}

// Inner. Whether a serial number was given.
pub fn given(n: u32, last: u32) -> bool
    ensures { result ≡ (ltb 0 n && leb n last) }
{
    0 < n && n <= last
}

// Inner. Whether a slot by itself is sound: a busy one has a serial number that was given, a held one a holder.
pub fn sound(s: Slot, last: u32) -> bool
    ensures { result ≡ sound_use last s.used }
{
    match s.used {
        Use::Free => true,
        Use::Filling(n) => given(n, last),
        Use::Held {
            serial,
            preview,
            capture,
        } => given(serial, last) && (preview || capture),
    }
}

// Inner. Whether a slot is busy with serial n.
pub fn busy_as(s: Slot, n: u32) -> bool
    ensures { result ≡ busy_as n s.used }
{
    match s.used {
        Use::Free => false,
        Use::Filling(m) => m == n,
        Use::Held { serial, .. } => serial == n,
    }
}

// Inner. Whether a slot is being filled under serial n.
pub fn filling_as(s: Slot, n: u32) -> bool
    ensures { result ≡ filling_as n s.used }
{
    s.used == Use::Filling(n)
}

// Inner. Whether a slot is held by consumer c, 1 preview and 2 capture, under serial n.
pub fn held_by(s: Slot, c: u8, n: u32) -> bool
    ensures { result ≡ held_by c n s.used }
{
    match s.used {
        Use::Held {
            serial,
            preview,
            capture,
        } if serial == n => match c {
            1 => preview,
            2 => capture,
            _ => false,
        },
        _ => false,
    }
}

// Inner. Whether a hold of consumer `who` is still there once consumer c has released its own.
pub fn still(held: bool, c: u8, who: u8) -> bool
    ensures { result ≡ (held && not (eqb c who)) }
{
    held && c != who
}

// Inner. A line held by those who hold; a free slot where neither does.
pub fn held_or(n: u32, p: bool, q: bool) -> Use
    ensures { result ≡ held_or n p q }
{
    if p || q {
        Use::Held {
            serial: n,
            preview: p,
            capture: q,
        }
    } else {
        Use::Free
    }
}

// Inner. A slot once consumer c has released its hold.
pub fn let_go(s: Slot, c: u8) -> Use
    ensures { result ≡ let_go c s.used }
{
    match s.used {
        Use::Held {
            serial,
            preview,
            capture,
        } => held_or(serial, still(preview, c, 1), still(capture, c, 2)),
        other => other,
    }
}
