// The stamp of a line: two bytes of scan count, then eight of date and time, as they stand in its documentation sector.
ghost use Rattle.std.specs.Prelude.{◌≡◌, ◌≤◌, length};
ghost use Rattle.refusals.specs.Refusals.{answer_number};
ghost use Rattle.stamps.specs.Stamps.{stamp_refusal, same_stamp, before};

use bcd_dates::dates::date_refusal;
use bcd_dates::decimals::part_refusal;
use octets::whole;
use refusals::Refusal;

// How long a stamp is.
pub const BYTES: usize = 10;

// Inner. Refuses, with 7, where the first ten bytes are no stamp: a digit over 9, or a part of the date out of its range.
#[tactic(auto, using(refusals::proofs::Numbers::refused_first), unfolding(crate::specs::Stamps::stamp_refusal))]
pub fn stamp_refusal(stamp: &[u8]) -> Result<(), Refusal>
    requires { 10 ≤ length stamp.now }
    ensures { answer_number result ≡ stamp_refusal stamp.now }
{
    part_refusal(stamp, 0, 2, 0, 9999)?;
    date_refusal(&stamp[2..])
}

// Inner. Whether two stamps are the same, byte for byte.
#[tactic(auto, unfolding(crate::specs::Stamps::same_stamp))]
pub fn same_stamp(a: &[u8], b: &[u8]) -> bool
    requires { (10 ≤ length a.now) × (10 ≤ length b.now) }
    ensures { result ≡ same_stamp a.now b.now }
{
    octets::same(a, 0, b, 0, BYTES)
}

// Inner. Whether stamp a lies before stamp b: by its date, and by its scan count where the dates are the same.
pub fn before(a: &[u8], b: &[u8]) -> bool
    requires { (10 ≤ length a.now) × (10 ≤ length b.now) }
    ensures { result ≡ before a.now b.now }
{
    let date: usize = 2;
    let x = whole(&a[date..], 8);
    let y = whole(&b[date..], 8);
    if x < y {
        return true;
    }
    if y < x {
        return false;
    }
    whole(a, 2) < whole(b, 2)
}
