// What marks a line: the date and time at which it was observed and its scan count, read from the bytes themselves. Nothing
// here knows of sectors or lines, and so the same functions serve a line in its buffer and the marks that are kept elsewhere.
//
// The contracts cite `specs/Stamps.antt` (`stamp_refusal`, `same_stamp`, `before`: ten bytes), each an equation. The date and the BCD
// numbers themselves are read by the crate `bcd_dates`.
//
// All functions here are inner: each asks that the bytes are there, and the calls above, which users make, refuse instead.
#![tactic(auto)]

pub mod stamp;
