// BCD numbers in a byte string, and the date and time that eight of its bytes say. Nothing here knows of sectors or lines.
//
// The contracts cite `specs/Decimals.antt` (BCD numbers in a byte string) and `specs/Dates.antt` (`date_in_refusal`, `date_in`: eight
// bytes), each an equation. Places count from 0.
//
// All functions here are inner: each asks that the bytes are there, and the calls above, which users make, refuse instead.
#![tactic(auto)]

pub mod dates;
pub mod decimals;
