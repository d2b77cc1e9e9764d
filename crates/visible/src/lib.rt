// The four visible lines of a plain line, in one strip.
//
// The contracts cite `specs/Strip.antt`: `StripOk` gives the number of the refusal and the four answers, `strip_left` the lent
// strip, over what a sector of a line says (`specs/Sector.antt` of `sector_check`).
//
// No public function has a `requires`, but those marked "Inner.". A line's buffer may be longer than 44,356 bytes.
#![tactic(auto)]

pub mod strip;
