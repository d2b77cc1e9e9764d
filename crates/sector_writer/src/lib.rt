// Sector data or pixels written into a sector of a plain line, with ID, check word and zero filler; every other bit of
// the line's buffer is kept.
//
// The contracts cite one definition for the answer (`specs/Refusing.antt` of `write_refusals`) and one for the line's bits at exit
// (`specs/Calls.antt`) of every call, over a sector as it is written (`specs/Written.antt` of `sector_frame`). That what was written
// is read back is in `sector_rounds`.
//
// No public function has a `requires`. A line's buffer may be longer than 44,356 bytes.
#![tactic(auto)]

pub mod write;
