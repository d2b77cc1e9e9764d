// What a checked sector of a plain line says: its data as bytes, and its pixels as numbers.
//
// The contracts cite one definition for the answer (`specs/Refusing.antt` of `pixel_refusals`) and one for each lent slice
// (`specs/Calls.antt`) of every call, over what a sector of a line says (`specs/Sector.antt` of `sector_check`).
//
// No public function has a `requires`. A line's buffer may be longer than 44,356 bytes.
#![tactic(auto)]

pub mod values;
