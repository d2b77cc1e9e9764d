// IR1-3 of a plain line at ten bits, each out of its two sectors.
//
// The contracts cite one definition for the answer of the call (`specs/Refusing.antt` of `channel_refusals`) and one for its lent
// slice (`specs/Join.antt`), over what a sector of a line says (`specs/Sector.antt` of `sector_check`).
//
// No public function has a `requires`, but those marked "Inner.". A line's buffer may be longer than 44,356 bytes.
#![tactic(auto)]

pub mod join;
