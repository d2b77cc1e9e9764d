// One plain line that stands whole in a buffer: its twelve sectors, their checks and their filler. What a checked sector
// says, its data and pixels, is in `pixels`.
//
// The contracts cite `specs/Calls.antt`, one definition for the answer of every call, over what a sector of a line says
// (`specs/Sector.antt` of `sector_check`) and the refusals in the paper's order, which are in `sector_table`.
//
// No public function has a `requires`, but the one marked "Inner.", which the crates above use. A line's buffer may be longer than 44,356 bytes.
#![tactic(auto)]

pub mod check;
