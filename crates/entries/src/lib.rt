// The entries of a finished block: the points of the mapping grid and the orbital elements; which revision of the tables it
// holds; and what every entry tests, and the numbers at a place of a block, for the levels of calibration-2 too, which are in
// `calibration`.
//
// The contracts cite `specs/Entries.antt`, the table and the marks of `blocks`, and the point of `grid_points`. Each contract gives
// the paper's number of the answer and its values, for every input; refusals stand in the paper's order, and nothing is given of a
// block that is not finished.
//
// No public function has a `requires`, but those marked "Inner.", which the modules and `calibration` use. A buffer may be
// longer than its block.
#![tactic(auto)]

pub mod entry;
pub mod mapping;
pub mod orbit;
pub mod revision;
