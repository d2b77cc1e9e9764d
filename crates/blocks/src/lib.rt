// The blocks that the documentation sector brings in 25 segments, the marks of those that have come, and the record of an
// assembly.
//
// The contracts cite `specs/Blocks.antt`, the paper's table of the five blocks, `specs/Marking.antt`, the marks, and
// `specs/Record.antt`, the record with the numbers that it remembers. Each is an equation for the answer, for every input. How a
// block is put together is in `segments`; what the tables of a finished block say, in `entries` and `calibration`; that a finished
// block is its segments, in `assemblies`.
//
// No public function has a `requires`, but those marked "Inner.", which the crates above use.
#![tactic(auto)]

pub mod assembly;
pub mod block;
pub mod marks;
