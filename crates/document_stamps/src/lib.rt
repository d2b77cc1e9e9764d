// What marks a line in its documentation sector: the line numbers, the date, and its stamp.
//
// The contracts cite `specs/Lines.antt` (`LineNumbersOk`), `specs/Dates.antt` (`DateOk`) and `specs/Stamps.antt` (`stamp_of`). The
// first two give the number of the refusal and the values of the answer, for every input; refusals are tested in the paper's
// order. The bytes themselves are read by the crate `stamps`.
//
// Places are bytes of sector 1 counted from 1, its ID included, as in the crate `document`; the code counts from 0.
//
// No public function has a `requires`, but those marked "Inner.".
#![tactic(auto)]

pub mod dates;
pub mod lines;
pub mod stamp;
