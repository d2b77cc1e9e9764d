// What the documentation sector of a plain line says of the scan: scan mode, scanner, and the sub-commutation bytes. Line
// numbers, date and stamp are read by the crate `document_stamps`, and any number field by `document_fields`.
//
// The contracts cite `sector_table/specs/Place.antt`, where a byte of the sector lies; `specs/Place.antt`, what refuses every call;
// and, one for each module of calls, `specs/Segments.antt` (`SubCommutationOk`) and `specs/Modes.antt` (`ScanModeOk`,
// `ScannerSelectOk`). Each gives the number of the refusal and the values of the answer, for every input; refusals are tested in
// the paper's order.
//
// Places are bytes of sector 1 counted from 1, its ID included. A line's buffer may be longer than 44,356 bytes.
//
// No public function has a `requires`, but those marked "Inner.", which the crates above use too.
#![tactic(auto)]

pub mod modes;
pub mod place;
pub mod segments;
