// What stands around the data of a sector of a plain line as it is written: ID, check word and zero filler. Data and pixels are laid
// into it in `sector_rows`, and the calls are in `sector_writer`.
//
// The contracts cite `specs/Written.antt`. All functions are marked "Inner.".
#![tactic(auto)]

pub mod frame;
