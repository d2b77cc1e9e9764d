// What C and Rust link, `libhansobrik.a`: the calls of the crates `rack_..` under their names. Each hands its arguments on to the
// function of the same name there, which says what it does and what it refuses, and makes the same promise; the structs are those
// of that crate. A crate is a library or a static library, and no other crate can cite a static one: so the theorems of `rack` are
// over those functions' promises, and this crate has no more than the exports.
//
// No function has a `requires`: nothing checks a caller in C. A slice crosses as a pointer and a count; slices that are lent to
// one call must not overlap.
#![tactic(auto)]

mod of_blocks;
mod of_desk;
mod of_document;
mod of_entries;
mod of_ground;
mod of_number;
mod of_recording;
mod of_report;
mod of_sector;
