// Both sides of each edge of a finished block's entries and of the start value of the check, as runs: one line of output for each.
// The expected lines in `stdout` follow from documents 01 and 02, and not from a run of this program.
#![tactic(auto)]

mod check_from_ones;
mod entries_at_edges;

// A row that cannot be written is told, and the next one is tried.
fn main(rt: HostRuntime) {
    entries_at_edges::all(&rt);
    check_from_ones::all(&rt);
}
