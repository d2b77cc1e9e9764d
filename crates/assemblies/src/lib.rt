// Runs of lines through an assembly: there is no code here. `specs/Runs.antt` says what a run is, one call of `add_segment`
// after the other, and what a finished block of one revision is; `specs/Before.antt` what `add_segment` was before revisions were
// compared. `proofs/` has what holds of runs, over the definitions of `blocks`, `revisions`, `copies` and `segments`:
//
//   Marking   a mark set is set and no other changes; all 25 are marked exactly when the number says so
//   Stored    a segment stored stands in its place, and nothing else changes
//   Advance   what a line does that is not refused
//   Later     an equal later copy changes nothing, a different one is refused with 8, a foreign one with 14
//   Run       THE FINISHED BLOCK is its 25 segments, whatever order they came in and how often
//   Skips     a refused line changes nothing, so that this holds over any run of lines
//   Revised   NEVER HALF OF EACH: all segments of a finished block are of the revision that it answers
//   AsBefore  mapping and orbit, and every line that is not foreign, are as before
#![tactic(auto)]
