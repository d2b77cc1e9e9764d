// The claims that join the crates, in one place: there is no code here. `specs/` states them over the definitions of the
// other crates, `proofs/` proves them by citing those crates.
//
//   Edges      P1 to P12 of document 01, as a single list under one claim; Opened has P2 on the real call
//   Contracts  the contracts of the calls that write into what is lent, for the two lists below
//   Refusals   demand 1: a refused call takes nothing and changes no state and no lent byte, one list
//   Unique     any two results that a call's contract allows are the same, one list with a row for every public call
//   Orders     demand 1: every call gives the first refusal of the table's order that applies, one list of all calls
//   Guarded    what is written leads to its tails at every setting below 9, and near it what was got with wrong bits does too
//   RoundTrip  demand 2: the lines found in a written recording are the lines that were written
//   Run        the same over any test of a window, any line length and any rules: what a run of lines is found by
//   Demands    demand 2 with demand 3: lines to the writer, any cut, to the reader
//   Demand2    the same of the calls, and what was put into the sectors of each line comes back
//   Demand3    demand 3, a to d, as one record
//   OneLine    b of it: each joined pixel has its upper and its lower part from the one line that stands in the buffer
//   Nine       the smallest number of places in which an earlier window of what is written differs from the tail
//   Iced       the iced dish: which wrong bits in SYNC and dummy cost no line and make no false one
//   Thirteen   refusal 13 exactly
#![tactic(auto)]
