// Runs of calls of `read`, each at one setting: there is no code here. `specs/Driven.antt` says what a caller does who offers a
// recording in pieces, and what it is handed; `proofs/` proves over it, citing the contract of `read` and no more:
//
//   Demand    demand 3: in whatever pieces a recording comes, the lines handed out are those of `recorded`, and no others
//   Moments   at every moment of a run the lines so far are those of the bits read so far, and of the bytes taken so far
//   Keeps     a refused call changes nothing, and one that finds no tail changes no byte of the buffer
//   Standing  the line handed out last stands in its buffer until a later call finds the next tail
//   Advances  a call takes no more than it was offered, and at least one byte of a piece that has any
//   Later     bits behind a recording add lines behind its own, and change none
//   Zero      setting 0 is document 01 as it was, without a setting
//
// Over any machine that goes bit by bit: Calls (one call), Cuts (calls in a row), Onward (the state after them). Over any window
// and any line: Windows (the plain definition), Auto (the same as a machine), Stands and Simulates (the reader is that
// machine), Snoc (one bit more). Over the call itself: Cases (its cases), Reached (the records that it comes to).
#![tactic(auto)]
