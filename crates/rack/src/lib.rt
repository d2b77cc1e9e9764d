// The library for the board, as a whole: there is no code here. Its calls, for C and Rust, are those of nine crates, and
// `library/build` makes one archive of them:
//
//   rack_ground     the version; formats, register, SYNC
//   rack_recording  the reader and the writer of recordings
//   rack_sector     the twelve sectors of one plain line, read and written
//   rack_report     the report of a pass
//   rack_desk       the line desk
//   rack_number     the numbers of the documentation fields; the answers that the others give too
//   rack_document   the fields of the documentation sector
//   rack_blocks     blocks out of segments, and the revision of a finished one
//   rack_entries    the entries of a finished block
//
// `specs/` and `proofs/` have what is claimed across the boundary, over the definitions of those crates:
//
//   Records  the reader's record comes back unchanged, so each call is the reader's own; a refused one changes nothing
//   Run      the caller of demand 3 on the other side of the boundary: its runs, and their moments
//   Calls, Played, Moments  a call, a run, a moment there is the reader's own
//   Demand3  demand 3 across the boundary, a to d, as one record
//   Demand2  demand 2 across the boundary
//   Iced     which wrong bits in SYNC and dummy cost no line, there too
//   Assembled  a finished block there is of one revision
//   Grid     the columns of the mapping grid there are the sources'
//   Cards    what comes of one card's recording in a format of the other, there too
//   Reports, ReportRun  the report crosses and comes back; the report of a recording in any cut
//   Desks, ClassRun  the desk crosses and comes back; what a consumer reads is the line of its number
//   Zeros    a refused answer there has its number and 0 elsewhere: one list
//   UniqueAcross  any two results that a contract there allows are the same: one list
#![tactic(auto)]
