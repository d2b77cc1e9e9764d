// What the pass report is worth, in one place: there is no code here. `specs/` has the caller that keeps a report of a recording,
// `proofs/` the theorems, over the definitions of `report_record` and `report`.
//
//   Laws       the report of two passes in a row is the two added; adding in any order, with the empty report for its unit
//   Is         a record is the report of some lines exactly where each of its fields says what it should of them
//   OfLines    the calls on reports of lines; accepted, 5 and 6 are the lines; absent exactly where there are no pixels
//   Stays      no call leads from possible records to an impossible one; two together in either order, three in any grouping
//   InBuffer   bytes behind a line's 44,356 have no part in its report
//   Passes     the report of a recording in any cut is that of the lines that the plain definition finds
//   Recordings two passes, each from its own recording; the lines of a recording pass 12
#![tactic(auto)]
