// What a line desk is worth after any calls from an empty one, in one place: there is no code here. `specs/Histories` has what a history
// is and what it says of a slot, `specs/Tests` what each call tests; `proofs/` has the theorems, over the definitions of `desk_record`
// and `desk`.
//
//   Steps          what an accepted call does, that a refused one does nothing, and so what holds after any calls
//   Past           what a slot is used for is what the history says
//   Exactly        free, being filled and held by c, each exactly; they add up to the number of slots
//   Serials        serial numbers are 1, 2, 3 and so on, and never repeat
//   Others         a release leaves every hold of everybody else
//   Holding        a hold stays until its own release
//   Apart          what one consumer releases alters nothing that the other may read
//   Once           no release is accepted twice
//   StaysPossible  no call leads from a possible desk to an impossible one
//   Accepts        when a call is accepted
//   Refused        each refusal exactly; from an empty desk 12 never comes
#![tactic(auto)]
