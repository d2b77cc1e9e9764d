// What was written into a sector is read back: there is no code here. `proofs/` has it, over the definitions of
// `sectors` and of `sector_writer`:
//
//   Back       a written sector is accepted, has no filler bit set, and gives back its data bits
//   RoundTrip  data bytes and pixels that were written are given back
//   Others     every other sector stays, and so do the bits past the line
//   Carried    what was put into a sector last, the line's bits carry, also after calls on other sectors
//   Rounds     and so it comes back by the calls that read
//   Points     P3 to P7 of document 01
#![tactic(auto)]
