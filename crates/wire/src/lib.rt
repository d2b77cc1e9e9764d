// One line on the wire, but for its SYNC: there is no code here. `specs/` says what its information bits and its dummy are;
// `proofs/` has the laws of bits on the wire that the code of `scramble` does not need:
//
//   Rule   the scrambling bits keep the rule, each the exclusive or of those 14 and 15 places earlier; many steps
//   Wire   bits on the wire in parts, and made plain again: the way back, and a line bit by bit
#![tactic(auto)]
