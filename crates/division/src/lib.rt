// What the remainder by x^16 + x^12 + x^5 + 1 over two elements is (`specs/Division.antt`): the steps of `crc_step` compute it, and
// there is no other; the check word, and no other word, leaves a remainder of 0; and what a start value does to both. No code.
#![tactic(auto)]
