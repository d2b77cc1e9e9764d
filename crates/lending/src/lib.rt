// A register of a function's own, lent to `scramble::step`: there is no code here. The borrow checker proves such a call by itself;
// `proofs/Lending.antt` has the rule, `lends_step`, by which a proof by hand passes it, over the definitions and the contract of
// `scramble`. No crate cites it.
#![tactic(auto)]
