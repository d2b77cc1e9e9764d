// Many scrambling bits a step: there is no code here. `specs/Runs.antt` says what the key of a run of bits is, and what it must do:
// the bits of the rule, its register, and the same bits on the wire, from every register and every place. `proofs/` shows it
// once, over the number of bits taken per step:
//
//   Keys      the w bits that follow a register, and the register after them
//   Groups    what complementing puts on w bits from any place on
//   Steps     THE QUICK WAY AND THE BIT RULE GIVE THE SAME; any division into steps does
//   Far       the rule at every distance 2 ^ j, and words of the key
//   Words     bytes of the key put together as words, the first byte the lowest
#![tactic(auto)]
