// Facts about the fixed bits of a recording, SYNC and the dummy as they are written: there is no code here, and each
// fact is shown once, by computation where that is the way. `proofs/` has them, over the definitions of `scramble` and `wire`:
//
//   Sync      SYNC is the only sequence of its length that keeps the rule and ends with fifteen ones
//   OneRun    the bits go on after SYNC without a restart: SYNC and what is scrambled behind it are one run
//   Openings  what SYNC opens and ends with, and what the printed opening is
//   Windows   no window before the true one equals the tail; each differs from it in at least nine places
//   Period    the register's period, and where it stands after the information bits
//
// Every, Far, Sweep and Back are what these are computed by.
#![tactic(auto)]
