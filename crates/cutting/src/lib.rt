// Calls of a search by lots one behind the other (R-11). No code: from the promise of a call alone
// (crates/calls, specs/Calls) it is proved that the last one returns and reports what one run over
// all rows does, whatever lots the rows were cut into (specs/Cutting; proofs/OneRun, `as_one_run`).
#![tactic(auto)]
