// One report from the other (request R-9): the matches in skip mode 0, chosen from the report in
// skip mode 1. There is no code here: specs/Chosen says how an auditor chooses, and proofs/ shows
// that the choice is what a call in mode 0 returns. It stands on the search's promise alone.
#![tactic(auto)]
