// The release desk's query (request R-14) and the law about it: some reading of the query's pattern
// exists in a log exactly if the log is cleared, in the plain words of crates/bus_log. There is no
// code here: specs/Query has the bytes, proofs/Clearing the law.
#![tactic(auto)]
