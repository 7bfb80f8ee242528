// Document 01 and the requests so far as definitions. There is no code here: the crates above cite
// these definitions in their contracts. specs/Lib.antt lists the files in the paper's order.
// proofs/ runs the tables of specs/Bench and specs/Samples; all other laws are in crates/laws.
#![tactic(auto)]
