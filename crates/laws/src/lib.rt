// The laws about the definitions of crates/rules: demands 2 and 3, and what the other crates'
// proofs cite. There is no code here, and nothing here has to be believed: proofs/Lib.antt lists
// the files.
#![tactic(auto)]
