// Demand 2 a second time, by what is heard, in specs/ and proofs/; a crate must have a source file, and this one has no code.
#![tactic(auto)]
