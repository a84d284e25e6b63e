// The three demands as theorems, in specs/ and proofs/; a crate must have a source file, and this one has no code.
#![tactic(auto)]
