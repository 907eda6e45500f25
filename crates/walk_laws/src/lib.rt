// No code: steps for the proofs that walk a function's MIR, for the crates whose functions hold slices of structs.
#![tactic(auto)]
