// The rules of a run (document 01, "The run") and demand 3 for them: definitions in specs/, theorems in proofs/. This crate has no code; the calls
// that keep these rules are in `determination`.
#![tactic(auto)]
