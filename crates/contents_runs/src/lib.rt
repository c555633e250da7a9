// The run on contents: started with their s and answered throughout by their queries. Definitions in specs/, theorems in proofs/. This crate has
// no code.
#![tactic(auto)]
