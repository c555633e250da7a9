// Rows, rounds and their ends (document 01, "The run"): what the answers of the rounds say of the patterns and their counts. Definitions in specs/,
// theorems in proofs/. This crate has no code; the call that ends a round is in `run_round_end`.
#![tactic(auto)]
