// The cell of a run record, its fields apart and put together again, and what owning a record tells of its fields. Theorems in proofs/.
// This crate has no code.
#![tactic(auto)]
