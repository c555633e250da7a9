// Functions over lent records, proved step by step: the laws of their steps, and the walks of those that only read a lent record or pass it on, once
// for every type of plain data. Theorems in proofs/. This crate has no code.
#![tactic(auto)]
