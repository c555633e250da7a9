// The run on a card: the calls of a run, each answered by the panel number that the calls on the card tell. Definitions in specs/, theorems in proofs/.
// This crate has no code.
#![tactic(auto)]
