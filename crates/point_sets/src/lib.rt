// The points of a card are a finite set (document 02, wish 7): what the calls on a card, and a run answered by it, make of a point that stands twice.
// Definitions in specs/, theorems in proofs/. This crate has no code.
#![tactic(auto)]
