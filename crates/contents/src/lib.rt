// The contents of a card apart from its bytes: how many polynomials, their values and the points, which may be of any type. Definitions in specs/,
// theorems in proofs/. This crate has no code.
#![tactic(auto)]
