// The bytes of a card by what it says, and the round trip. Theory only: definitions in specs/, laws in proofs/, no code. The code that writes a card is
// in `card_writer`.
#![tactic(auto)]
