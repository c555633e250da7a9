// The adapted list of a list of patterns, for programs (document 01, "Adapted lists"): the products whose queries the solver's numbers are, in their
// order. The list itself is worked out in `adapted`.
#![tactic(auto)]

ghost use Rattle.std.specs.Prelude.{◌≡◌};
ghost use Rattle.adapted_list.specs.Listing.{list_of};

use adapted::adapted;
use refusals::{MOST_POLYNOMIALS, Refusal};
use signs::are_patterns;

// Writes to the front of out the adapted list of the patterns, a rising list of patterns of s polynomials: as many products as patterns. Refused: s
// outside 1 .. 8 (3); a list that does not rise, is longer than 64 or holds a pattern above 3^s − 1 (11); out shorter than the list (15). A refusal
// leaves out as it was, and past the list out keeps what lay there.
#[tactic(auto, using(std::proofs::lemmas::Bool::Decides::nat_tests), unfolding(crate::specs::Listing::list_of))]
pub fn adapted_list(s: usize, patterns: &[u16], out: &mut [u16]) -> Result<(), Refusal>
    ensures value { result ≡ (list_of s patterns.now out.old).0 }
    ensures out_after { out.new ≡ (list_of s patterns.now out.old).1 }
{
    if !(1..=MOST_POLYNOMIALS).contains(&s) {
        return Err(Refusal::WrongCount);
    }
    if !are_patterns(s, patterns) {
        return Err(Refusal::WrongList);
    }
    if out.len() < patterns.len() {
        return Err(Refusal::TooShort);
    }
    adapted(patterns, s, 0, out, 0);
    Ok(())
}
