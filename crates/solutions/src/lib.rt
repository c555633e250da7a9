// Questions to the solver (document 01, "Adapted lists"): which are well posed, and which have a solution. The definitions are in specs/, and the theorem
// that `solver_of` finds the solution wherever there is one, and that there is never a second, in proofs/.
#![tactic(auto)]

ghost use Rattle.std.specs.Prelude.{◌≡◌, ◌≤◌};
ghost use Rattle.refusals.specs.Limits.{most_polynomials};
ghost use Rattle.solutions.specs.Posing.{is_list};

use signs::are_patterns;

// Whether these are a rising list of at most 64 patterns of s polynomials, and as many numbers.
#[tactic(auto, using(std::proofs::lemmas::Bool::Decides::nat_tests), unfolding(crate::specs::Posing::is_list, signs::specs::Lists::is_patterns))]
pub fn posed(s: usize, l: &[u16], x: &[i64]) -> bool
    requires { s ≤ most_polynomials }
    ensures { result ≡ is_list s l.now x.now }
{
    x.len() == l.len() && are_patterns(s, l)
}
