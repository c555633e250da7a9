// The solver (document 01, "Adapted lists"): the whole numbers on a list of patterns whose queries on its adapted list are given. The recursion is in
// `solver_recursion`.
#![tactic(auto)]

ghost use Rattle.std.specs.Prelude.{◌≡◌, ◌≤◌, length};
ghost use Rattle.refusals.specs.Limits.{most_polynomials, most_points};
ghost use Rattle.solutions.specs.Solution.{Posed};
ghost use Rattle.solutions.specs.Solver.{solver_of};
ghost use Rattle.solver.specs.Solving.{answered, solve_of};

use refusals::{MOST_POINTS, MOST_POLYNOMIALS, Refusal};
use solutions::posed;
use solver_moments::{copy_small, copy_wide};
use solver_recursion::solve_pair;

// Writes to the front of out the whole numbers on the patterns, a rising list of patterns of s polynomials, whose queries on its adapted list are the
// numbers given. Refused: s outside 1 .. 8 (3); a list that does not rise, is longer than 64 or holds a pattern above 3^s − 1, or not as many numbers as
// patterns (11); out shorter than the list (15); no such numbers whose absolute values add up to at most 64 (12). A refusal leaves out as it was, and
// past the list out keeps what lay there.
pub fn solve(s: usize, patterns: &[u16], numbers: &[i64], out: &mut [i64]) -> Result<(), Refusal>
    ensures value { result ≡ (solve_of s patterns.now numbers.now out.old).0 }
    ensures out_after { out.new ≡ (solve_of s patterns.now numbers.now out.old).1 }
{
    if s == 0 || MOST_POLYNOMIALS < s {
        return Err(Refusal::WrongCount);
    }
    if !posed(s, patterns, numbers) {
        return Err(Refusal::WrongList);
    }
    let n = patterns.len();
    if out.len() < n {
        return Err(Refusal::TooShort);
    }
    let mut x = [0i16; MOST_POINTS];
    let mut v = [0i16; MOST_POINTS];
    solve_to(s, patterns, numbers, &mut x[..n], &mut v[..n], out)
}

// The same of a call that is well posed, where out has room, with room for the numbers asked and for those found, which are small. The recursion solves
// two systems at once: this one twice.
fn solve_to(
    s: usize,
    patterns: &[u16],
    numbers: &[i64],
    x: &mut [i16],
    v: &mut [i16],
    out: &mut [i64],
) -> Result<(), Refusal>
    requires s_le_most_polynomials { (s ≤ most_polynomials) × (length patterns.now ≤ most_points) × (length patterns.now ≤ length out.old) }
    requires x_len { (length x.old ≡ length patterns.now) × (length v.old ≡ length patterns.now) }
    requires posed { Posed s patterns.now numbers.now }
    ensures value { result ≡ (answered out.old (solver_of s patterns.now numbers.now)).0 }
    ensures out_after { out.new ≡ (answered out.old (solver_of s patterns.now numbers.now)).1 }
{
    copy_small(numbers, x).ok_or(Refusal::NoSolution)?;
    let n = patterns.len();
    let mut w = [0i16; MOST_POINTS];
    solve_pair(patterns, s, x, x, v, &mut w[..n]).ok_or(Refusal::NoSolution)?;
    copy_wide(v, out);
    Ok(())
}
