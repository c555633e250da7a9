// Values of polynomials in one variable, by their coefficients from the constant up (document 01, "The card": degree 0 to 6).
//
// `evaluate` and `sign` have a `requires`: they are for the crates above, whose calls show it.
#![tactic(auto)]

ghost use Rattle.std.specs.Prelude.{◌≡◌, ◌≤◌, nat_abs};
ghost use Rattle.refusals.specs.Limits.{most_coefficient};
ghost use Rattle.integers.specs.Sums.{Within};
ghost use Rattle.signs.specs.Signs.{sign_digit};
ghost use Rattle.polynomials.specs.Values.{evaluate};

use refusals::MOST_DEGREE;

// How many coefficients a polynomial has at most.
pub const MOST_COEFFICIENTS: usize = MOST_DEGREE + 1;

// The value at x of the polynomial with the coefficients p, by Horner's rule.
pub fn evaluate(p: &[i64; MOST_COEFFICIENTS], x: i64) -> i64
    requires { Within most_coefficient p.now × (nat_abs x ≤ 128) }
    ensures { result ≡ evaluate p.now x }
{
    let mut v = 0;
    for c in p.iter().rev() {
        v = v * x + *c;
    }
    v
}

// The digit of a value's sign in a pattern number: 0 for 0, 1 for +, 2 for −.
pub fn sign_digit(v: i64) -> u16
    ensures { result ≡ sign_digit v }
{
    if v < 0 {
        2
    } else if v == 0 {
        0
    } else {
        1
    }
}

// The digit of the sign at x of the polynomial with the coefficients p.
pub fn sign(p: &[i64; MOST_COEFFICIENTS], x: i64) -> u16
    requires { Within most_coefficient p.now × (nat_abs x ≤ 128) }
    ensures { result ≡ sign_digit (evaluate p.now x) }
{
    sign_digit(evaluate(p, x))
}
