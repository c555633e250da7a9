// The checks before a card is written (document 02, wish 2), in the wish's order: `check` stops at the first cause.
#![tactic(auto)]

ghost use Rattle.std.specs.Prelude.{◌≡◌, false, ◌+◌, ◌≤◌, ltb, length};
ghost use Rattle.refusals.specs.Numbers.{wrong_point, ◌when◌, ◌▸◌};
ghost use Rattle.refusals.specs.Limits.{most_polynomials, most_degree, most_coefficient};
ghost use Rattle.refusals.specs.Refusals.{checked};
ghost use Rattle.integers.specs.Search.{outside};
ghost use Rattle.card_bytes.specs.Bytes.{wanted};
ghost use Rattle.card_bytes.specs.Causes.{some, wrong_points, polynomial_cause, polynomials_cause, write_cause};

use refusals::{MOST_DEGREE, MOST_POINTS, MOST_POLYNOMIALS, Refusal};

// The limits, as magnitudes.
const MOST_COEFFICIENT: u64 = refusals::MOST_COEFFICIENT as u64;

const MOST_POINT: u64 = refusals::MOST_POINT as u64;

// A number below −limit or above it.
fn is_outside(limit: u64, z: i64) -> bool
    ensures { result ≡ outside limit z }
{
    limit < z.unsigned_abs()
}

// Whether a degree is above 6.
fn has_high(degrees: &[usize]) -> bool
    ensures { result ≡ some (ltb most_degree) degrees.now }
{
    degrees.iter().any(|d| *d > MOST_DEGREE)
}

// How many coefficients polynomials of these degrees have.
fn wanted(degrees: &[usize]) -> usize
    requires { (length degrees.now ≤ most_polynomials) × (some (ltb most_degree) degrees.now ≡ false) }
    ensures { result ≡ wanted degrees.now }
{
    let mut sum = 0;
    for d in degrees {
        sum += d + 1;
    }
    sum
}

// Whether a coefficient is outside its limits.
fn has_large(coefficients: &[i64]) -> bool
    ensures { result ≡ some (outside most_coefficient) coefficients.now }
{
    coefficients
        .iter()
        .any(|z| is_outside(MOST_COEFFICIENT, *z))
}

// The coefficients of one polynomial, of degree d: each within its limits, and the top one not 0 unless it is the constant.
fn check_polynomial(d: usize, coefficients: &[i64]) -> Result<(), Refusal>
    requires { length coefficients.now ≡ d + 1 }
    ensures { result ≡ checked (polynomial_cause d coefficients.now) }
{
    if has_large(coefficients) {
        return Err(Refusal::WrongCoefficient);
    }
    if d > 0 && coefficients[d] == 0 {
        return Err(Refusal::ZeroTop);
    }
    Ok(())
}

// Each polynomial in turn.
fn check_polynomials(degrees: &[usize], coefficients: &[i64]) -> Result<(), Refusal>
    requires degrees_len_bound { (length degrees.now ≤ most_polynomials) × (some (ltb most_degree) degrees.now ≡ false) }
    requires coefficients_len { length coefficients.now ≡ wanted degrees.now }
    ensures { result ≡ checked (polynomials_cause degrees.now coefficients.now) }
{
    let mut left = coefficients;
    for d in degrees {
        let (own, others) = left.split_at(d + 1);
        check_polynomial(*d, own)?;
        left = others;
    }
    Ok(())
}

// Whether a point is outside its limits, or below the one before it.
fn are_wrong(points: &[i64]) -> bool
    ensures { result ≡ wrong_points points.now }
{
    points.iter().any(|z| is_outside(MOST_POINT, *z)) || !points.is_sorted()
}

// The polynomials and the points, where the degrees and the length of the list are right.
fn check_numbers(degrees: &[usize], coefficients: &[i64], points: &[i64]) -> Result<(), Refusal>
    requires degrees_len_bound { (length degrees.now ≤ most_polynomials) × (some (ltb most_degree) degrees.now ≡ false) }
    requires coefficients_len { length coefficients.now ≡ wanted degrees.now }
    ensures { result ≡ checked (polynomials_cause degrees.now coefficients.now ▸ wrong_point when wrong_points points.now) }
{
    check_polynomials(degrees, coefficients)?;
    if are_wrong(points) {
        return Err(Refusal::WrongPoint);
    }
    Ok(())
}

// All of it.
pub fn check(degrees: &[usize], coefficients: &[i64], points: &[i64]) -> Result<(), Refusal>
    ensures { result ≡ checked (write_cause degrees.now coefficients.now points.now) }
{
    if degrees.is_empty() || degrees.len() > MOST_POLYNOMIALS || points.len() > MOST_POINTS {
        return Err(Refusal::WrongCount);
    }
    if has_high(degrees) {
        return Err(Refusal::WrongDegree);
    }
    if coefficients.len() != wanted(degrees) {
        return Err(Refusal::WrongLength);
    }
    check_numbers(degrees, coefficients, points)
}
