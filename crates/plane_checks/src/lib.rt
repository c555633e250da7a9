// The checks of a card of points in the plane, of one polynomial and of the points, in the card's order (document 02, wish 6). Each refuses by
// the first cause. The crate `card` has the checks of the header, the contents and the offsets, and those of a card of points on the line.
//
// Some functions have a `requires`: they are for the crate above, whose calls show it.
#![tactic(auto)]

ghost use Rattle.std.specs.Prelude.{◌≡◌, ◌+◌, ◌*◌, ◌≤◌, length};
ghost use Rattle.refusals.specs.Numbers.{wrong_terms, wrong_coefficient, ◌when◌};
ghost use Rattle.refusals.specs.Refusals.{checked};
ghost use Rattle.refusals.specs.Limits.{most_coefficient};
ghost use Rattle.integers.specs.Search.{any_below, outside};
ghost use Rattle.layout.specs.Format.{point_count};
ghost use Rattle.plane.specs.Format.{term_count, term_coefficient};
ghost use Rattle.plane.specs.Body.{WholePlane};
ghost use Rattle.plane_checks.specs.Checks.{wrong_term, plane_refusal, plane_points_refusal};

use integers::within;
use layout::{point, too_large};
use plane::{size, word, x_power, y_power};
use refusals::{MOST_DEGREE, Refusal};

// The limits, as bytes and signed numbers of a card have them.
const MOST_TERMS: u8 = refusals::MOST_TERMS as u8;

const MOST_POINT: i64 = refusals::MOST_POINT as i64;

// The place of a term in the order of terms is its power of X times this, and its power of Y; so for the points.
const TERM_STRIDE: usize = 256;

const POINT_STRIDE: i64 = 256;

// The terms of the polynomial whose body begins at byte at: powers that are together at most 6, rising terms, no coefficient of 0.
fn check_terms(card: &[u8], at: usize) -> Result<(), Refusal>
    requires { WholePlane card.now at }
    ensures { result ≡ checked (wrong_terms when any_below (wrong_term card.now at) (term_count card.now at)) }
{
    let mut least = 0;
    for i in 0..usize::from(card[at]) {
        let a = x_power(card, at, i);
        let b = y_power(card, at, i);
        let place = TERM_STRIDE * a + b;
        if MOST_DEGREE < a + b || place < least || word(card, at, i) == 0 {
            return Err(Refusal::WrongTerms);
        }
        least = place + 1;
    }
    Ok(())
}

// Its coefficients: each within its limits.
fn check_limits(card: &[u8], at: usize) -> Result<(), Refusal>
    requires { WholePlane card.now at }
    ensures { result ≡ checked (wrong_coefficient when any_below (λ i. outside most_coefficient (term_coefficient card.now at i)) (term_count card.now at)) }
{
    for i in 0..usize::from(card[at]) {
        if too_large(word(card, at, i)) {
            return Err(Refusal::WrongCoefficient);
        }
    }
    Ok(())
}

// One polynomial, whose body begins at byte at.
pub fn check_polynomial(card: &[u8], at: usize) -> Result<(), Refusal>
    ensures { result ≡ checked (plane_refusal card.now at) }
{
    if card.len() <= at {
        return Err(Refusal::WrongLength);
    }
    if MOST_TERMS < card[at] {
        return Err(Refusal::WrongTerms);
    }
    if card.len() < at + size(card, at) {
        return Err(Refusal::WrongLength);
    }
    check_terms(card, at)?;
    check_limits(card, at)
}

// The points, which begin at byte at: X and Y of each within their limits, none below the one before it.
fn check_points(card: &[u8], at: usize) -> Result<(), Refusal>
    requires { (4 ≤ length card.now) × (length card.now ≡ at + 2 * point_count card.now) }
    ensures { result ≡ checked (plane_points_refusal card.now at) }
{
    let mut low = -POINT_STRIDE * (MOST_POINT + 1);
    for k in 0..usize::from(card[2]) {
        let x = point(card, at, 2 * k);
        let y = point(card, at, 2 * k + 1);
        if !within(x, MOST_POINT) || !within(y, MOST_POINT) {
            return Err(Refusal::WrongPoint);
        }
        let place = POINT_STRIDE * x + y;
        if place < low {
            return Err(Refusal::WrongPoint);
        }
        low = place;
    }
    Ok(())
}

// The bytes that are left, of which the points begin at byte at.
pub fn check_rest(card: &[u8], at: usize) -> Result<(), Refusal>
    requires { (4 ≤ length card.now) × (at ≤ length card.now) }
    ensures { result ≡ checked (plane_points_refusal card.now at) }
{
    if card.len() - at != 2 * usize::from(card[2]) {
        return Err(Refusal::WrongLength);
    }
    check_points(card, at)
}
