// Polynomials in X and Y on a card of points in the plane (document 02, wish 6): their terms, read off the card's bytes, and their values.
//
// The functions have a `requires`: they are for the crates above, whose calls show it.
#![tactic(auto)]

ghost use Rattle.std.specs.Prelude.{◌≡◌, map, ◌+◌, ◌*◌, ◌≤◌, ◌<◌, nat_abs, length};
ghost use Rattle.refusals.specs.Limits.{most_degree, most_point};
ghost use Rattle.integers.specs.Powers.{power};
ghost use Rattle.signs.specs.Lists.{up_to};
ghost use Rattle.signs.specs.Signs.{sign_digit};
ghost use Rattle.layout.specs.Format.{word};
ghost use Rattle.plane.specs.Format.{is_plane, plane_size, x_power, y_power, term_coefficient};
ghost use Rattle.plane.specs.Body.{PlaneBody};
ghost use Rattle.plane.specs.Values.{plane_value};

use refusals::MOST_DEGREE;

// Byte 0 of a card of points in the plane.
pub const PLANE: u8 = 2;

// How many powers of X, and of Y, a term may have: from 0 on.
const POWERS: usize = MOST_DEGREE + 1;

// Whether the points of a card are in the plane.
pub fn is_plane(card: &[u8]) -> bool
    requires { 1 ≤ length card.now }
    ensures { result ≡ is_plane card.now }
{
    card[0] == PLANE
}

// How many bytes the body of the polynomial that begins at byte at has.
pub fn size(card: &[u8], at: usize) -> usize
    requires { at < length card.now }
    ensures { result ≡ plane_size card.now at }
{
    1 + 6 * usize::from(card[at])
}

// The power of X in term i of the polynomial that begins at byte at.
pub fn x_power(card: &[u8], at: usize, i: usize) -> usize
    requires { at + (2 + 6 * i) ≤ length card.now }
    ensures { (result ≡ x_power card.now at i) × (result < 256) }
{
    usize::from(card[at + 1 + 6 * i])
}

// The power of Y in it.
pub fn y_power(card: &[u8], at: usize, i: usize) -> usize
    requires { at + (3 + 6 * i) ≤ length card.now }
    ensures { (result ≡ y_power card.now at i) × (result < 256) }
{
    usize::from(card[at + 2 + 6 * i])
}

// The four bytes of its coefficient.
pub fn word(card: &[u8], at: usize, i: usize) -> u32
    requires { at + (7 + 6 * i) ≤ length card.now }
    ensures { result ≡ word card.now (at + 3 + 6 * i) }
{
    layout::word(card, at + 3 + 6 * i)
}

// Its coefficient.
pub fn coefficient(card: &[u8], at: usize, i: usize) -> i64
    requires { at + (7 + 6 * i) ≤ length card.now }
    ensures { result ≡ term_coefficient card.now at i }
{
    layout::number(card, at + 3 + 6 * i)
}

// The powers of x, from 0 to 6.
fn powers(x: i64) -> [i64; POWERS]
    requires { nat_abs x ≤ most_point }
    ensures { result ≡ map (power x) (up_to (most_degree + 1)) }
{
    let mut p = [1i64; POWERS];
    for i in 1..POWERS {
        p[i] = x * p[i - 1];
    }
    p
}

// The value at (x, y) of the polynomial that begins at byte at.
pub fn evaluate(card: &[u8], at: usize, x: i64, y: i64) -> i64
    requires { PlaneBody card.now at × (nat_abs x ≤ most_point) × (nat_abs y ≤ most_point) }
    ensures { result ≡ plane_value card.now at (x, y) }
{
    let xs = powers(x);
    let ys = powers(y);
    let mut value = 0;
    for i in 0..usize::from(card[at]) {
        let a = x_power(card, at, i);
        let b = y_power(card, at, i);
        value += coefficient(card, at, i) * xs[a] * ys[b];
    }
    value
}

// The digit of its sign in a pattern number: 0 for 0, 1 for +, 2 for −.
pub fn sign(card: &[u8], at: usize, x: i64, y: i64) -> u16
    requires { PlaneBody card.now at × (nat_abs x ≤ most_point) × (nat_abs y ≤ most_point) }
    ensures { result ≡ sign_digit (plane_value card.now at (x, y)) }
{
    polynomials::sign_digit(evaluate(card, at, x, y))
}
