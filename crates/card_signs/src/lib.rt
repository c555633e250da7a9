// The signs of a card's polynomials at its points, on a card of either kind.
//
// The functions have a `requires`: they are for the crates above, whose calls show it.
#![tactic(auto)]

ghost use Rattle.std.specs.Prelude.{◌≡◌, ◌<◌};
ghost use Rattle.signs.specs.Signs.{sign_digit};
ghost use Rattle.layout.specs.Format.{polynomials, point_count, offset, points_at};
ghost use Rattle.plane.specs.Contents.{value_at, card_point};
ghost use Rattle.card.specs.Sound.{Sound};
ghost use Rattle.card_signs.specs.Coefficients.{line_coefficients};

use layout::point;
use plane::is_plane;
use polynomials::MOST_COEFFICIENTS;

// The coefficients of polynomial j of a card of points on the line, for `sign`; of a card of points in the plane, zeros.
pub fn coefficients(card: &[u8], j: usize) -> [i64; MOST_COEFFICIENTS]
    requires { Sound card.now × (j < polynomials card.now) }
    ensures { result ≡ line_coefficients card.now j }
{
    if is_plane(card) {
        return [0i64; MOST_COEFFICIENTS];
    }
    layout::coefficients(card, layout::offset(card, j))
}

// The digit of the sign of polynomial j at point k, on the line by its coefficients p, in the plane by its terms; the points begin at byte from.
pub fn sign(card: &[u8], j: usize, p: &[i64; MOST_COEFFICIENTS], from: usize, k: usize) -> u16
    requires { Sound card.now × (j < polynomials card.now) × (p.now ≡ line_coefficients card.now j) × (from ≡ points_at card.now) × (k < point_count card.now) }
    ensures { result ≡ sign_digit (value_at card.now (offset card.now j) (card_point card.now k)) }
{
    if is_plane(card) {
        let x = point(card, from, 2 * k);
        let y = point(card, from, 2 * k + 1);
        return plane::sign(card, layout::offset(card, j), x, y);
    }
    polynomials::sign(p, point(card, from, k))
}
