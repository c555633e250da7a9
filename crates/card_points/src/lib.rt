// The distinct points of a card, of either kind: each point once, however often it stands on the card (document 02, wish 7). Points of a sound card never
// fall, so that equal ones stand together, and one look at the point before tells a new one.
//
// The functions have a `requires`: they are for the crates above, whose calls show it.
#![tactic(auto)]

ghost use Rattle.std.specs.Prelude.{◌≡◌, not, ◌<◌};
ghost use Rattle.layout.specs.Format.{point_count, points_at};
ghost use Rattle.card.specs.Sound.{Sound};
ghost use Rattle.card_points.specs.Places.{repeats, Placed};

use plane::is_plane;
use refusals::MOST_POINTS;

// Places of points on a card, from 0: the first n of `at`, rising.
#[derive(Clone, Copy, Debug)]
pub struct Places {
    pub at: [u8; MOST_POINTS],
    pub n: usize,
}

// Whether point k is a new one, which is not the point before it; the points begin at byte from.
fn fresh(card: &[u8], from: usize, k: usize) -> bool
    requires { Sound card.now × (from ≡ points_at card.now) × (k < point_count card.now) }
    ensures { result ≡ not (repeats card.now k) }
{
    if k == 0 {
        return true;
    }
    if is_plane(card) {
        let i = from + 2 * k;
        return card[i] != card[i - 2] || card[i + 1] != card[i - 1];
    }
    let i = from + k;
    card[i] != card[i - 1]
}

// The places of the distinct points of a sound card of n points, which begin at byte from.
pub fn distinct_points(card: &[u8], from: usize, n: usize) -> Places
    requires { Sound card.now × (from ≡ points_at card.now) × (n ≡ point_count card.now) }
    ensures { Placed card.now result.at result.n }
{
    let mut at = [0u8; MOST_POINTS];
    let mut found = 0;
    for k in 0..n {
        if fresh(card, from, k) {
            at[found] = k as u8;
            found += 1;
        }
    }
    Places { at, n: found }
}
