// Reads a card: the bytes that hold up to 8 polynomials and up to 64 points, on the line (document 01, "The card") or in the plane (document 02,
// wish 6).
#![tactic(auto)]

mod reader;

ghost use Rattle.std.specs.Prelude.{◌≡◌, ◌+◌, ◌<◌};
ghost use Rattle.layout.specs.Format.{polynomials, offset};
ghost use Rattle.plane.specs.Contents.{value_at};
ghost use Rattle.card.specs.Sound.{Sound};
ghost use Rattle.card.specs.Claim.{Near};
ghost use Rattle.card.specs.Answers.{reading, stretch, body, start, value_answer, value_at_answer};

use refusals::Refusal;

// What a card holds: how many polynomials and how many points.
#[derive(Clone, Copy, Debug, PartialEq, Eq)]
pub struct Shape {
    pub polynomials: usize,
    pub points: usize,
}

// Where the body of a polynomial stands on a card.
#[derive(Clone, Copy, Debug, PartialEq, Eq)]
pub struct Stretch {
    pub start: usize,
    pub len: usize,
}

// Reads the header of a card: s and n where the whole card is sound, else the first cause in the card's order.
pub fn read(card: &[u8]) -> Result<Shape, Refusal>
    ensures { result ≡ reading card.now }
{
    reader::check_card(card)?;
    Ok(Shape {
        polynomials: usize::from(card[1]),
        points: usize::from(card[2]),
    })
}

// Where the body of polynomial j stands, j counted from 0. A refused card has its own cause; then a position past the last polynomial has `PastLast`.
pub fn locate(card: &[u8], j: usize) -> Result<Stretch, Refusal>
    ensures { result ≡ stretch card.now j }
{
    reader::check_position(card, j)?;
    let start = layout::offset(card, j);
    Ok(Stretch {
        start,
        len: reader::body_size(card, start),
    })
}

// The body of polynomial j, its first byte first, as that stretch of the card itself. It is empty where the card or j is refused: `locate` has the cause.
pub fn body(card: &[u8], j: usize) -> &[u8]
    ensures { (result.now ≡ body card.now j) × (result.ref_ptr.0 ≡ card.entry.ref_ptr.0) × (result.ref_ptr.1 ≡ card.entry.ref_ptr.1 + start card.now j) }
{
    match locate(card, j) {
        Ok(Stretch { start, len }) => &card[start..start + len],
        Err(_) => &card[..0],
    }
}

// The value of polynomial j at x, on a card of points on the line. Any other card has `WrongByte`, where byte 0 is checked; a refused card has its own
// cause; then a position past the last polynomial has `PastLast`.
pub fn value(card: &[u8], j: usize, x: i8) -> Result<i64, Refusal>
    ensures { result ≡ value_answer card.now j x }
{
    reader::check_kind(card)?;
    reader::check_position(card, j)?;
    let p = layout::coefficients(card, layout::offset(card, j));
    Ok(polynomials::evaluate(&p, i64::from(x)))
}

// The value of polynomial j of a sound card at the point (x, y).
fn evaluate(card: &[u8], j: usize, x: i64, y: i64) -> i64
    requires { Sound card.now × (j < polynomials card.now) × Near (x, y) }
    ensures { result ≡ value_at card.now (offset card.now j) (x, y) }
{
    let at = layout::offset(card, j);
    if plane::is_plane(card) {
        return plane::evaluate(card, at, x, y);
    }
    let p = layout::coefficients(card, at);
    polynomials::evaluate(&p, x)
}

// The value of polynomial j at the point (x, y), on a card of either kind: a polynomial in X alone has its value at x. A refused card has its own cause;
// then a position past the last polynomial has `PastLast`; then a point with x or y outside −100 to 100 has `WrongPoint`.
pub fn value_at(card: &[u8], j: usize, x: i64, y: i64) -> Result<i64, Refusal>
    ensures { result ≡ value_at_answer card.now j (x, y) }
{
    reader::check_place(card, j, x, y)?;
    Ok(evaluate(card, j, x, y))
}
