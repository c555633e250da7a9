// The checks of a card, in the card's order (document 01, "Card order"; document 02, wishes 1 and 6). Each refuses by the first cause.
// Those of one polynomial in the plane, and of such points, are in the crate `plane_checks`.
ghost use Rattle.std.specs.Prelude.{◌≡◌, ◌||◌, eqb, ◌+◌, ◌≤◌, ◌<◌, pos, ◌+ℤ◌, length};
ghost use Rattle.refusals.specs.Refusals.{checked};
ghost use Rattle.layout.specs.Format.{polynomials, point_count, bodies_at, two's};
ghost use Rattle.layout.specs.Body.{Whole};
ghost use Rattle.card.specs.Kinds.{body_size};
ghost use Rattle.card.specs.Card.{contents_refusal, header_refusal, points_refusal, coefficients_refusal, polynomial_refusal, body_refusal, end_refusal};
ghost use Rattle.card.specs.Card.{bodies_refusal, refusal, position_refusal, kind_refusal, place_refusal};

use layout::{bodies_at, offset, size, too_large, word};
use plane::{PLANE, is_plane};
use refusals::Refusal;

// Byte 0 of a card of points on the line.
const LINE: u8 = 1;

// The limits, as bytes of a card have them.
const MOST_POLYNOMIALS: u8 = refusals::MOST_POLYNOMIALS as u8;

const MOST_POINTS: u8 = refusals::MOST_POINTS as u8;

const MOST_DEGREE: u8 = refusals::MOST_DEGREE as u8;

const LEAST_POINT: u8 = 128 - refusals::MOST_POINT; // with 128 added

const MOST_POINT: u8 = 128 + refusals::MOST_POINT; // with 128 added

const FARTHEST: u64 = refusals::MOST_POINT as u64;

// The contents, up to the first offset.
fn check_contents(card: &[u8]) -> Result<(), Refusal>
    requires { 4 ≤ length card.now }
    ensures { result ≡ checked (contents_refusal card.now) }
{
    let begin = bodies_at(card);
    if card.len() < begin {
        return Err(Refusal::WrongLength);
    }
    if offset(card, 0) != begin {
        return Err(Refusal::WrongOffset);
    }
    Ok(())
}

// Whether a card is of one of the two kinds, by byte 0.
fn is_kind(byte: u8) -> bool
    ensures { result ≡ (eqb byte 1 || eqb byte 2) }
{
    matches!(byte, LINE | PLANE)
}

// The header and the contents.
fn check_header(card: &[u8]) -> Result<(), Refusal>
    ensures { result ≡ checked (header_refusal card.now) }
{
    if card.len() < 4 {
        return Err(Refusal::WrongLength);
    }
    if !is_kind(card[0]) || card[3] != 0 {
        return Err(Refusal::WrongByte);
    }
    if card[1] < 1 || MOST_POLYNOMIALS < card[1] || MOST_POINTS < card[2] {
        return Err(Refusal::WrongCount);
    }
    check_contents(card)
}

// The coefficients of the polynomial whose body begins at byte at: each within its limits, and the top one not 0 unless it is the constant.
fn check_coefficients(card: &[u8], at: usize) -> Result<(), Refusal>
    requires { Whole card.now at }
    ensures { result ≡ checked (coefficients_refusal card.now at) }
{
    let degree = usize::from(card[at]);
    for i in 0..=degree {
        if too_large(word(card, at + 1 + 4 * i)) {
            return Err(Refusal::WrongCoefficient);
        }
    }
    if 0 < degree && word(card, at + 1 + 4 * degree) == 0 {
        return Err(Refusal::ZeroTop);
    }
    Ok(())
}

// One polynomial on a card of points on the line, whose body begins at byte at.
fn check_polynomial(card: &[u8], at: usize) -> Result<(), Refusal>
    ensures { result ≡ checked (polynomial_refusal card.now at) }
{
    if card.len() <= at {
        return Err(Refusal::WrongLength);
    }
    if MOST_DEGREE < card[at] {
        return Err(Refusal::WrongDegree);
    }
    if card.len() < at + size(card, at) {
        return Err(Refusal::WrongLength);
    }
    check_coefficients(card, at)
}

// A signed byte with 128 added, so that the order of the bytes is the order of the points.
fn biased(b: u8) -> u8
    ensures { pos result ≡ two's 128 b +ℤ pos 128 }
{
    b.wrapping_add(128)
}

// Points on the line, which begin at byte at: each within its limits, none below the one before it.
fn check_points(card: &[u8], at: usize) -> Result<(), Refusal>
    requires { (4 ≤ length card.now) × (length card.now ≡ at + point_count card.now) }
    ensures { result ≡ checked (points_refusal card.now at) }
{
    let mut low = LEAST_POINT;
    for byte in &card[at..] {
        let point = biased(*byte);
        if point < low || MOST_POINT < point {
            return Err(Refusal::WrongPoint);
        }
        low = point;
    }
    Ok(())
}

// The bytes that are left on a card of points on the line, of which the points begin at byte at.
fn check_rest(card: &[u8], at: usize) -> Result<(), Refusal>
    requires { (4 ≤ length card.now) × (at ≤ length card.now) }
    ensures { result ≡ checked (points_refusal card.now at) }
{
    if card.len() - at != usize::from(card[2]) {
        return Err(Refusal::WrongLength);
    }
    check_points(card, at)
}

// How many bytes the body of the polynomial that begins at byte at has.
pub fn body_size(card: &[u8], at: usize) -> usize
    requires { at < length card.now }
    ensures { result ≡ body_size card.now at }
{
    if is_plane(card) {
        return plane::size(card, at);
    }
    size(card, at)
}

// One polynomial, whose body begins at byte at, on a card of either kind.
fn check_body(card: &[u8], at: usize) -> Result<(), Refusal>
    requires { 1 ≤ length card.now }
    ensures { result ≡ checked (body_refusal card.now at) }
{
    if is_plane(card) {
        return plane_checks::check_polynomial(card, at);
    }
    check_polynomial(card, at)
}

// The bytes that are left on a card of either kind, of which the points begin at byte at.
fn check_end(card: &[u8], at: usize) -> Result<(), Refusal>
    requires { (4 ≤ length card.now) × (at ≤ length card.now) }
    ensures { result ≡ checked (end_refusal card.now at) }
{
    if is_plane(card) {
        return plane_checks::check_rest(card, at);
    }
    check_rest(card, at)
}

// The bodies, after a sound header: each polynomial and the offset after it, then the points.
fn check_bodies(card: &[u8]) -> Result<(), Refusal>
    requires { header_refusal card.now ≡ 0 }
    ensures { result ≡ checked (bodies_refusal card.now (polynomials card.now) 0 (bodies_at card.now)) }
{
    let mut at = bodies_at(card);
    for j in 0..usize::from(card[1]) {
        check_body(card, at)?;
        at += body_size(card, at);
        if offset(card, j + 1) != at {
            return Err(Refusal::WrongOffset);
        }
    }
    check_end(card, at)
}

// A whole card: it passes where it is sound, else it is refused by the first cause.
pub fn check_card(card: &[u8]) -> Result<(), Refusal>
    ensures { result ≡ checked (refusal card.now) }
{
    check_header(card)?;
    check_bodies(card)
}

// A card, and position j of a polynomial on it.
pub fn check_position(card: &[u8], j: usize) -> Result<(), Refusal>
    ensures { result ≡ checked (position_refusal card.now j) }
{
    check_card(card)?;
    if usize::from(card[1]) <= j {
        return Err(Refusal::PastLast);
    }
    Ok(())
}

// A card where one of points on the line is wanted, as far as byte 0 tells.
pub fn check_kind(card: &[u8]) -> Result<(), Refusal>
    ensures { result ≡ checked (kind_refusal card.now) }
{
    if card.len() < 4 {
        return Err(Refusal::WrongLength);
    }
    if card[0] != LINE {
        return Err(Refusal::WrongByte);
    }
    Ok(())
}

// A card, position j of a polynomial on it, and the point (x, y).
pub fn check_place(card: &[u8], j: usize, x: i64, y: i64) -> Result<(), Refusal>
    ensures { result ≡ checked (place_refusal card.now j (x, y)) }
{
    check_position(card, j)?;
    if FARTHEST < x.unsigned_abs() || FARTHEST < y.unsigned_abs() {
        return Err(Refusal::WrongPoint);
    }
    Ok(())
}
