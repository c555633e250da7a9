// Draws a card from a seed (document 02, wish 2).
#![tactic(auto)]

ghost use Rattle.std.specs.Prelude.{◌≡◌, ◌+◌, ◌*◌, ◌≤◌, ◌<◌, length};
ghost use Rattle.std.proofs.lemmas.List.Edits.{sets};
ghost use Rattle.refusals.specs.Limits.{most_polynomials, most_points, most_degree};
ghost use Rattle.refusals.specs.Refusals.{checked};
ghost use Rattle.generator.specs.Generator.{after};
ghost use Rattle.card_writer.specs.Writing.{writing};
ghost use Rattle.card_draw.specs.Drawn.{top, drawn_polynomial, drawn_coefficients, drawn_points, draw_cause, drawing};

use generator::draw_numbers;
use refusals::{MOST_DEGREE, MOST_POINTS, MOST_POLYNOMIALS, Refusal};

// How many coefficients the polynomials of a card have at most.
const MOST_NUMBERS: usize = MOST_POLYNOMIALS * (MOST_DEGREE + 1);

// A coefficient is a draw below 19, less 9; a point one below 201, less 100.
const COEFFICIENT_BELOW: u32 = 19;

const COEFFICIENT_LESS: u32 = 9;

const POINT_BELOW: u32 = 201;

const POINT_LESS: u32 = 100;

// Whether s, n and d are within their limits.
fn check(s: usize, n: usize, d: usize) -> Result<(), Refusal>
    ensures { result ≡ checked (draw_cause s n d) }
{
    if s == 0 || s > MOST_POLYNOMIALS || n > MOST_POINTS {
        return Err(Refusal::WrongCount);
    }
    if d > MOST_DEGREE {
        return Err(Refusal::WrongDegree);
    }
    Ok(())
}

// A top coefficient as it is drawn: 1 for 0, unless it is the constant.
fn nonzero_top(d: usize, z: i64) -> i64
    ensures { result ≡ top d z }
{
    if d > 0 && z == 0 { 1 } else { z }
}

// Draws the coefficients of a polynomial of degree d into out, from place `at` on. Returns the state after them.
fn draw_polynomial(state: u32, d: usize, out: &mut [i64], at: usize) -> u32
    requires { (d ≤ most_degree) × (at + (d + 1) ≤ length out.old) }
    ensures { (result ≡ after (d + 1) state) × (out.new ≡ sets out.old at (drawn_polynomial d state)) }
{
    let next = draw_numbers(state, COEFFICIENT_BELOW, COEFFICIENT_LESS, out, at, d + 1);
    out[at + d] = nonzero_top(d, out[at + d]);
    next
}

// Draws the coefficients of s polynomials of degree d to the front of out. Returns the state after them.
fn draw_polynomials(state: u32, s: usize, d: usize, out: &mut [i64]) -> u32
    requires { (s ≤ most_polynomials) × (d ≤ most_degree) × (s * (d + 1) ≤ length out.old) }
    ensures { (result ≡ after (s * (d + 1)) state) × (out.new ≡ sets out.old 0 (drawn_coefficients s d state)) }
{
    let mut next = state;
    for j in 0..s {
        next = draw_polynomial(next, d, out, j * (d + 1));
    }
    next
}

// Draws as many points as out has room for, in rising order.
fn draw_points(state: u32, out: &mut [i64])
    ensures { out.new ≡ drawn_points (length out.old) state }
{
    let n = out.len();
    draw_numbers(state, POINT_BELOW, POINT_LESS, out, 0, n);
    sequences::sort(out);
}

// Draws the numbers into the room that is lent for them, which is just enough, and writes the card with these degrees.
fn draw_card(
    seed: u32,
    s: usize,
    d: usize,
    degrees: &[usize],
    coefficients: &mut [i64],
    points: &mut [i64],
    out: &mut [u8],
) -> Result<usize, Refusal>
    requires { (s ≤ most_polynomials) × (d ≤ most_degree) × (length coefficients.old ≡ s * (d + 1)) }
    ensures value { result ≡ (writing degrees.now (drawn_coefficients s d seed) (drawn_points (length points.old) (after (s * (d + 1)) seed)) out.old).0 }
    ensures out_after { out.new ≡ (writing degrees.now (drawn_coefficients s d seed) (drawn_points (length points.old) (after (s * (d + 1)) seed)) out.old).1 }
{
    let state = draw_polynomials(seed, s, d, coefficients);
    draw_points(state, points);
    card_writer::write(degrees, coefficients, points, out)
}

// Draws a card of s polynomials of degree d and n points from a seed, and writes it to the front of out. Refused, in this order: s outside 1 .. 8, or n
// above 64 (3); d above 6 (16); out shorter than the card (15). A refusal leaves out as it was, and past the card out keeps what lay there.
pub fn draw(seed: u32, s: usize, n: usize, d: usize, out: &mut [u8]) -> Result<usize, Refusal>
    ensures value { result ≡ (drawing seed s n d out.old).0 }
    ensures out_after { out.new ≡ (drawing seed s n d out.old).1 }
{
    check(s, n, d)?;
    let degrees = [d; MOST_POLYNOMIALS];
    let mut coefficients = [0i64; MOST_NUMBERS];
    let mut points = [0i64; MOST_POINTS];
    let many = s * (d + 1);
    draw_card(
        seed,
        s,
        d,
        &degrees[..s],
        &mut coefficients[..many],
        &mut points[..n],
        out,
    )
}
