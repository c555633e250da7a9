// The bytes of a card (document 01, "The card"), each part put at its place in a buffer. These functions ask that the numbers were checked and that the
// buffer has room: `write` shows it.
ghost use Rattle.std.specs.Prelude.{◌≡◌, false, [], ◌∷◌, map, ◌+◌, ◌*◌, ◌≤◌, ◌<◌, ltb, nat_abs, length};
ghost use Rattle.std.proofs.lemmas.List.Edits.{sets};
ghost use Rattle.refusals.specs.Limits.{most_polynomials, most_points, most_degree, most_coefficient};
ghost use Rattle.integers.specs.Search.{outside};
ghost use Rattle.card_bytes.specs.Bytes.{bytes, complement, wanted, bodies_from, offsets, body, bodies, card_bytes};
ghost use Rattle.card_bytes.specs.Causes.{some, wrong_points, polynomials_cause, write_cause};

// Where the numbers below 0 begin, of four bytes and of one.
const HALF_WORD: u32 = 2147483648;

const HALF_BYTE: u32 = 128;

// Where the first body of a card with s polynomials begins.
fn bodies_from(s: usize) -> usize
    requires { s ≤ most_polynomials }
    ensures { result ≡ bodies_from s }
{
    4 + 2 * (s + 1)
}

// How many bytes a card has that holds s polynomials with m coefficients in all, and n points.
pub fn card_length(s: usize, m: usize, n: usize) -> usize
    requires { (s ≤ most_polynomials) × (m ≤ (most_degree + 1) * most_polynomials) × (n ≤ most_points) }
    ensures { result ≡ bodies_from s + (s + 4 * m) + n }
{
    bodies_from(s) + (s + 4 * m) + n
}

// Puts the low k bytes of the number v, high byte first, from byte `at` on.
fn put_number(v: u32, k: usize, out: &mut [u8], at: usize)
    requires { (k ≤ 4) × (at + k ≤ length out.old) }
    ensures { out.new ≡ sets out.old at (bytes k v) }
{
    out[at..at + k].copy_from_slice(&v.to_be_bytes()[4 - k..]);
}

// A number in two's complement, where the numbers from half on stand for those below 0.
fn in_complement(half: u32, z: i64) -> u32
    requires { (nat_abs z < half) × (half ≤ 2147483648) }
    ensures { (result ≡ complement half z) × (result < 2 * half) }
{
    if z < 0 {
        return (2 * (half as i64) + z) as u32;
    }
    z as u32
}

// Puts the contents: where each body begins, and where the points do.
fn put_offsets(degrees: &[usize], out: &mut [u8])
    requires degrees_len_bound { (length degrees.now ≤ most_polynomials) × (some (ltb most_degree) degrees.now ≡ false) }
    requires degrees_in_bounds { bodies_from (length degrees.now) ≤ length out.old }
    ensures { out.new ≡ sets out.old 4 (offsets (bodies_from (length degrees.now)) degrees.now) }
{
    let mut begins = bodies_from(degrees.len());
    for (j, d) in degrees.iter().enumerate() {
        put_number(begins as u32, 2, out, 4 + 2 * j);
        begins += 1 + 4 * (d + 1);
    }
    put_number(begins as u32, 2, out, 4 + 2 * degrees.len());
}

// Puts the body of a polynomial of degree d from byte `at` on: its degree, then its coefficients.
fn put_body(d: usize, coefficients: &[i64], out: &mut [u8], at: usize)
    requires d_le_most_degree { (d ≤ most_degree) × (length coefficients.now ≡ d + 1) × (some (outside most_coefficient) coefficients.now ≡ false) }
    requires d_in_bounds { at + (1 + 4 * (d + 1)) ≤ length out.old }
    ensures { out.new ≡ sets out.old at (body d coefficients.now) }
{
    out[at] = d as u8;
    for (i, z) in coefficients.iter().enumerate() {
        put_number(in_complement(HALF_WORD, *z), 4, out, at + 1 + 4 * i);
    }
}

// Puts the bodies, one after the other, from byte `at` on.
fn put_bodies(degrees: &[usize], coefficients: &[i64], out: &mut [u8], at: usize)
    requires degrees_len_bound { (length degrees.now ≤ most_polynomials) × (some (ltb most_degree) degrees.now ≡ false) }
    requires coefficients_len { (length coefficients.now ≡ wanted degrees.now) × (polynomials_cause degrees.now coefficients.now ≡ 0) }
    requires degrees_in_bounds { at + (length degrees.now + 4 * wanted degrees.now) ≤ length out.old }
    ensures { out.new ≡ sets out.old at (bodies degrees.now coefficients.now) }
{
    let mut place = at;
    let mut left = coefficients;
    for d in degrees {
        let (own, others) = left.split_at(d + 1);
        put_body(*d, own, out, place);
        place += 1 + 4 * (d + 1);
        left = others;
    }
}

// Puts the points from byte `at` on.
fn put_points(points: &[i64], out: &mut [u8], at: usize)
    requires { (wrong_points points.now ≡ false) × (at + length points.now ≤ length out.old) }
    ensures { out.new ≡ sets out.old at (map (complement 128) points.now) }
{
    for (k, z) in points.iter().enumerate() {
        out[at + k] = in_complement(HALF_BYTE, *z) as u8;
    }
}

// Puts the header: the first four bytes.
fn put_header(s: usize, n: usize, out: &mut [u8])
    requires { (s ≤ most_polynomials) × (n ≤ most_points) × (4 ≤ length out.old) }
    ensures { out.new ≡ sets out.old 0 (1 ∷ s ∷ n ∷ 0 ∷ []) }
{
    out[..4].copy_from_slice(&[1, s as u8, n as u8, 0]);
}

// Puts the whole card at the front of out.
pub fn put_card(degrees: &[usize], coefficients: &[i64], points: &[i64], out: &mut [u8])
    requires points_value { write_cause degrees.now coefficients.now points.now ≡ 0 }
    requires points_in_bounds { length (card_bytes degrees.now coefficients.now points.now) ≤ length out.old }
    ensures { out.new ≡ sets out.old 0 (card_bytes degrees.now coefficients.now points.now) }
{
    put_header(degrees.len(), points.len(), out);
    put_offsets(degrees, out);
    let begin = bodies_from(degrees.len());
    put_bodies(degrees, coefficients, out, begin);
    put_points(
        points,
        out,
        begin + (degrees.len() + 4 * coefficients.len()),
    );
}
