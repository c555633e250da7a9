// What remains of the numbers asked of an adapted list where some of the patterns' numbers are known: each less the query of its product. Two systems at
// once, on the same patterns: the sign of a product on a pattern serves both.
// The functions are for the solver, whose calls show what they require; the definitions are in specs/.
#![tactic(auto)]

ghost use Rattle.std.specs.Prelude.{◌≡◌, cond, ◌+◌, ◌*◌, ◌^◌, ◌≤◌, ◌<◌, nat_abs, length};
ghost use Rattle.refusals.specs.Limits.{most_polynomials, most_points};
ghost use Rattle.integers.specs.Sums.{Within};
ghost use Rattle.signs.specs.Lists.{Below, Rising};
ghost use Rattle.signs.specs.Bits.{digit_set};
ghost use Rattle.signs.specs.Adapted.{adapted as adapted_of};
ghost use Rattle.solver_moments.specs.Moments.{most_moment, put_one};
ghost use Rattle.solver_residuals.specs.Residuals.{either0, is_small, bit_sum, Gathered, SubtractedBoth, ResidualsBoth};

use adapted::adapted;
use integers::scale;
use refusals::MOST_POINTS;
use signs::{DigitSets, digit_sets, sign_by};

// The largest absolute value that may remain.
const LIMIT: i16 = MOST_POINTS as i16;

// Whether one of the two is not 0.
fn counts(x: i16, y: i16) -> bool
    ensures { result ≡ either0 x y }
{
    x != 0 || y != 0
}

// Writes the digits of q to ones and twos and its numbers x and y to u and v, each at n, where one of the two is not 0. Returns where the next one goes.
fn gather_one(
    q: u16,
    i: usize,
    x: i16,
    y: i16,
    ones: &mut [u16],
    twos: &mut [u16],
    u: &mut [i16],
    v: &mut [i16],
    n: usize,
) -> usize
    requires { (i ≤ most_polynomials) × (q < 3 ^ i) × (n < length ones.old) × (n < length twos.old) × (n < length u.old) × (n < length v.old) }
    ensures value { result ≡ n + cond (either0 x y) 1 0 }
    ensures ones_after { ones.new ≡ put_one (either0 x y) ones.old n (digit_set 1 i q) }
    ensures twos_after { twos.new ≡ put_one (either0 x y) twos.old n (digit_set 2 i q) }
    ensures u_after { u.new ≡ put_one (either0 x y) u.old n x }
    ensures v_after { v.new ≡ put_one (either0 x y) v.old n y }
{
    if !counts(x, y) {
        return n;
    }
    let p = digit_sets(q, i);
    ones[n] = p.ones;
    twos[n] = p.twos;
    u[n] = x;
    v[n] = y;
    n + 1
}

// Writes the digits of those patterns of l, of i polynomials, that have a number other than 0 in x or in y to ones and twos, and their numbers to u and v.
// Returns how many.
fn gather(
    l: &[u16],
    i: usize,
    x: &[i16],
    y: &[i16],
    ones: &mut [u16],
    twos: &mut [u16],
    u: &mut [i16],
    v: &mut [i16],
) -> usize
    requires i_le_most_polynomials { (i ≤ most_polynomials) × Below (3 ^ i) l.now × (length x.now ≡ length l.now) × (length y.now ≡ length l.now) × Within most_moment x.now × Within most_moment y.now }
    requires l_in_bounds { (length l.now ≤ length ones.old) × (length l.now ≤ length twos.old) × (length l.now ≤ length u.old) × (length l.now ≤ length v.old) }
    ensures gathered { Gathered i l.now x.now result ones.new twos.new u.new }
    ensures gathered_2 { Gathered i l.now y.now result ones.new twos.new v.new }
{
    let mut n = 0;
    for (j, q) in l.iter().enumerate() {
        n = gather_one(*q, i, x[j], y[j], ones, twos, u, v, n);
    }
    n
}

// The queries of one product in the two systems.
#[derive(Clone, Copy, Debug, PartialEq, Eq)]
pub struct Queries {
    pub first: i16,
    pub second: i16,
}

// The queries of the product with the digits a where the patterns with the digits ones and twos count as u and as v say.
fn queries_by_digits(a: DigitSets, ones: &[u16], twos: &[u16], u: &[i16], v: &[i16]) -> Queries
    requires ones_len { (length ones.now ≡ length u.now) × (length twos.now ≡ length u.now) × (length v.now ≡ length u.now) × (length u.now ≤ most_points) }
    requires within { Within most_moment u.now × Within most_moment v.now }
    ensures first_value { (result.first ≡ bit_sum a.ones a.twos ones.now twos.now u.now) × (nat_abs result.first ≤ most_points * most_moment) }
    ensures second_value { (result.second ≡ bit_sum a.ones a.twos ones.now twos.now v.now) × (nat_abs result.second ≤ most_points * most_moment) }
{
    let mut first: i16 = 0;
    let mut second: i16 = 0;
    for j in 0..u.len() {
        let s = sign_by(
            a,
            DigitSets {
                ones: ones[j],
                twos: twos[j],
            },
        );
        first += scale(s, u[j]);
        second += scale(s, v[j]);
    }
    Queries { first, second }
}

// Whether a number lies in −64 .. 64.
fn is_small(x: i16) -> bool
    ensures { result ≡ is_small x }
{
    (-LIMIT..=LIMIT).contains(&x)
}

// Writes to r and t the numbers x and y asked of the products a of i polynomials, less their queries where the patterns count as u and as v say. None where
// one that remains is outside −64 .. 64.
fn subtract_queries(
    x: &[i16],
    y: &[i16],
    a: &[u16],
    i: usize,
    ones: &[u16],
    twos: &[u16],
    u: &[i16],
    v: &[i16],
    r: &mut [i16],
    t: &mut [i16],
) -> Option<()>
    requires i_le_most_polynomials { (i ≤ most_polynomials) × Below (3 ^ i) a.now × (length x.now ≡ length a.now) × (length y.now ≡ length a.now) × (length r.old ≡ length a.now) × (length t.old ≡ length a.now) }
    requires within { Within most_points x.now × Within most_points y.now × Within most_moment u.now × Within most_moment v.now }
    requires ones_len { (length ones.now ≡ length u.now) × (length twos.now ≡ length u.now) × (length v.now ≡ length u.now) × (length u.now ≤ most_points) }
    ensures { SubtractedBoth i a.now ones.now twos.now u.now v.now x.now y.now r.new t.new result }
{
    for (k, product) in a.iter().enumerate() {
        let z = queries_by_digits(digit_sets(*product, i), ones, twos, u, v);
        let d = x[k] - z.first;
        let e = y[k] - z.second;
        if !is_small(d) || !is_small(e) {
            return None;
        }
        r[k] = d;
        t[k] = e;
    }
    Some(())
}

// The same for the adapted list of l. Where nothing is known the numbers remain as they are, and the list is not worked out.
fn residuals_by(
    l: &[u16],
    i: usize,
    x: &[i16],
    y: &[i16],
    ones: &[u16],
    twos: &[u16],
    u: &[i16],
    v: &[i16],
    r: &mut [i16],
    t: &mut [i16],
) -> Option<()>
    requires i_le_most_polynomials { (i ≤ most_polynomials) × Rising l.now × Below (3 ^ i) l.now × (length l.now ≤ most_points) }
    requires x_len { (length x.now ≡ length l.now) × (length y.now ≡ length l.now) × (length r.old ≡ length l.now) × (length t.old ≡ length l.now) }
    requires within { Within most_points x.now × Within most_points y.now × Within most_moment u.now × Within most_moment v.now }
    requires ones_len { (length ones.now ≡ length u.now) × (length twos.now ≡ length u.now) × (length v.now ≡ length u.now) × (length u.now ≤ most_points) }
    ensures { SubtractedBoth i (adapted_of i l.now) ones.now twos.now u.now v.now x.now y.now r.new t.new result }
{
    if u.is_empty() {
        r.copy_from_slice(x);
        t.copy_from_slice(y);
        return Some(());
    }
    let n = l.len();
    let mut a = [0u16; MOST_POINTS];
    adapted(l, i, 0, &mut a, 0);
    subtract_queries(x, y, &a[..n], i, ones, twos, u, v, r, t)
}

// Writes to r and t what remains of the numbers x and y, asked of the adapted list of l, where the patterns low, of i polynomials too, have the numbers
// v and w. None where one that remains is outside −64 .. 64.
pub fn residuals(
    l: &[u16],
    low: &[u16],
    i: usize,
    x: &[i16],
    y: &[i16],
    v: &[i16],
    w: &[i16],
    r: &mut [i16],
    t: &mut [i16],
) -> Option<()>
    requires i_le_most_polynomials { (i ≤ most_polynomials) × Rising l.now × Below (3 ^ i) l.now × (length l.now ≤ most_points) }
    requires below { Below (3 ^ i) low.now × (length low.now ≤ most_points) × (length v.now ≡ length low.now) × (length w.now ≡ length low.now) × Within most_moment v.now × Within most_moment w.now }
    requires x_len { (length x.now ≡ length l.now) × (length y.now ≡ length l.now) × (length r.old ≡ length l.now) × (length t.old ≡ length l.now) }
    requires within { Within most_points x.now × Within most_points y.now }
    ensures { ResidualsBoth i low.now v.now w.now (adapted_of i l.now) x.now y.now r.new t.new result }
{
    let mut ones = [0u16; MOST_POINTS];
    let mut twos = [0u16; MOST_POINTS];
    let mut p = [0i16; MOST_POINTS];
    let mut q = [0i16; MOST_POINTS];
    let c = gather(low, i, v, w, &mut ones, &mut twos, &mut p, &mut q);
    residuals_by(l, i, x, y, &ones[..c], &twos[..c], &p[..c], &q[..c], r, t)
}
