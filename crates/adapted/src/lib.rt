// Adapted lists (document 01, "Adapted lists"): the last polynomial taken off a rising list of patterns by merging its three blocks, and the
// list of products by recursion on the number of polynomials. The definitions are in specs/ of `signs` and here.
//
// The functions with a `requires` are for the crates above this one, whose calls show it.
#![tactic(auto)]

ghost use Rattle.std.specs.Prelude.{◌≡◌, cond, [], ◌∷◌, suc, ◌+◌, ◌*◌, ◌^◌, ◌≤◌, ◌<◌, min, eqb, length, get_or, set};
ghost use Rattle.std.proofs.lemmas.List.Edits.{sets};
ghost use Rattle.refusals.specs.Limits.{most_polynomials, most_points};
ghost use Rattle.signs.specs.Lists.{Below, Rising, shift};
ghost use Rattle.signs.specs.Bits.{bit_of};
ghost use Rattle.signs.specs.Adapted.{adapted as adapted_of};
ghost use Rattle.adapted.specs.Split.{leading, head_of, Split, count_of, chosen, parts_of};

use refusals::MOST_POINTS;
use signs::{bit, power};

// How many elements of a rising list are below a bound: the place where the rest begins.
fn leading_count(l: &[u16], bound: u16) -> usize
    ensures { result ≡ leading bound l.now }
{
    l.iter().position(|x| bound <= *x).unwrap_or(l.len())
}

// The low part of the element at k where k is before the end, else w, which is above every low part.
fn head(l: &[u16], k: usize, end: usize, base: u16, w: u16) -> u16
    requires { k < end → (k < length l.now) × (base ≤ get_or l.now k 0) }
    ensures { result ≡ head_of l.now k end base w }
{
    if k < end { l[k] - base } else { w }
}

fn least(x: u16, y: u16, z: u16) -> u16
    ensures { result ≡ min x (min y z) }
{
    x.min(y.min(z))
}

// The signs that q stands with, where x, y and z are the next low parts with the signs 0, + and −: bits 0, 1 and 2.
fn marks(x: u16, y: u16, z: u16, q: u16) -> u8
    ensures { result ≡ bit_of x q + 2 * bit_of y q + 4 * bit_of z q }
{
    bit(x, q) + 2 * bit(y, q) + 4 * bit(z, q)
}

// Notes that the element at k has its low part at n, where that part x is q. Returns the place of the next element.
fn advance(at: &mut [u8], k: usize, x: u16, q: u16, n: usize) -> usize
    requires { (x ≡ q → k < length at.old) × (k < 256) × (n < 256) }
    ensures value { result ≡ k + bit_of x q }
    ensures at_after { at.new ≡ cond (eqb x q) (set at.old k n) at.old }
{
    if x == q {
        at[k] = n as u8;
        k + 1
    } else {
        k
    }
}

// Takes the last polynomial, whose digit weighs w, off the rising list l, by merging its three blocks. Writes the patterns left to low, rising,
// with the signs that each stood with to mark, and for each element of l the place of its low part in low to at. Returns how many are left.
pub fn split(l: &[u16], w: u16, low: &mut [u16], mark: &mut [u8], at: &mut [u8]) -> usize
    requires w_bound { (3 * w ≤ 3 ^ most_polynomials) × Rising l.now × Below (3 * w) l.now × (length l.now ≤ most_points) }
    requires l_in_bounds { (length l.now ≤ length low.old) × (length l.now ≤ length mark.old) × (length l.now ≤ length at.old) }
    ensures { Split w l.now result low.new mark.new at.new }
{
    let mid = leading_count(l, w);
    let top = leading_count(l, 2 * w);
    let mut a = 0;
    let mut b = mid;
    let mut c = top;
    let mut n = 0;
    loop {
        let x = head(l, a, mid, 0, w);
        let y = head(l, b, top, w, w);
        let z = head(l, c, l.len(), 2 * w, w);
        let q = least(x, y, z);
        if w <= q {
            return n;
        }
        low[n] = q;
        mark[n] = marks(x, y, z, q);
        a = advance(at, a, x, q, n);
        b = advance(at, b, y, q, n);
        c = advance(at, c, z, q, n);
        n += 1;
    }
}

// How many signs a mark has.
pub fn count(m: u8) -> usize
    requires { m < 8 }
    ensures { result ≡ count_of m }
{
    m.count_ones() as usize
}

// Writes q to out at n where its mark has at least k signs. Returns where the next one goes.
fn choose(q: u16, m: u8, k: usize, out: &mut [u16], n: usize) -> usize
    requires { (m < 8) × (n < length out.old) }
    ensures value { result ≡ n + length (chosen k (q ∷ []) (m ∷ [])) }
    ensures out_after { out.new ≡ sets out.old n (chosen k (q ∷ []) (m ∷ [])) }
{
    if k <= count(m) {
        out[n] = q;
        n + 1
    } else {
        n
    }
}

// Writes to out those of low whose mark has at least k signs. Returns how many.
pub fn having(low: &[u16], mark: &[u8], k: usize, out: &mut [u16]) -> usize
    requires { (length mark.now ≡ length low.now) × Below 8 mark.now × (length low.now ≤ length out.old) }
    ensures value { result ≡ length (chosen k low.now mark.now) }
    ensures out_after { out.new ≡ sets out.old 0 (chosen k low.now mark.now) }
{
    let mut n = 0;
    for (q, m) in low.iter().zip(mark) {
        n = choose(*q, *m, k, out, n);
    }
    n
}

// Writes the adapted list of the rising list l, patterns of i polynomials, to out from at on, with b added to each product.
// Returns the place after it.
#[cycle(adapting)]
pub fn adapted(l: &[u16], i: usize, b: u16, out: &mut [u16], at: usize) -> usize
    requires i_le_most_polynomials { (i ≤ most_polynomials) × (b + 3 ^ i ≤ 3 ^ most_polynomials) }
    requires rising { Rising l.now × Below (3 ^ i) l.now }
    requires l_len_bound { (length l.now ≤ most_points) × (at + length l.now ≤ length out.old) }
    ensures value { result ≡ at + length l.now }
    ensures out_after { out.new ≡ sets out.old at (shift b (adapted_of i l.now)) }
{
    match l.len() {
        0 => at,
        1 => {
            out[at] = b;
            at + 1
        }
        _ => adapted_split(l, i - 1, b, out, at),
    }
}

// The same for at least two patterns of i + 1 polynomials.
#[cycle(adapting)]
fn adapted_split(l: &[u16], i: usize, b: u16, out: &mut [u16], at: usize) -> usize
    requires i_lt_most_polynomials { (i < most_polynomials) × (b + 3 ^ suc i ≤ 3 ^ most_polynomials) }
    requires rising { Rising l.now × Below (3 ^ suc i) l.now }
    requires l_len_bound { (length l.now ≤ most_points) × (at + length l.now ≤ length out.old) }
    ensures value { result ≡ at + length l.now }
    ensures out_after { out.new ≡ sets out.old at (shift b (adapted_of (suc i) l.now)) }
{
    let w = power(i);
    let mut low = [0u16; MOST_POINTS];
    let mut mark = [0u8; MOST_POINTS];
    let mut positions = [0u8; MOST_POINTS];
    let n = split(l, w, &mut low, &mut mark, &mut positions);
    adapted_parts(&low[..n], &mark[..n], i, w, b, out, at)
}

// The three parts of an adapted list, from the patterns of i polynomials that are left and their marks.
#[cycle(adapting)]
fn adapted_parts(
    low: &[u16],
    mark: &[u8],
    i: usize,
    w: u16,
    b: u16,
    out: &mut [u16],
    at: usize,
) -> usize
    requires i_lt_most_polynomials { (i < most_polynomials) × (w ≡ 3 ^ i) × (b + 3 ^ suc i ≤ 3 ^ most_polynomials) }
    requires rising { Rising low.now × Below (3 ^ i) low.now × (length mark.now ≡ length low.now) × Below 8 mark.now }
    requires low_len_bound { (length low.now ≤ most_points) × (at + length (parts_of i low.now mark.now) ≤ length out.old) }
    ensures value { result ≡ at + length (parts_of i low.now mark.now) }
    ensures out_after { out.new ≡ sets out.old at (shift b (parts_of i low.now mark.now)) }
{
    let second = adapted(low, i, b, out, at);
    let third = adapted_high(low, mark, 2, i, b + w, out, second);
    adapted_high(low, mark, 3, i, b + 2 * w, out, third)
}

// The part for the patterns with at least k signs.
#[cycle(adapting)]
fn adapted_high(
    low: &[u16],
    mark: &[u8],
    k: usize,
    i: usize,
    b: u16,
    out: &mut [u16],
    at: usize,
) -> usize
    requires i_lt_most_polynomials { (i < most_polynomials) × (b + 3 ^ i ≤ 3 ^ most_polynomials) }
    requires rising { Rising low.now × Below (3 ^ i) low.now × (length mark.now ≡ length low.now) × Below 8 mark.now }
    requires low_len_bound { (length low.now ≤ most_points) × (at + length (chosen k low.now mark.now) ≤ length out.old) }
    ensures value { result ≡ at + length (chosen k low.now mark.now) }
    ensures out_after { out.new ≡ sets out.old at (shift b (adapted_of i (chosen k low.now mark.now))) }
{
    let mut l = [0u16; MOST_POINTS];
    let n = having(low, mark, k, &mut l);
    adapted(&l[..n], i, b, out, at)
}
