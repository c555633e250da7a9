// The moments of patterns of i polynomials over the signs of the next one: those that are known, and the numbers that they give.
// The functions are for the solver, whose calls show what they require; the definitions are in specs/.
#![tactic(auto)]

ghost use Rattle.std.specs.Prelude.{◌≡◌, cond, ◌||◌, ◌++◌, ◌+◌, ◌*◌, ◌/◌, ◌≤◌, ◌<◌, leb, pos, nat_abs, ◌+ℤ◌, length, get_or, drop};
ghost use Rattle.std.specs.Int.Signed.{shr_z};
ghost use Rattle.refusals.specs.Limits.{most_points};
ghost use Rattle.integers.specs.Sums.{Within};
ghost use Rattle.signs.specs.Lists.{Below};
ghost use Rattle.adapted.specs.Split.{count_of};
ghost use Rattle.solver_moments.specs.Moments.{most_moment, CopiedWithin, second_of, third_of, Second, Third, rank, Spread, put_one, doubled_of, is_odd, CombinedBoth};

use adapted::count;
use refusals::MOST_POINTS;

// The largest absolute value that a number may have, and what the absolute values of a solution may add up to.
const LIMIT: i64 = MOST_POINTS as i64;

// What the absolute values of the doubles may add up to.
const DOUBLE: u32 = 2 * (LIMIT as u32);

// The second moment of a pattern that stands with one sign, from its first and its mark; 0 where it stands with more.
fn second_value(m: u8, d: i16) -> i16
    requires { nat_abs d ≤ most_moment }
    ensures { result ≡ second_of m d }
{
    match m {
        2 => d,
        4 => -d,
        _ => 0,
    }
}

// The third moment of a pattern that stands with one or two signs, from the others and its mark; 0 where it stands with three.
fn third_value(m: u8, d: i16, e: i16) -> i16
    requires { nat_abs e ≤ most_moment }
    ensures { result ≡ third_of m d e }
{
    if m % 2 == 0 {
        return d;
    }
    match m {
        3 => e,
        5 => -e,
        _ => 0,
    }
}

// Writes the known second moments to e.
pub fn second(mark: &[u8], d: &[i16], e: &mut [i16])
    requires { (length d.now ≡ length mark.now) × (length e.old ≡ length mark.now) × Within most_moment d.now }
    ensures { Second mark.now d.now e.new }
{
    for (j, m) in mark.iter().enumerate() {
        e[j] = second_value(*m, d[j]);
    }
}

// Writes the known third moments to g.
pub fn third(mark: &[u8], d: &[i16], e: &[i16], g: &mut [i16])
    requires { (length d.now ≡ length mark.now) × (length e.now ≡ length mark.now) × (length g.old ≡ length mark.now) × Within most_moment e.now }
    ensures { Third mark.now d.now e.now g.new }
{
    for (j, m) in mark.iter().enumerate() {
        g[j] = third_value(*m, d[j], e[j]);
    }
}

// Copies x to the front of out, as numbers of 64 bits.
pub fn copy_wide(x: &[i16], out: &mut [i64])
    requires { length x.now ≤ length out.old }
    ensures { out.new ≡ x.now ++ drop (length x.now) out.old }
{
    for (k, y) in x.iter().enumerate() {
        out[k] = i64::from(*y);
    }
}

// Copies x to out where every number lies in −64 .. 64. None where one does not.
pub fn copy_small(x: &[i64], out: &mut [i16]) -> Option<()>
    requires { length out.old ≡ length x.now }
    ensures { CopiedWithin most_points x.now out.new result }
{
    for (k, y) in x.iter().enumerate() {
        if !(-LIMIT..=LIMIT).contains(y) {
            return None;
        }
        out[k] = *y as i16;
    }
    Some(())
}

// Adds the number of f at n to v at j where the mark m has at least k signs. Returns where the next one of f is.
fn put_one(m: u8, k: usize, f: &[i16], n: usize, v: &mut [i16], j: usize) -> usize
    requires { (m < 8) × (k ≤ count_of m → n < length f.now) × (j < length v.old) × (n < 65536) × Within most_moment v.old × Within most_moment f.now }
    ensures value { result ≡ n + cond (leb k (count_of m)) 1 0 }
    ensures v_after { v.new ≡ put_one (leb k (count_of m)) v.old j (get_or v.old j (pos 0) +ℤ get_or f.now n (pos 0)) }
{
    if k <= count(m) {
        v[j] += f[n];
        return n + 1;
    }
    n
}

// Adds f to v at the patterns whose mark has at least k signs, in order.
pub fn put(mark: &[u8], k: usize, f: &[i16], v: &mut [i16])
    requires below { Below 8 mark.now × (length v.old ≡ length mark.now) × (rank k mark.now (length mark.now) ≡ length f.now) × (length mark.now ≤ most_points) }
    requires within { Within (2 * most_points) v.old × Within most_points f.now }
    ensures { Spread k mark.now f.now v.old v.new }
{
    let mut n = 0;
    for (j, m) in mark.iter().enumerate() {
        n = put_one(*m, k, f, n, v, j);
    }
}

// Twice the number of the pattern q, whose last digit weighs w, from the moments of its low part at j.
fn doubled(q: u16, w: u16, j: usize, d: &[i16], e: &[i16], g: &[i16]) -> i16
    requires q_bound { (q < 3 * w) × (j < length d.now) × (length e.now ≡ length d.now) × (length g.now ≡ length d.now) }
    requires within { Within most_moment d.now × Within most_moment e.now × Within most_moment g.now }
    ensures { result ≡ doubled_of (q / w) (get_or d.now j (pos 0)) (get_or e.now j (pos 0)) (get_or g.now j (pos 0)) }
{
    if q < w {
        return 2 * (d[j] - g[j]);
    }
    if q - w < w { g[j] + e[j] } else { g[j] - e[j] }
}

// Whether x is odd.
fn is_odd(x: i16) -> bool
    ensures { result ≡ is_odd x }
{
    x % 2 != 0
}

// Writes the numbers of the patterns l to u and v, from the moments of two systems. None where one is not whole, or the absolute values of a
// system add up to more than 64. The loop passes all patterns, with the doubles of their numbers, and what is wrong is said after it.
pub fn combine_pair(
    l: &[u16],
    w: u16,
    at: &[u8],
    d: &[i16],
    e: &[i16],
    g: &[i16],
    d2: &[i16],
    e2: &[i16],
    g2: &[i16],
    u: &mut [i16],
    v: &mut [i16],
) -> Option<()>
    requires below { Below (3 * w) l.now × (length at.now ≡ length l.now) × (length u.old ≡ length l.now) × (length v.old ≡ length l.now) × Below (length d.now) at.now × (length l.now ≤ most_points) }
    requires e_len { (length e.now ≡ length d.now) × (length g.now ≡ length d.now) × (length d2.now ≡ length d.now) × (length e2.now ≡ length d.now) × (length g2.now ≡ length d.now) × Within most_moment d.now × Within most_moment e.now × Within most_moment g.now × Within most_moment d2.now × Within most_moment e2.now × Within most_moment g2.now }
    ensures { CombinedBoth w l.now at.now d.now e.now g.now d2.now e2.now g2.now u.new v.new result }
{
    let mut sum: u32 = 0;
    let mut sum2: u32 = 0;
    let mut odd = false;
    for (k, q) in l.iter().enumerate() {
        let j = at[k] as usize;
        let x = doubled(*q, w, j, d, e, g);
        let y = doubled(*q, w, j, d2, e2, g2);
        odd |= is_odd(x) | is_odd(y);
        sum += u32::from(x.unsigned_abs());
        sum2 += u32::from(y.unsigned_abs());
        u[k] = x >> 1;
        v[k] = y >> 1;
    }
    if odd || DOUBLE < sum || DOUBLE < sum2 {
        return None;
    }
    Some(())
}
