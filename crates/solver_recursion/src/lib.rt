// The solver's recursion (document 01, "Adapted lists": "worked out by taking one polynomial off at each step"), for two systems at once: the same patterns,
// two lists of numbers. With the last polynomial, P(i+1), taken off, each pattern left has three moments over its signs: d, the sum of its numbers, e, those
// with + less those with −, and g, those with + and −. The products with power 0, 1 and 2 on P(i+1) ask for d, e and g alone.
//
// The functions are for the solver and for the end of a round, whose calls show what they require; the definitions are in specs/.
#![tactic(auto)]

ghost use Rattle.std.specs.Prelude.{◌≡◌, cond, suc, ◌+◌, ◌*◌, ◌^◌, ◌<◌, ◌≤◌, leb, length};
ghost use Rattle.refusals.specs.Limits.{most_polynomials, most_points};
ghost use Rattle.integers.specs.Sums.{Within};
ghost use Rattle.signs.specs.Lists.{Below, Rising};
ghost use Rattle.signs.specs.Adapted.{adapted as adapted_of};
ghost use Rattle.adapted.specs.Split.{count_of, chosen};
ghost use Rattle.solver_moments.specs.Moments.{rank};
ghost use Rattle.solver_residuals.specs.Residuals.{residuals as residuals_of};
ghost use Rattle.solver_recursion.specs.Steps.{SolvesBoth, Parted, PutBoth, MomentsBoth};

use adapted::{count, having, split};
use refusals::MOST_POINTS;
use signs::power;
use solver_moments::{combine_pair, put, second, third};
use solver_residuals::residuals;

// The numbers of the patterns l of i polynomials whose queries on the adapted list are x, and those for y. None where one of the two has none whose
// absolute values add up to at most 64. Those of inner numbers never add up to more, so that a list is refused where one inside it is.
#[cycle(solving)]
pub fn solve_pair(
    l: &[u16],
    i: usize,
    x: &[i16],
    y: &[i16],
    u: &mut [i16],
    v: &mut [i16],
) -> Option<()>
    requires i_le_most_polynomials { (i ≤ most_polynomials) × Rising l.now × Below (3 ^ i) l.now × (length l.now ≤ most_points) }
    requires x_len { (length x.now ≡ length l.now) × (length y.now ≡ length l.now) × (length u.old ≡ length l.now) × (length v.old ≡ length l.now) }
    requires within { Within most_points x.now × Within most_points y.now }
    ensures { SolvesBoth i l.now x.now y.now u.new v.new result }
{
    if l.len() == 0 {
        return Some(());
    }
    if l.len() == 1 {
        u[0] = x[0];
        v[0] = y[0];
        return Some(());
    }
    solve_split(l, i - 1, x, y, u, v)
}

// The same for at least two patterns of i + 1 polynomials.
#[cycle(solving)]
fn solve_split(
    l: &[u16],
    i: usize,
    x: &[i16],
    y: &[i16],
    u: &mut [i16],
    v: &mut [i16],
) -> Option<()>
    requires i_lt_most_polynomials { (i < most_polynomials) × Rising l.now × Below (3 ^ suc i) l.now × (length l.now ≤ most_points) }
    requires x_len { (length x.now ≡ length l.now) × (length y.now ≡ length l.now) × (length u.old ≡ length l.now) × (length v.old ≡ length l.now) }
    requires within { Within most_points x.now × Within most_points y.now }
    ensures { SolvesBoth (suc i) l.now x.now y.now u.new v.new result }
{
    let w = power(i);
    let m = l.len();
    let mut low = [0u16; MOST_POINTS];
    let mut mark = [0u8; MOST_POINTS];
    let mut at = [0u8; MOST_POINTS];
    let n = split(l, w, &mut low, &mut mark, &mut at);
    solve_low(l, i, w, x, y, &low[..n], &mark[..n], &at[..m], u, v)
}

// The same, where low are the patterns left, with their marks, and at has the place in low of each pattern's low part.
#[cycle(solving)]
fn solve_low(
    l: &[u16],
    i: usize,
    w: u16,
    x: &[i16],
    y: &[i16],
    low: &[u16],
    mark: &[u8],
    at: &[u8],
    u: &mut [i16],
    v: &mut [i16],
) -> Option<()>
    requires i_lt_most_polynomials { (i < most_polynomials) × (w ≡ 3 ^ i) × Rising l.now × Below (3 ^ suc i) l.now × (length l.now ≤ most_points) }
    requires x_len { (length x.now ≡ length l.now) × (length y.now ≡ length l.now) × (length u.old ≡ length l.now) × (length v.old ≡ length l.now) }
    requires within { Within most_points x.now × Within most_points y.now }
    requires parted { Parted i l.now low.now mark.now at.now × (length low.now ≤ most_points) × (length at.now ≡ length l.now) }
    ensures { SolvesBoth (suc i) l.now x.now y.now u.new v.new result }
{
    let n = low.len();
    let mut d = [0i16; MOST_POINTS];
    let mut e = [0i16; MOST_POINTS];
    let mut g = [0i16; MOST_POINTS];
    let mut d2 = [0i16; MOST_POINTS];
    let mut e2 = [0i16; MOST_POINTS];
    let mut g2 = [0i16; MOST_POINTS];
    find_moments(
        i,
        x,
        y,
        low,
        mark,
        &mut d[..n],
        &mut e[..n],
        &mut g[..n],
        &mut d2[..n],
        &mut e2[..n],
        &mut g2[..n],
    )?;
    combine_pair(
        l,
        w,
        at,
        &d[..n],
        &e[..n],
        &g[..n],
        &d2[..n],
        &e2[..n],
        &g2[..n],
        u,
        v,
    )
}

// How many marks have at least two signs.
fn shared(mark: &[u8]) -> usize
    requires { Below 8 mark.now × (length mark.now ≤ most_points) }
    ensures { result ≡ rank 2 mark.now (length mark.now) }
{
    let mut n = 0;
    for m in mark {
        if 2 <= count(*m) {
            n += 1;
        }
    }
    n
}

// The three moments of the patterns low, in both systems: d, e and g for the numbers x, and d2, e2 and g2 for y.
#[cycle(solving)]
fn find_moments(
    i: usize,
    x: &[i16],
    y: &[i16],
    low: &[u16],
    mark: &[u8],
    d: &mut [i16],
    e: &mut [i16],
    g: &mut [i16],
    d2: &mut [i16],
    e2: &mut [i16],
    g2: &mut [i16],
) -> Option<()>
    requires i_lt_most_polynomials { (i < most_polynomials) × Rising low.now × Below (3 ^ i) low.now × (length low.now ≤ most_points) × (length mark.now ≡ length low.now) × Below 8 mark.now }
    requires x_len { (length x.now ≡ length low.now + (length (chosen 2 low.now mark.now) + length (chosen 3 low.now mark.now))) × (length y.now ≡ length x.now) × Within most_points x.now × Within most_points y.now }
    requires d_len { (length d.old ≡ length low.now) × (length e.old ≡ length low.now) × (length g.old ≡ length low.now) × (length d2.old ≡ length low.now) × (length e2.old ≡ length low.now) × (length g2.old ≡ length low.now) }
    ensures { MomentsBoth i low.now mark.now x.now y.now d.new e.new g.new d2.new e2.new g2.new result }
{
    let n = low.len();
    let m = n + shared(mark);
    solve_pair(low, i, &x[..n], &y[..n], d, d2)?;
    second(mark, d, e);
    second(mark, d2, e2);
    moment(low, mark, 2, i, &x[n..m], &y[n..m], e, e2)?;
    third(mark, d, e, g);
    third(mark, d2, e2, g2);
    moment(low, mark, 3, i, &x[m..], &y[m..], g, g2)
}

// One of the later moments in both systems: v and w hold those known of the patterns low, and get the others, those whose marks have at least k signs.
#[cycle(solving)]
fn moment(
    low: &[u16],
    mark: &[u8],
    k: usize,
    i: usize,
    x: &[i16],
    y: &[i16],
    v: &mut [i16],
    w: &mut [i16],
) -> Option<()>
    requires i_lt_most_polynomials { (i < most_polynomials) × Rising low.now × Below (3 ^ i) low.now × (length low.now ≤ most_points) × (length mark.now ≡ length low.now) × Below 8 mark.now }
    requires x_len { (length x.now ≡ length (chosen k low.now mark.now)) × (length y.now ≡ length x.now) × (length v.old ≡ length low.now) × (length w.old ≡ length low.now) }
    requires within { Within most_points x.now × Within most_points y.now × Within (2 * most_points) v.old × Within (2 * most_points) w.old }
    ensures { PutBoth i (chosen k low.now mark.now) mark.now k (residuals_of i low.now v.old (adapted_of i (chosen k low.now mark.now)) x.now) (residuals_of i low.now w.old (adapted_of i (chosen k low.now mark.now)) y.now) v.old w.old v.new w.new result }
{
    let n = x.len();
    if n == 0 {
        return Some(());
    }
    let mut l = [0u16; MOST_POINTS];
    let mut r = [0i16; MOST_POINTS];
    let mut t = [0i16; MOST_POINTS];
    having(low, mark, k, &mut l);
    residuals(&l[..n], low, i, x, y, v, w, &mut r[..n], &mut t[..n])?;
    put_moment(&l[..n], mark, k, i, &r[..n], &t[..n], v, w)
}

// The same, where l are those patterns, and r and t remain of the numbers asked.
#[cycle(solving)]
fn put_moment(
    l: &[u16],
    mark: &[u8],
    k: usize,
    i: usize,
    r: &[i16],
    t: &[i16],
    v: &mut [i16],
    w: &mut [i16],
) -> Option<()>
    requires i_lt_most_polynomials { (i < most_polynomials) × Rising l.now × Below (3 ^ i) l.now × (length l.now ≤ most_points) × Below 8 mark.now × (length mark.now ≤ most_points) }
    requires l_len { (length l.now ≡ rank k mark.now (length mark.now)) × (length r.now ≡ length l.now) × (length t.now ≡ length l.now) × (length v.old ≡ length mark.now) × (length w.old ≡ length mark.now) }
    requires within { Within most_points r.now × Within most_points t.now × Within (2 * most_points) v.old × Within (2 * most_points) w.old }
    ensures { PutBoth i l.now mark.now k r.now t.now v.old w.old v.new w.new result }
{
    let n = l.len();
    let mut f = [0i16; MOST_POINTS];
    let mut h = [0i16; MOST_POINTS];
    solve_pair(l, i, r, t, &mut f[..n], &mut h[..n])?;
    put(mark, k, &f[..n], v);
    put(mark, k, &h[..n], w);
    Some(())
}
