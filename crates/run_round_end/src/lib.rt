// The end of a round (document 01, "The run"): the rows for one polynomial more, from the rows before and the round's answers. Rows are two
// slices, of patterns and of counts. What the rows are is defined in `rounds`.
//
// The functions with a `requires` are for this crate and those above it, whose calls show it.
#![tactic(auto)]

ghost use Rattle.std.specs.Prelude.{◌≡◌, true, ◌++◌, ◌+◌, ◌≤◌, ◌<◌, nat_abs, length};
ghost use Rattle.std.proofs.lemmas.List.Edits.{sets};
ghost use Rattle.refusals.specs.Limits.{most_polynomials, most_points};
ghost use Rattle.integers.specs.Sums.{Within};
ghost use Rattle.signs.specs.Lists.{Below};
ghost use Rattle.rounds.specs.Rows.{patterns as patterns_of, counts as counts_of, rows_with, row_if};
ghost use Rattle.rounds.specs.Moments.{splits, all_split, judged, by_moments};
ghost use Rattle.rounds.specs.RoundEnd.{proper_rows, sum};
ghost use Rattle.run_round_end.specs.Outcome.{Left, Ended};
ghost use Rattle.run_round_end.specs.Steps.{with_sign, sign_rows, proper_counts};

use refusals::MOST_ROWS;
use signs::{below, power, rising};
use solver_recursion::solve_pair;

// What the counts may add up to.
const MOST_POINTS: u16 = refusals::MOST_POINTS as u16;

// ---- the rows before

// Whether the counts are above 0 and add up to at most 64.
fn proper_counts(counts: &[u16]) -> bool
    ensures { result ≡ proper_counts counts.now }
{
    let mut left = MOST_POINTS;
    for &count in counts {
        if count == 0 || left < count {
            return false;
        }
        left -= count;
    }
    true
}

// Whether these are rows of i polynomials as a round leaves them.
fn proper_rows(i: usize, patterns: &[u16], counts: &[u16]) -> bool
    requires { (i < most_polynomials) × (length counts.now ≡ length patterns.now) }
    ensures { result ≡ proper_rows i (rows_with patterns.now counts.now) }
{
    rising(patterns) && below(patterns, power(i)) && proper_counts(counts)
}

// ---- the counts of a row, extended by the three signs

// Whether the three counts of a row of count d are whole numbers, 0 or more: d − g, (g + e) / 2 and (g − e) / 2.
fn splits(d: u16, e: i16, g: i16) -> bool
    requires { (d ≤ most_points) × (nat_abs e ≤ most_points) × (nat_abs g ≤ most_points) }
    ensures { result ≡ splits d e g }
{
    g <= d as i16 && 0 <= g + e && e <= g && (g + e) as u16 % 2 == 0
}

// The count of a row, extended by the sign of the digit t.
fn count_with(t: u8, d: u16, e: i16, g: i16) -> u16
    requires { (t < 3) × (d ≤ most_points) × (splits d e g ≡ true) }
    ensures { result ≡ with_sign t d e g }
{
    match t {
        0 => (d as i16 - g) as u16,
        1 => (g + e) as u16 / 2,
        _ => (g - e) as u16 / 2,
    }
}

// Whether every row's three counts are whole numbers, 0 or more.
fn all_split(patterns: &[u16], counts: &[u16], es: &[i16], gs: &[i16]) -> bool
    requires counts_len { (length counts.now ≡ length patterns.now) × (length es.now ≡ length patterns.now) × (length gs.now ≡ length patterns.now) }
    requires counts_bound { (sum counts.now ≤ most_points) × Within most_points es.now × Within most_points gs.now }
    ensures { result ≡ all_split (rows_with patterns.now counts.now) es.now gs.now }
{
    for j in 0..patterns.len() {
        if !splits(counts[j], es[j], gs[j]) {
            return false;
        }
    }
    true
}

// ---- the rows after

// Writes a row at k where its count is above 0. Returns where the next one goes.
fn put_row(pattern: u16, count: u16, new: &mut [u16], numbers: &mut [u16], k: usize) -> usize
    requires { (k + length (row_if pattern count) ≤ length new.old) × (k + length (row_if pattern count) ≤ length numbers.old) }
    ensures value { result ≡ k + length (row_if pattern count) }
    ensures after { new.new ≡ sets new.old k (patterns_of (row_if pattern count)) }
    ensures numbers_after { numbers.new ≡ sets numbers.old k (counts_of (row_if pattern count)) }
{
    if count == 0 {
        return k;
    }
    new[k] = pattern;
    numbers[k] = count;
    k + 1
}

// Writes the rows extended by the sign of the digit t from k on, those with a count above 0. Returns the place after them.
fn put_rows(
    t: u8,
    w: u16,
    patterns: &[u16],
    counts: &[u16],
    es: &[i16],
    gs: &[i16],
    new: &mut [u16],
    numbers: &mut [u16],
    k: usize,
) -> usize
    requires t_bound { (t < 3) × (w ≤ 2187) × Below w patterns.now }
    requires counts_len { (length counts.now ≡ length patterns.now) × (length es.now ≡ length patterns.now) × (length gs.now ≡ length patterns.now) }
    requires counts_bound { (sum counts.now ≤ most_points) × (all_split (rows_with patterns.now counts.now) es.now gs.now ≡ true) }
    requires gs_in_bounds { k + length (sign_rows w t (rows_with patterns.now counts.now) es.now gs.now) ≤ length new.old }
    requires gs_in_bounds_2 { k + length (sign_rows w t (rows_with patterns.now counts.now) es.now gs.now) ≤ length numbers.old }
    ensures value { result ≡ k + length (sign_rows w t (rows_with patterns.now counts.now) es.now gs.now) }
    ensures after { new.new ≡ sets new.old k (patterns_of (sign_rows w t (rows_with patterns.now counts.now) es.now gs.now)) }
    ensures numbers_after { numbers.new ≡ sets numbers.old k (counts_of (sign_rows w t (rows_with patterns.now counts.now) es.now gs.now)) }
{
    let base = t as u16 * w;
    let mut next = k;
    for j in 0..patterns.len() {
        let count = count_with(t, counts[j], es[j], gs[j]);
        next = put_row(patterns[j] + base, count, new, numbers, next);
    }
    next
}

// The rows after the round from the two solutions: every count is judged before a row is kept.
fn judge(
    i: usize,
    patterns: &[u16],
    counts: &[u16],
    es: &[i16],
    gs: &[i16],
    new: &mut [u16],
    numbers: &mut [u16],
) -> Option<usize>
    requires i_lt_most_polynomials { (i < most_polynomials) × (length counts.now ≡ length patterns.now) × (length es.now ≡ length patterns.now) × (length gs.now ≡ length patterns.now) }
    requires counts_value { (proper_rows i (rows_with patterns.now counts.now) ≡ true) × Within most_points es.now × Within most_points gs.now }
    requires most_points_in_bounds { (most_points ≤ length new.old) × (most_points ≤ length numbers.old) }
    ensures { Left (judged i (rows_with patterns.now counts.now) es.now gs.now) result new.new numbers.new }
{
    if !all_split(patterns, counts, es, gs) {
        return None;
    }
    let w = power(i);
    let zero = put_rows(0, w, patterns, counts, es, gs, new, numbers, 0);
    let plus = put_rows(1, w, patterns, counts, es, gs, new, numbers, zero);
    let minus = put_rows(2, w, patterns, counts, es, gs, new, numbers, plus);
    Some(minus)
}

// The same from the round's answers, with room for the two solutions: the first half of the answers, x, has the one, the second, y, the other.
fn by_moments(
    i: usize,
    patterns: &[u16],
    counts: &[u16],
    x: &[i16],
    y: &[i16],
    es: &mut [i16],
    gs: &mut [i16],
    new: &mut [u16],
    numbers: &mut [u16],
) -> Option<usize>
    requires i_lt_most_polynomials { (i < most_polynomials) × (length counts.now ≡ length patterns.now) × (length x.now ≡ length patterns.now) × (length y.now ≡ length patterns.now) }
    requires within { Within most_points x.now × Within most_points y.now × (length es.old ≡ length patterns.now) × (length gs.old ≡ length patterns.now) }
    requires counts_value { (proper_rows i (rows_with patterns.now counts.now) ≡ true) × (most_points ≤ length new.old) × (most_points ≤ length numbers.old) }
    ensures { Left (by_moments i (rows_with patterns.now counts.now) (x.now ++ y.now)) result new.new numbers.new }
{
    solve_pair(patterns, i, x, y, es, gs)?;
    judge(i, patterns, counts, es, gs, new, numbers)
}

// The rows after round i + 1: from the rows before it, patterns and counts, and the two halves of the round's answers, x and y. They are written to
// the front of the two slices; where there are none, what those hold is left open.
pub fn next_rows(
    i: usize,
    patterns: &[u16],
    counts: &[u16],
    x: &[i16],
    y: &[i16],
    new: &mut [u16],
    numbers: &mut [u16],
) -> Option<usize>
    requires i_lt_most_polynomials { (i < most_polynomials) × (length counts.now ≡ length patterns.now) × (length x.now ≡ length patterns.now) × (length y.now ≡ length patterns.now) }
    requires within { Within most_points x.now × Within most_points y.now × (most_points ≤ length new.old) × (most_points ≤ length numbers.old) }
    ensures { Ended i patterns.now counts.now (x.now ++ y.now) result new.new numbers.new }
{
    if !proper_rows(i, patterns, counts) {
        return None;
    }
    let n = patterns.len();
    let mut es = [0i16; MOST_ROWS];
    let mut gs = [0i16; MOST_ROWS];
    by_moments(
        i,
        patterns,
        counts,
        x,
        y,
        &mut es[..n],
        &mut gs[..n],
        new,
        numbers,
    )
}
