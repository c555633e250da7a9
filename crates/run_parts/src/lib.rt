// Parts of a run (document 01, "The run") that need no record: the products of a round, and the rows after a round's last answer. Lists stand at the
// front of arrays as the record has them.
//
// The functions with a `requires` are for the crate above, whose calls show it.
#![tactic(auto)]

ghost use Rattle.std.specs.Prelude.{◌≡◌, ◌&&◌, [], ◌∷◌, ◌++◌, ◌+◌, ◌*◌, ◌^◌, ◌≤◌, ◌<◌, leb, nat_abs, length, take, drop};
ghost use Rattle.refusals.specs.Limits.{most_polynomials, most_points};
ghost use Rattle.signs.specs.Lists.{Below};
ghost use Rattle.rounds.specs.Rows.{rows_with};
ghost use Rattle.rounds.specs.RoundEnd.{round_rows};
ghost use Rattle.run_round_end.specs.Outcome.{Left};
ghost use Rattle.runs.specs.Run.{round_product};
ghost use Rattle.run_parts.specs.Parts.{Copied};

use refusals::MOST_ROWS;
use run_round_end::next_rows;
use signs::{Product, power};

// The largest answer that counts can fit, of either sign.
const MOST_ANSWER: u8 = refusals::MOST_POINTS as u8;

// ---- the products of a round

// The k-th product of round i + 1, where the adapted list of the rows before it is the first n numbers of the list.
pub fn round_product(i: usize, list: &[u16], n: usize, k: usize) -> Product
    requires { (i < most_polynomials) × (n ≤ length list.now) × Below (3 ^ i) (take n list.now) × (k < 2 * n) }
    ensures { result.0 ≡ round_product i (take n list.now) k }
{
    let once = power(i);
    if k < n {
        Product(list[k] + once)
    } else {
        Product(list[k - n] + 2 * once)
    }
}

// ---- the rows after a round

// Whether all before are in −64 .. 64, and so is z.
fn still_within(all: bool, z: i8) -> bool
    ensures { result ≡ leb (nat_abs z) most_points && all }
{
    z.unsigned_abs() <= MOST_ANSWER && all
}

// Copies the answers to the front of out, 16 bits wide. False where one is outside −64 .. 64.
fn copy_answers(answers: &[i8], out: &mut [i16]) -> bool
    requires { length answers.now ≤ length out.old }
    ensures { Copied answers.now out.new result }
{
    let mut all = true;
    for (k, &z) in answers.iter().enumerate() {
        all = still_within(all, z);
        out[k] = i16::from(z);
    }
    all
}

// The rows after round i + 1: from the rows before it, patterns and counts, the round's answers but the last, and that one. They are written to the
// front of the two slices; where there are none, what those hold is left open.
pub fn find_rows(
    i: usize,
    patterns: &[u16],
    counts: &[u16],
    answers: &[i8],
    last: i64,
    new: &mut [u16],
    numbers: &mut [u16],
) -> Option<usize>
    requires i_lt_most_polynomials { (i < most_polynomials) × (length counts.now ≡ length patterns.now) × (length answers.now + 1 ≡ 2 * length patterns.now) × (length patterns.now ≤ most_points) }
    requires last_bound { (nat_abs last ≤ most_points) × (most_points ≤ length new.old) × (most_points ≤ length numbers.old) }
    ensures { Left (round_rows i (rows_with patterns.now counts.now) (answers.now ++ (last ∷ []))) result new.new numbers.new }
{
    let n = patterns.len();
    let mut x = [0i16; MOST_ROWS];
    let mut y = [0i16; MOST_ROWS];
    if !copy_answers(&answers[..n], &mut x) {
        return None;
    }
    if !copy_answers(&answers[n..], &mut y) {
        return None;
    }
    y[n - 1] = last as i16;
    next_rows(i, patterns, counts, &x[..n], &y[..n], new, numbers)
}

// ---- rows handed out

// Writes the first n numbers of the list to the front of out, which is as long or longer.
pub fn copy_front(list: &[u16], n: usize, out: &mut [u16])
    requires { (n ≤ length list.now) × (n ≤ length out.old) }
    ensures { out.new ≡ take n list.now ++ drop n out.old }
{
    out[..n].copy_from_slice(&list[..n]);
}
