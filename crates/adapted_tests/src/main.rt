// Compares the adapted lists of `adapted`, and the queries and signs of `signs`, with those of a file, which tools/adapted_lists.py made by another route.
//
// The file's layout is written there. Nothing is known of what a file holds: each record is tested before it is used.
#![tactic(auto)]

ghost use Rattle.std.specs.Prelude.{◌≡◌, true, ◌+◌, ◌*◌, ◌^◌, ◌≤◌, ◌<◌, length, IfSome};
ghost use Rattle.refusals.specs.Limits.{most_polynomials, most_points};
ghost use Rattle.signs.specs.Lists.{is_below, is_rising};
ghost use Rattle.adapted_tests.specs.Counts.{Counted, Further};

use refusals::{MOST_POINTS, MOST_POLYNOMIALS};
use signs::{Pattern, Product};
use std::cmp::Ordering;
use std::io;

// A rising list of patterns of s polynomials.
#[derive(Clone, Copy)]
struct Patterns<'a> {
    s: usize,
    list: &'a [u16],
    ghost counted: { s ≤ most_polynomials },
    ghost short: { length list.now ≤ most_points },
    ghost rising: { is_rising list.now ≡ true },
    ghost below: { is_below (3 ^ s) list.now ≡ true },
}

impl<'a> Patterns<'a> {
    // None where the list does not rise, or holds a number that is no pattern.
    fn new(s: usize, list: &'a [u16]) -> Option<Patterns<'a>>
        requires { (s ≤ most_polynomials) × (length list.now ≤ most_points) }
        ensures { IfSome result (λ patterns. patterns.list.now ≡ list.now) }
    {
        if signs::rising(list) && signs::below(list, signs::bound(s)) {
            Some(Patterns { s, list })
        } else {
            None
        }
    }

    // Whether the adapted list of these patterns is the one stored from a place on.
    fn list_agrees(self, file: &[u8], at: usize) -> bool {
        let mut made = [0; MOST_POINTS];
        let n = adapted::adapted(self.list, self.s, 0, &mut made, 0);
        test_input::are_pairs(file, at, n, 0, &made[..n])
    }

    // MOST_POINTS, and one more for each pattern that the product is positive on, and one less for each that it is negative on.
    fn balance(self, a: Product) -> usize
        requires { a.0 < 3 ^ self.s }
    {
        let mut sum = MOST_POINTS;
        for number in self.list {
            let p = Pattern(*number);
            sum = moved(sum, signs::sign(self.s, a, p));
        }
        sum
    }

    // Whether the sum of the signs of a product on these patterns is the number stored, which has MOST_POINTS added.
    fn query_agrees(self, a: u16, stored: u8) -> bool {
        a < signs::bound(self.s) && self.balance(Product(a)) == usize::from(stored)
    }

    // How many of the q queries stored from a place on differ.
    fn queries_differ(self, file: &[u8], at: usize, q: usize) -> usize
        requires { at + 3 * q ≤ length file.now }
        ensures { result ≤ q }
    {
        let mut differ = 0;
        for k in 0..q {
            let place = at + 3 * k;
            let a = u16::from_be_bytes([file[place], file[place + 1]]);
            if !self.query_agrees(a, file[place + 2]) {
                differ += 1;
            }
        }
        differ
    }
}

// One more where the sign is +, one less where it is −.
fn moved(sum: usize, sign: i64) -> usize
    requires { (0 < sum) × (sum < 128) }
    ensures { (result ≤ sum + 1) × (sum ≤ result + 1) }
{
    match sign.cmp(&0) {
        Ordering::Less => sum - 1,
        Ordering::Equal => sum,
        Ordering::Greater => sum + 1,
    }
}

// How many bytes of the file are passed, and what was compared and found to differ in them.
#[derive(Clone, Copy, Debug, Default, PartialEq, Eq)]
struct Progress {
    at: usize,
    lists: usize,
    unlike: usize,
    queries: usize,
    wrong: usize,
}

// Compares the record at the place reached, of these patterns and q queries.
fn compare(file: &[u8], q: usize, patterns: Patterns, p: Progress) -> Progress
    requires { (p.at + 3 + 4 * length patterns.list.now + 3 * q ≤ length file.now) × Counted p }
    ensures { Further p result (length file.now) }
{
    let products = p.at + 3 + 2 * patterns.list.len();
    let queries = products + 2 * patterns.list.len();
    Progress {
        at: queries + 3 * q,
        lists: p.lists + 1,
        unlike: p.unlike + usize::from(!patterns.list_agrees(file, products)),
        queries: p.queries + q,
        wrong: p.wrong + patterns.queries_differ(file, queries, q),
    }
}

// The same for a record of r numbers. None where they are no rising list of patterns of s polynomials.
fn compare_record(file: &[u8], s: usize, q: usize, r: usize, p: Progress) -> Option<Progress>
    requires { (s ≤ most_polynomials) × (r ≤ most_points) × (p.at + 3 + 4 * r + 3 * q ≤ length file.now) × Counted p }
    ensures { IfSome result (λ after. Further p after (length file.now)) }
{
    let mut list = [0; MOST_POINTS];
    test_input::read_pairs(file, p.at + 3, r, &mut list);
    let patterns = Patterns::new(s, &list[..r])?;
    Some(compare(file, q, patterns, p))
}

// Compares the next record. None where it is malformed.
fn next(file: &[u8], p: Progress) -> Option<Progress>
    requires { (p.at ≤ length file.now) × Counted p }
    ensures { IfSome result (λ after. Further p after (length file.now)) }
{
    let [s, r, q, ..] = &file[p.at..] else {
        return None;
    };
    let s = usize::from(*s);
    let r = usize::from(*r);
    let q = usize::from(*q);
    if !(1..=MOST_POLYNOMIALS).contains(&s) || MOST_POINTS < r {
        return None;
    }
    if file.len() - p.at < 3 + 4 * r + 3 * q {
        return None;
    }
    compare_record(file, s, q, r, p)
}

// Compares every record of the file, and prints how many lists and queries were compared and how many of them differ,
// or where the first malformed record begins.
fn compare_all(rt: &impl Print, file: &[u8]) -> io::Result<()> {
    let mut p = Progress::default();
    while p.at < file.len() {
        let Some(after) = next(file, p) else {
            return println!(rt; "malformed record at byte {}", p.at);
        };
        p = after;
    }
    println!(rt; "lists {}, differ {}", p.lists, p.unlike)?;
    println!(rt; "queries {}, differ {}", p.queries, p.wrong)
}

fn main(rt: HostRuntime) -> io::Result<()> {
    let mut file = [0u8; test_input::ROOM];
    let n = test_input::read_argument(&rt, 1, &mut file);
    if n == file.len() {
        return println!(rt; "the file is too long");
    }
    compare_all(&rt, &file[..n])
}
