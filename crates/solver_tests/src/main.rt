// Solves the systems of the files that the arguments name, and compares each answer, and all that the output slice holds then, with what
// tools/solver_systems.py worked out by another route. The files' layout is written there.
#![tactic(auto)]

ghost use Rattle.std.specs.Prelude.{◌≡◌, ◌+◌, ◌*◌, ◌<◌, ◌≤◌, length};

use refusals::Refusal;
use std::env::Env;
use std::io;
use std::rt::Files;
use test_input::{byte, read_pairs};

// Room for a list: more than any length that a byte can say.
const ROOM: usize = 256;

// How many kinds of systems there are (tools/solver_systems.py lists them).
const KINDS: usize = 15;

// What the output slice holds before a call, at each place as much more as the place says.
const HELD: usize = 1000;

// The numbers that the highest 8 codes stand for.
const FAR: [i64; 8] = [
    -9223372036854775808,
    -9223372036854775807,
    -4294967296,
    -65536,
    65536,
    4294967297,
    9223372036854775806,
    9223372036854775807,
];

const FIRST_FAR: usize = 248;

// What is taken from the other codes.
const MIDDLE: i64 = 124;

// The numbers of polynomials past those that a byte can say, by the highest 3 codes.
const FAR_COUNTS: [usize; 3] = [264, 4294967297, 18446744073709551615];

const FIRST_FAR_COUNT: usize = 253;

// The number of polynomials that a code stands for.
fn polynomials(code: usize) -> usize
    requires { code < 256 }
{
    if code < FIRST_FAR_COUNT {
        return code;
    }
    FAR_COUNTS[code - FIRST_FAR_COUNT]
}

// The number that a code stands for.
fn number(code: usize) -> i64
    requires { code < 256 }
{
    if code < FIRST_FAR {
        return code as i64 - MIDDLE;
    }
    FAR[code - FIRST_FAR]
}

// What place k of the output slice holds before a call.
fn held(k: usize) -> i64
    requires { k < 256 }
{
    (HELD + k) as i64
}

// The number from a place of the file on that belongs to place k of a slice where k is below n, and what the slice holds before a call where it is not.
fn expected(file: &[u8], at: usize, n: usize, k: usize) -> i64
    requires { (at < 900000) × (k < 256) }
{
    if k < n {
        return number(byte(file, at + k));
    }
    held(k)
}

// Puts that into every place of out: n numbers, and what is held before a call after them.
fn fill(file: &[u8], at: usize, n: usize, out: &mut [i64; ROOM])
    requires { at < 900000 }
{
    for (k, place) in out.iter_mut().enumerate() {
        *place = expected(file, at, n, k);
    }
}

// Whether the slice holds that at every place.
fn is_left(file: &[u8], at: usize, n: usize, out: &[i64; ROOM]) -> bool
    requires { at < 900000 }
{
    for (k, x) in out.iter().enumerate() {
        if *x != expected(file, at, n, k) {
            return false;
        }
    }
    true
}

// 0, or the number of the refusal.
fn code(answer: Result<(), Refusal>) -> usize {
    match answer {
        Ok(()) => 0,
        Err(refusal) => usize::from(refusal.number()),
    }
}

// How many numbers a call that gives this answer writes.
fn written(answer: usize, r: usize) -> usize
    ensures { result ≤ r }
{
    if answer == 0 { r } else { 0 }
}

// Whether the call on s, these patterns, the m numbers from a place on and an output slice of o places gives this answer, and leaves in the slice what
// it is to hold, where the numbers written stand after those asked.
fn agrees(
    file: &[u8],
    at: usize,
    m: usize,
    o: usize,
    answer: usize,
    s: usize,
    patterns: &[u16],
) -> bool
    requires { (at < 800000) × (m < 256) × (o < 256) }
{
    let mut numbers = [0i64; ROOM];
    let mut out = [0i64; ROOM];
    fill(file, at, m, &mut numbers);
    fill(file, at, 0, &mut out);
    let got = solver::solve(s, patterns, &numbers[..m], &mut out[..o]);
    if code(got) != answer {
        return false;
    }
    is_left(file, at + m, written(answer, patterns.len()), &out)
}

// How many systems there are of each kind, in all, and that differ.
#[derive(Drop)]
struct Tally {
    kinds: [u32; KINDS],
    all: u32,
    unlike: u32,
}

// Counts one more. A count starts again from 0 after 4,294,967,295, which takes more files than there are.
fn count(n: &mut u32) {
    *n = n.wrapping_add(1);
}

impl Tally {
    // Counts a system of a kind, and whether it differs.
    fn note(&mut self, kind: usize, is_right: bool) {
        count(&mut self.all);
        count(&mut self.kinds[kind % KINDS]);
        if !is_right {
            count(&mut self.unlike);
        }
    }
}

// Compares the system at a place. Returns the place after it.
fn compare_system(file: &[u8], at: usize, s: usize, patterns: &[u16], tally: &mut Tally) -> usize
    requires { (at < 700000) × (length patterns.now < 256) }
    ensures { (at ≤ result) × (result ≤ at + 514) }
{
    let m = byte(file, at + 1);
    let o = byte(file, at + 2);
    let answer = byte(file, at + 3);
    let from = at + 4;
    tally.note(
        byte(file, at),
        agrees(file, from, m, o, answer, s, patterns),
    );
    from + m + written(answer, patterns.len())
}

// Compares the q systems of a list from a place on. Returns the place after them.
fn compare_systems(
    file: &[u8],
    at: usize,
    q: usize,
    s: usize,
    patterns: &[u16],
    tally: &mut Tally,
) -> usize
    requires { (at < 500000) × (q < 256) × (length patterns.now < 256) }
    ensures { (at ≤ result) × (result ≤ at + 514 * q) }
{
    let mut next = at;
    for _system in 0..q {
        next = compare_system(file, next, s, patterns, tally);
    }
    next
}

// Compares the systems of the list at a place. Returns the place after them.
fn compare_list(file: &[u8], at: usize, tally: &mut Tally) -> usize
    requires { at < 65536 }
    ensures { at < result }
{
    let s = polynomials(byte(file, at));
    let r = byte(file, at + 1);
    let q = byte(file, at + 2);
    let from = at + 3;
    let mut patterns = [0u16; ROOM];
    read_pairs(file, from, r, &mut patterns);
    compare_systems(file, from + 2 * r, q, s, &patterns[..r], tally)
}

// Compares the systems of every list of a file, and says so where the file does not end with the last of them.
fn compare_all(rt: &impl Print, file: &[u8], tally: &mut Tally) -> io::Result<()>
    requires { length file.now ≤ 65536 }
{
    let mut at = 0;
    while at < file.len() {
        at = compare_list(file, at, tally);
    }
    if at != file.len() {
        println!(rt; "a file ends too early")?;
    }
    Ok(())
}

// Compares the systems of the file that argument k names.
fn compare_file(
    rt: &(impl Env + Files + Print + Eprint),
    k: usize,
    tally: &mut Tally,
) -> io::Result<()> {
    let mut file = [0u8; test_input::ROOM];
    let n = test_input::read_argument(rt, k, &mut file);
    compare_all(rt, &file[..n], tally)
}

// Prints how many systems there are of kind k.
fn print_kind(rt: &impl Print, k: usize, n: u32) -> io::Result<()> {
    println!(rt; "kind {k}: {n}")
}

fn print_kinds(rt: &impl Print, kinds: &[u32; KINDS]) -> io::Result<()> {
    for k in 0..KINDS {
        print_kind(rt, k, kinds[k])?;
    }
    Ok(())
}

fn main(rt: HostRuntime) -> io::Result<()> {
    let mut tally = Tally {
        kinds: [0; KINDS],
        all: 0,
        unlike: 0,
    };
    compare_file(&rt, 1, &mut tally)?;
    compare_file(&rt, 2, &mut tally)?;
    let Tally { kinds, all, unlike } = tally;
    println!(rt; "{all} systems, {unlike} differ")?;
    print_kinds(&rt, &kinds)
}
