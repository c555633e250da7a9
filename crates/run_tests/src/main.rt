// Plays runs from files and compares what each call of `determination` gives with what the files say, which tools/run_cases.py worked out by
// another route. A file's layout is written there.
#![tactic(auto)]

ghost use Rattle.std.specs.Prelude.{◌<◌};

use determination::Answered;
use refusals::Refusal;
use run_record::{Run, Step};
use std::env::Env;
use std::io;
use std::rt::Files;
use test_input::{byte, pair};

// The first byte of an item. Up to LONGEST_SHORT it is an answer, with SHORT_ZERO added; above COPY, the item is an answer of eight bytes.
const SHORT_ZERO: i64 = 64;

const LONGEST_SHORT: usize = 128;

const START: usize = 129;

const FETCH: usize = 130;

const COPY: usize = 131;

// One more than any question total.
const TOTALS: usize = 1024;

// What is in the lent slices before a copy. No pattern and no count is this.
const FILLER: u16 = 43690;

// One more than the length of any slice that is lent.
const ROOM: usize = 256;

// The refusal numbers that are counted are below this.
const REFUSALS: usize = 16;

// ---- items

// The call that an item asks for.
#[derive(Clone, Copy, Debug, PartialEq, Eq)]
enum Call {
    Start,
    Answer(i64),
    LongAnswer, // an answer of eight bytes
    Fetch,
    Copy,
}

fn call_of(item: &[u8]) -> Call {
    match byte(item, 0) {
        START => Call::Start,
        FETCH => Call::Fetch,
        COPY => Call::Copy,
        first if first <= LONGEST_SHORT => Call::Answer(first as i64 - SHORT_ZERO),
        _ => Call::LongAnswer,
    }
}

// The eight bytes at a place. Past the end every byte reads as 0.
fn eight(item: &[u8], at: usize) -> [u8; 8] {
    let mut bytes = [0; 8];
    for (to, from) in bytes.iter_mut().zip(item.iter().skip(at)) {
        *to = *from;
    }
    bytes
}

// What a call gives.
#[derive(Clone, Copy, Debug, PartialEq, Eq)]
enum Given {
    Number(usize), // the product, the pattern, or how many rows were copied
    Done,
    Refused(Refusal),
    Wrong, // rows that are not those of the item
}

// What an item says that its call gives: nothing where it says what no call gives.
fn stored(item: &[u8]) -> Option<Given> {
    let number = pair(item, 3);
    match pair(item, 1) / TOTALS {
        0 => Some(Given::Number(number)),
        1 if number == 0 => Some(Given::Done),
        2 => Refusal::try_from(number as u16).ok().map(Given::Refused),
        _ => None,
    }
}

// The question total after an item's call.
fn total(item: &[u8]) -> usize {
    pair(item, 1) % TOTALS
}

// How many rows the item has for a copy: none where it is refused.
fn rows_stored(item: &[u8]) -> usize
    ensures { result < 256 }
{
    match stored(item) {
        Some(Given::Number(n)) if n < ROOM => n,
        _ => 0,
    }
}

// How many bytes an item has.
fn size(item: &[u8]) -> usize
    ensures { (0 < result) × (result < 2048) }
{
    match call_of(item) {
        Call::Answer(_) => 5,
        Call::Start | Call::LongAnswer => 13,
        Call::Fetch => 15,
        Call::Copy => 7 + 4 * rows_stored(item),
    }
}

// ---- the calls

impl From<Step> for Given {
    fn from(step: Step) -> Given {
        match step {
            Step::Ask(p) => Given::Number(usize::from(p.0)),
            Step::Done => Given::Done,
            Step::Refused(refusal) => Given::Refused(refusal),
        }
    }
}

// What the item's fetch gives.
fn fetched(item: &[u8], run: Run) -> Given {
    match determination::fetch_row(run, usize::from_be_bytes(eight(item, 5))) {
        Ok(row) if usize::from(row.count) != pair(item, 13) => Given::Wrong,
        Ok(row) => Given::Number(usize::from(row.pattern.0)),
        Err(refusal) => Given::Refused(refusal),
    }
}

// Whether a lent array holds after a copy what it is to hold: the n numbers from a place on, and what it held after them.
fn is_left(item: &[u8], at: usize, n: usize, list: &[u16; ROOM]) -> bool {
    test_input::are_pairs(item, at, n, FILLER, list)
}

// What the item's copy gives, to slices of its two lengths, which are parts of longer arrays.
fn copied(item: &[u8], run: Run) -> Given {
    let a = byte(item, 5);
    let b = byte(item, 6);
    let n = rows_stored(item);
    let mut patterns = [FILLER; ROOM];
    let mut counts = [FILLER; ROOM];
    let copied = determination::copy_rows(run, &mut patterns[..a], &mut counts[..b]);
    if !is_left(item, 7, n, &patterns) || !is_left(item, 7 + 2 * n, n, &counts) {
        return Given::Wrong;
    }
    match copied {
        Ok(n) => Given::Number(n),
        Err(refusal) => Given::Refused(refusal),
    }
}

// The record after a call, and what the call gave.
#[derive(Clone, Copy)]
struct Played {
    run: Run,
    given: Given,
}

impl From<Answered> for Played {
    fn from(answered: Answered) -> Played {
        Played {
            run: answered.run,
            given: Given::from(answered.step),
        }
    }
}

// Makes the call of an item. An answer of eight bytes goes through the lent record.
fn play(item: &[u8], run: Run) -> Played {
    match call_of(item) {
        Call::Start => Played::from(determination::start(usize::from_be_bytes(eight(item, 5)))),
        Call::Answer(a) => Played::from(determination::answer(run, a)),
        Call::LongAnswer => {
            let a = i64::from_be_bytes(eight(item, 5));
            Played::from(determination::answer_through(run, a))
        }
        Call::Fetch => Played {
            run,
            given: fetched(item, run),
        },
        Call::Copy => Played {
            run,
            given: copied(item, run),
        },
    }
}

// ---- counts

// How many calls of each kind there were, how many of them ended a run, how many were not as the item says, and how often each refusal number came.
#[derive(Clone, Copy, Debug, Default, PartialEq, Eq)]
struct Tally {
    runs: usize,
    answers: usize,
    fetches: usize,
    copies: usize,
    done: usize,
    different: usize,
    refusals: [usize; REFUSALS],
}

// One more, up to the largest number.
fn count(n: &mut usize) {
    *n = n.saturating_add(1);
}

impl Tally {
    fn note_call(&mut self, call: Call) {
        count(match call {
            Call::Start => &mut self.runs,
            Call::Answer(_) | Call::LongAnswer => &mut self.answers,
            Call::Fetch => &mut self.fetches,
            Call::Copy => &mut self.copies,
        });
    }

    fn note_given(&mut self, given: Given) {
        match given {
            Given::Done => count(&mut self.done),
            Given::Refused(refusal) => {
                if let Some(n) = self.refusals.get_mut(usize::from(refusal.number())) {
                    count(n);
                }
            }
            Given::Number(_) | Given::Wrong => {}
        }
    }

    // Counts an item, what its call gave, and whether this or the question total is not what the item says.
    fn enter(&mut self, item: &[u8], given: Given, asked: usize) {
        self.note_call(call_of(item));
        self.note_given(given);
        if stored(item) != Some(given) || asked != total(item) {
            count(&mut self.different);
        }
    }

    // The counts, and the refusal numbers that came.
    fn print(&self, rt: &impl Print) -> io::Result<()> {
        println!(rt; "runs {}", self.runs)?;
        println!(rt; "answers {}", self.answers)?;
        println!(rt; "fetches {}", self.fetches)?;
        println!(rt; "copies {}", self.copies)?;
        println!(rt; "done {}", self.done)?;
        println!(rt; "differ {}", self.different)?;
        for (k, n) in self.refusals.iter().enumerate() {
            if 0 < *n {
                println!(rt; "refused by {k}: {n}")?;
            }
        }
        Ok(())
    }
}

// ---- a file

// Plays all items of a file, from a record that no run has begun with.
fn play_all(file: &[u8], tally: &mut Tally) {
    let mut run = determination::start(0).run;
    let mut rest = file;
    while !rest.is_empty() {
        let played = play(rest, run);
        run = played.run;
        tally.enter(rest, played.given, determination::asked(run));
        let Some(after) = rest.get(size(rest)..) else {
            return count(&mut tally.different);
        };
        rest = after;
    }
}

// Plays the file that argument i names.
fn play_argument(rt: &(impl Env + Files + Eprint), i: usize, tally: &mut Tally) {
    let mut file = [0u8; test_input::ROOM];
    let n = test_input::read_argument(rt, i, &mut file);
    play_all(&file[..n], tally);
}

fn main(rt: HostRuntime) -> io::Result<()> {
    let mut tally = Tally::default();
    for i in 1..=3 {
        play_argument(&rt, i, &mut tally);
    }
    tally.print(&rt)
}
