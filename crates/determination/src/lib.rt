// The run (document 01, "The run"): the calls on its record, by value and lent: the start, an answer, a row fetch and a copy of all rows. The rules are
// in the crate `runs`; the record, what it stands for in them, and a start and an answer on it are in `run_record`.
//
// No public call has a condition: a record may hold anything, also what no start and no answer could have left. What is tested, and no more:
// - An answer is taken by the test in `run_record`, else 7.
// - Rows are served where the phase is DONE and there are at most 64, else 7: the patterns and counts as they stand, whatever they are.
// - `asked` gives the number as it stands.
// A call that gives 7 leaves the record as it was.
#![tactic(auto)]

ghost use Rattle.std.specs.Prelude.{◌≡◌};
ghost use Rattle.runs.specs.Run.{fetch_of, copy_of};
ghost use Rattle.run_record.specs.Record.{closed_phase, is_done, state_of, step_of, AnswerGives, StartGives, StartIn};
ghost use Rattle.determination.specs.Served.{fetched_of, copied_of};

use refusals::{MOST_PRODUCTS, MOST_ROWS, Refusal};
use run_parts::copy_front;
use run_record::{CLOSED, DONE, Run, Step};
use signs::Pattern;

// A row: a pattern and how many points have it.
#[derive(Clone, Copy, Debug, PartialEq, Eq)]
pub struct Row {
    pub pattern: Pattern,
    pub count: u16,
}

// The record after a call, and the step.
#[derive(Clone, Copy)]
pub struct Answered {
    pub run: Run,
    pub step: Step,
}

// A closed record for s polynomials, with no question asked.
fn unstarted(s: usize) -> Run
    ensures { (result.polynomials ≡ s) × (result.phase ≡ closed_phase) × (result.asked ≡ 0) × (result.round ≡ 0) × (result.n ≡ 0) × (result.rows ≡ 0) × (result.answered ≡ 0) }
{
    Run {
        polynomials: s,
        asked: 0,
        phase: CLOSED,
        round: 0,
        n: 0,
        rows: 0,
        patterns: [0u16; MOST_ROWS],
        counts: [0u16; MOST_ROWS],
        products: [0u16; MOST_ROWS],
        answered: 0,
        answers: [0i8; MOST_PRODUCTS],
    }
}

// The start of a run for s polynomials: its record, and product 0 to ask. Where s is outside 1 .. 8 the step is 3, and the record is a closed one
// with no question asked.
pub fn start(s: usize) -> Answered
    ensures { StartGives s result.run (step_of result.step) }
{
    let mut run = unstarted(s);
    let step = run.start(s);
    Answered { run, step }
}

// Starts a run for s polynomials in the lent record. Where s is refused, 3, no run begins and the record is as it was.
pub fn start_lent(run: &mut Run, s: usize) -> Step
    ensures { StartIn run.old s run.new (step_of result) }
{
    run.start(s)
}

// The answer a to the product asked last: the record after it, and the next product to ask, done, or a refusal. 8 for a first answer outside
// 0 .. 64, 9 for a later one outside −n .. n, n being the first, and 10 for a round's last one where no counts fit; each closes the record, which
// then holds no rows. After done or closed 7, and the record is as it was.
pub fn answer(run: Run, a: i64) -> Answered
    ensures { AnswerGives run a result.run (step_of result.step) }
{
    let mut run = run;
    let step = run.answer(a);
    Answered { run, step }
}

// The same on a lent record: it is updated where it lies, and the step is returned.
pub fn answer_lent(run: &mut Run, a: i64) -> Step
    ensures { AnswerGives run.old a run.new (step_of result) }
{
    run.answer(a)
}

// The same by value, through the lent entry: a local record is lent to it.
pub fn answer_through(run: Run, a: i64) -> Answered
    ensures { AnswerGives run a result.run (step_of result.step) }
{
    let mut kept = run;
    let step = answer_lent(&mut kept, a);
    Answered { run: kept, step }
}

// Whether the run is done, and its rows can be had: at most 64. The rows themselves are not looked at.
#[tactic(auto, using(std::proofs::lemmas::Bool::Decides::nat_tests), unfolding(run_record::specs::Record::is_done))]
fn done(run: Run) -> bool
    ensures { result ≡ is_done run }
{
    run.phase == DONE && run.rows <= MOST_ROWS
}

// The row at position p of a run that is done: 7 before done and after closed, 14 past the last row.
pub fn fetch_row(run: Run, p: usize) -> Result<Row, Refusal>
    ensures { fetched_of result ≡ fetch_of (state_of run) p }
{
    if !done(run) {
        return Err(Refusal::Late);
    }
    let rows = run.rows;
    if rows <= p {
        return Err(Refusal::PastLast);
    }
    Ok(Row {
        pattern: Pattern(run.patterns[p]),
        count: run.counts[p],
    })
}

// How many questions the run has asked.
pub fn asked(run: Run) -> usize
    ensures { result ≡ (state_of run).total }
{
    run.asked
}

// Copies all rows of a run that is done to the two slices. Returns how many they are: 7 before done and after closed, 15 where a slice is
// shorter. A refusal leaves both slices as they were, and what lies past the rows is kept.
pub fn copy_rows(run: Run, patterns: &mut [u16], counts: &mut [u16]) -> Result<usize, Refusal>
    ensures { record { result = copied_of result; patterns_left = patterns.new; counts_left = counts.new } ≡ copy_of (state_of run) patterns.old counts.old }
{
    if !done(run) {
        return Err(Refusal::Late);
    }
    let rows = run.rows;
    if patterns.len() < rows {
        return Err(Refusal::TooShort);
    }
    if counts.len() < rows {
        return Err(Refusal::TooShort);
    }
    copy_front(&run.patterns, rows, patterns);
    copy_front(&run.counts, rows, counts);
    Ok(rows)
}
