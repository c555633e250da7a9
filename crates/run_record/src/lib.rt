// The record of a run (document 01, "The run"), and a start and an answer on it. The rules are in the crate `runs`, what a record stands for in them
// in specs/Record, and what demand 1 says of calls on it in specs/DemandOne; the calls with records by value are in `determination`.
//
// A record may hold anything, also what no start and no answer could have left. What is tested, and no more: an answer is taken where the phase is
// RUNNING, the numbers are in their limits (`in_limits`) and, after round 0, the products kept are below 3^(round − 1); else 7, and the record is as
// it was. It is worked out from the patterns, counts and answers as they stand; at a round's end, patterns that do not rise or are not below
// 3^(round − 1), and counts of 0 or of more than 64 together, give 10.
//
// `answer_parts` is an answer to a record in parts: its numbers by value (`Head`), its arrays lent. It requires the lengths of the arrays.
#![tactic(auto)]

ghost use Rattle.std.specs.Prelude.{◌≡◌, true, false, List, ℕ, suc, ◌+◌, ◌*◌, ◌-◌, ◌^◌, ◌≤◌, ◌<◌, ℤ, nat_abs, length, take};
ghost use Rattle.std.proofs.Math.Option.{some};
ghost use Rattle.refusals.specs.Limits.{most_polynomials, most_points};
ghost use Rattle.refusals.specs.Refusals.{number_of};
ghost use Rattle.signs.specs.Lists.{Below, Rising};
ghost use Rattle.rounds.specs.Rows.{rows_with};
ghost use Rattle.rounds.specs.RoundEnd.{round_rows};
ghost use Rattle.runs.specs.Run.{ask, close as close_of, round_step, end_round, ended, first_answer as first_of, later_answer as later_of};
ghost use Rattle.run_parts.specs.Parts.{in_limits};
ghost use Rattle.run_record.specs.Record.{running_phase, most_asked, is_sound, is_running, running_state, with_answer, run_of, state_of, step_of, IsClosed, ClosedWhere, AnswerGives, StartGives, StartIn};

use adapted::adapted;
use refusals::{MOST_POLYNOMIALS, MOST_PRODUCTS, MOST_ROWS, Refusal};
use run_parts::{copy_front, find_rows, round_product};
use signs::{Product, below, power};

// The most points, as the record has their number.
const MOST_POINTS: u64 = refusals::MOST_POINTS as u64;

// Where a run stands. Any other number is read as closed.
pub const RUNNING: u8 = 0;

pub const DONE: u8 = 1;

pub const CLOSED: u8 = 2;

// What an answer gives: the next product to ask, done, or why it is refused. 8, 9 and 10 close the run; 7 leaves it as it was.
#[derive(Clone, Copy, Debug, PartialEq, Eq)]
pub enum Step {
    Ask(Product),
    Done,
    Refused(Refusal),
}

// The run record. Of `patterns`, `counts` and `products`, the adapted list, the first `rows` count, and of `answers` the first `answered`. Answers fit
// 8 bits: one outside −n .. n, n at most 64, is refused and not kept.
#[repr(C)]
#[derive(Clone, Copy)]
pub struct Run {
    pub polynomials: usize,
    pub asked: usize,
    pub phase: u8,
    pub round: usize,
    pub n: u64,
    pub rows: usize,
    pub patterns: [u16; MOST_ROWS],
    pub counts: [u16; MOST_ROWS],
    pub products: [u16; MOST_ROWS],
    pub answered: usize,
    pub answers: [i8; MOST_PRODUCTS],
}

impl Run {
    // ---- tests

    // Whether a running record's numbers are such as the calls leave.
    #[tactic(auto, using(std::proofs::lemmas::Bool::Decides::nat_tests), unfolding(run_parts::specs::Parts::in_limits))]
    fn in_limits(&self) -> bool
        ensures { result ≡ in_limits self.now.polynomials self.now.asked self.now.round self.now.n self.now.rows self.now.answered }
    {
        let s = self.polynomials;
        let round = self.round;
        let rows = self.rows;
        if s < 1 || MOST_POLYNOMIALS < s || s < round || MOST_POINTS < self.n || MOST_ROWS < rows {
            return false;
        }
        if round == 0 {
            self.answered == 0 && self.asked == 0
        } else {
            self.answered < 2 * rows && self.asked <= MOST_PRODUCTS * round + self.answered
        }
    }

    // Whether a running record's numbers are in their limits, and its products below 3^(round − 1). Its rows and answers are not looked at.
    fn is_sound(&self) -> bool
        ensures { result ≡ is_sound self.now }
    {
        if !self.in_limits() {
            return false;
        }
        let round = self.round;
        round == 0 || below(&self.products[..self.rows], power(round - 1))
    }

    // Whether the run goes on.
    fn is_running(&self) -> bool
        ensures { result ≡ is_running self.now }
    {
        self.phase == RUNNING && self.is_sound()
    }

    // ---- the start

    // Starts a run for s polynomials in this record, whatever it held. Where s is outside 1 .. 8 the step is 3, no run begins and the record is as it was.
    pub fn start(&mut self, s: usize) -> Step
        ensures { StartIn self.old s self.new (step_of result) }
    {
        if s < 1 || MOST_POLYNOMIALS < s {
            return Step::Refused(Refusal::WrongCount);
        }
        self.polynomials = s;
        self.asked = 0;
        self.phase = RUNNING;
        self.round = 0;
        self.n = 0;
        self.rows = 0;
        self.answered = 0;
        Step::Ask(Product(0))
    }

    // ---- an answer

    // Closes the record by a refusal: one more question, no rows and no answers, whatever its arrays hold.
    fn close(&mut self, cause: Refusal) -> Step
        requires { self.old.asked < most_asked }
        ensures { ((state_of self.new, step_of result) ≡ close_of round_rows (running_state self.old) (number_of cause)) × IsClosed self.new }
    {
        self.asked += 1;
        self.phase = CLOSED;
        self.rows = 0;
        self.answered = 0; // none of the round that is left
        Step::Refused(cause)
    }

    // Round i has ended with so many rows, and the run is done.
    fn finish(&mut self, i: usize, n: u64, rows: usize) -> Step
        requires { (self.old.asked < most_asked) × (rows ≤ most_points) }
        ensures { (state_of self.new, step_of result) ≡ ended round_rows (running_state self.old) i n (rows_with (take rows self.old.patterns) (take rows self.old.counts)) true }
    {
        self.asked += 1;
        self.phase = DONE;
        self.round = i;
        self.n = n;
        self.rows = rows;
        self.answered = 0;
        Step::Done
    }

    // Round i has ended with so many rows, and the next round begins: its products are written, and the first one is asked.
    fn begin(&mut self, i: usize, n: u64, rows: usize) -> Step
        requires phase_value { (self.old.phase ≡ running_phase) × (i < self.old.polynomials) × (self.old.polynomials ≤ most_polynomials) × (n ≤ most_points) × (self.old.asked < 2 * most_points * suc i) }
        requires rising { (0 < rows) × (rows ≤ most_points) × Rising (take rows self.old.patterns) × Below (3 ^ i) (take rows self.old.patterns) }
        ensures { (state_of self.new, step_of result) ≡ ended round_rows (running_state self.old) i n (rows_with (take rows self.old.patterns) (take rows self.old.counts)) false }
    {
        adapted(&self.patterns[..rows], i, 0, &mut self.products, 0);
        let product = round_product(i, &self.products, rows, 0);
        self.asked += 1;
        self.round = i + 1;
        self.n = n;
        self.rows = rows;
        self.answered = 0;
        Step::Ask(product)
    }

    // The first answer: the number of points. Where there are some, the rows are so many points of pattern 0.
    fn first_answer(&mut self, a: i64) -> Step
        requires { (is_running self.old ≡ true) × (self.old.round ≡ 0) }
        ensures { ((state_of self.new, step_of result) ≡ first_of round_rows (running_state self.old) a) × ClosedWhere self.new (step_of result) }
    {
        let n = a.unsigned_abs();
        if a < 0 || MOST_POINTS < n {
            return self.close(Refusal::BadFirst);
        }
        if n == 0 {
            return self.finish(0, 0, 0);
        }
        self.patterns[0] = 0;
        self.counts[0] = n as u16;
        self.begin(0, n, 1)
    }

    // The answer stored, and the next product of the round.
    fn ask_next(&mut self, a: i64) -> Step
        requires { (is_running self.old ≡ true) × (0 < self.old.round) × (self.old.answered + 1 < 2 * self.old.rows) × (nat_abs a ≤ self.old.n) }
        ensures { (state_of self.new, step_of result) ≡ round_step round_rows (running_state self.old) (self.old.round - 1) (with_answer self.old a) true }
    {
        let k = self.answered;
        self.answers[k] = a as i8;
        self.answered = k + 1;
        self.asked += 1; // this question
        Step::Ask(round_product(self.round - 1, &self.products, self.rows, k + 1))
    }

    // The round has ended with so many rows: the run is done, or the next round begins.
    fn next_round(&mut self, rows: usize) -> Step
        requires going { (is_running self.old ≡ true) × (0 < self.old.round) × (0 < rows) × (rows ≤ most_points) }
        requires rising { Rising (take rows self.old.patterns) × Below (3 ^ self.old.round) (take rows self.old.patterns) }
        ensures { ((state_of self.new, step_of result) ≡ end_round round_rows (running_state self.old) (self.old.round - 1) (some (rows_with (take rows self.old.patterns) (take rows self.old.counts)))) × ClosedWhere self.new (step_of result) }
    {
        let round = self.round;
        let n = self.n;
        if round == self.polynomials {
            self.finish(round, n, rows)
        } else {
            self.begin(round, n, rows)
        }
    }

    // The last answer of a round.
    fn end_round(&mut self, a: i64) -> Step
        requires { (is_running self.old ≡ true) × (0 < self.old.round) × (self.old.answered + 1 ≡ 2 * self.old.rows) × (nat_abs a ≤ most_points) }
        ensures { ((state_of self.new, step_of result) ≡ round_step round_rows (running_state self.old) (self.old.round - 1) (with_answer self.old a) false) × ClosedWhere self.new (step_of result) }
    {
        let rows = self.rows;
        let mut new = [0u16; MOST_ROWS];
        let mut numbers = [0u16; MOST_ROWS];
        let next = find_rows(
            self.round - 1,
            &self.patterns[..rows],
            &self.counts[..rows],
            &self.answers[..self.answered],
            a,
            &mut new,
            &mut numbers,
        );
        match next {
            None => self.close(Refusal::NoCounts),
            Some(n) => {
                copy_front(&new, n, &mut self.patterns);
                copy_front(&numbers, n, &mut self.counts);
                self.next_round(n)
            }
        }
    }

    // An answer after the first.
    fn later_answer(&mut self, a: i64) -> Step
        requires { (is_running self.old ≡ true) × (0 < self.old.round) }
        ensures { ((state_of self.new, step_of result) ≡ later_of round_rows (running_state self.old) (self.old.round - 1) a) × ClosedWhere self.new (step_of result) }
    {
        let k = self.answered;
        let rows = self.rows;
        let n = self.n;
        if n < a.unsigned_abs() {
            return self.close(Refusal::BadLater);
        }
        if k + 1 < 2 * rows {
            self.ask_next(a)
        } else {
            self.end_round(a)
        }
    }

    // The answer a to the product asked last: the next product to ask, done, or a refusal. 8 for a first answer outside 0 .. 64, 9 for a later one
    // outside −n .. n, n being the first, and 10 for a round's last one where no counts fit; each closes the record, which then holds no rows. After
    // done or closed 7, and the record is as it was.
    pub fn answer(&mut self, a: i64) -> Step
        ensures { AnswerGives self.old a self.new (step_of result) }
    {
        let round = self.round;
        if !self.is_running() {
            Step::Refused(Refusal::Late)
        } else if round == 0 {
            self.first_answer(a)
        } else {
            self.later_answer(a)
        }
    }
}

// ---- a record in parts

// The numbers of a record, without its arrays.
#[derive(Clone, Copy, Debug, PartialEq, Eq)]
pub struct Head {
    pub polynomials: usize,
    pub asked: usize,
    pub phase: u8,
    pub round: usize,
    pub n: u64,
    pub rows: usize,
    pub answered: usize,
}

// The numbers after a call, and the step.
#[derive(Clone, Copy, Debug, PartialEq, Eq)]
pub struct Turn {
    pub head: Head,
    pub step: Step,
}

// The numbers of a record before the first answer: with arrays that hold anything, it is that of a start for s polynomials.
pub fn first_head(s: usize) -> Head
    ensures { (P C Q : List ℕ) (A : List ℤ) → 1 ≤ s → s ≤ most_polynomials → StartGives s (run_of result P C Q A) (ask 0) }
{
    Head {
        polynomials: s,
        asked: 0,
        phase: RUNNING,
        round: 0,
        n: 0,
        rows: 0,
        answered: 0,
    }
}

// The record with these numbers and arrays.
fn together(head: Head, patterns: &[u16], counts: &[u16], products: &[u16], answers: &[i8]) -> Run
    requires { (length patterns.now ≡ most_points) × (length counts.now ≡ most_points) × (length products.now ≡ most_points) × (length answers.now ≡ 2 * most_points) }
    ensures { result ≡ run_of head patterns.now counts.now products.now answers.now }
{
    let mut run = Run {
        polynomials: head.polynomials,
        asked: head.asked,
        phase: head.phase,
        round: head.round,
        n: head.n,
        rows: head.rows,
        patterns: [0u16; MOST_ROWS],
        counts: [0u16; MOST_ROWS],
        products: [0u16; MOST_ROWS],
        answered: head.answered,
        answers: [0i8; MOST_PRODUCTS],
    };
    run.patterns.copy_from_slice(patterns);
    run.counts.copy_from_slice(counts);
    run.products.copy_from_slice(products);
    run.answers.copy_from_slice(answers);
    run
}

// Copies the arrays of the record to those that were lent.
fn hand_back(
    run: &Run,
    patterns: &mut [u16],
    counts: &mut [u16],
    products: &mut [u16],
    answers: &mut [i8],
)
    requires { (length patterns.old ≡ most_points) × (length counts.old ≡ most_points) × (length products.old ≡ most_points) × (length answers.old ≡ 2 * most_points) }
    ensures { (patterns.new ≡ run.now.patterns) × (counts.new ≡ run.now.counts) × (products.new ≡ run.now.products) × (answers.new ≡ run.now.answers) }
{
    patterns.copy_from_slice(&run.patterns);
    counts.copy_from_slice(&run.counts);
    products.copy_from_slice(&run.products);
    answers.copy_from_slice(&run.answers);
}

// The answer a to a record in parts: its numbers by value, its arrays lent and updated where they lie. It is that of the record put together from them.
pub fn answer_parts(
    head: Head,
    patterns: &mut [u16],
    counts: &mut [u16],
    products: &mut [u16],
    answers: &mut [i8],
    a: i64,
) -> Turn
    requires { (length patterns.old ≡ most_points) × (length counts.old ≡ most_points) × (length products.old ≡ most_points) × (length answers.old ≡ 2 * most_points) }
    ensures { AnswerGives (run_of head patterns.old counts.old products.old answers.old) a (run_of result.head patterns.new counts.new products.new answers.new) (step_of result.step) }
{
    let mut run = together(head, patterns, counts, products, answers);
    let step = run.answer(a);
    hand_back(&run, patterns, counts, products, answers);
    let head = Head {
        polynomials: run.polynomials,
        asked: run.asked,
        phase: run.phase,
        round: run.round,
        n: run.n,
        rows: run.rows,
        answered: run.answered,
    };
    Turn { head, step }
}
