// The printout of a card (document 01, "One card through"): whole, or line by line.
//
// `begin`, `next_line` and `printout` have no condition: any bytes, and any progress, have an answer. `put_lines` is for programs that lend a slice with
// room for any printout, which their proofs show.
#![tactic(auto)]

ghost use Rattle.std.specs.Prelude.{◌≡◌, [], ◌∷◌, ◌++◌, ◌+◌, ◌*◌, ◌≤◌, length, take};
ghost use Rattle.query.specs.Opened.{opened_answer as answer_on};
ghost use Rattle.refusals.specs.Limits.{most_points};
ghost use Rattle.rounds.specs.Rows.{rows_with};
ghost use Rattle.rounds.specs.RoundEnd.{round_rows};
ghost use Rattle.runs.specs.Run.{done, answer_of, fetch_of};
ghost use Rattle.run_record.specs.Record.{state_of, step_of};
ghost use Rattle.lines.specs.Put.{Put};
ghost use Rattle.lines.specs.Text.{longest_line, end_line};
ghost use Rattle.printout.specs.Printout.{row_lines, together, printout_of};
ghost use Rattle.printout.specs.Steps.{asking, Settled, Plays};
ghost use Rattle.printout.specs.Written.{most_text, written_of};
ghost use Rattle.printout.specs.Progress.{progress_of, stage_of, begun_of, on_step, on_answer, on_fetch, after_row, next_of, Shows};

use lines::{LONGEST_LINE, Line};
use query::Opened;
use refusals::{MOST_QUESTIONS, MOST_ROWS, Refusal};
use run_record::{Run, Step};
use signs::Product;

// The most lines of a printout: the questions, the rows and the last line.
pub const MOST_LINES: usize = MOST_QUESTIONS + MOST_ROWS + 1;

// The most bytes of a line of a card's printout: `Q 6560 -64` and a newline.
const SHORT_LINE: usize = 11;

// The room that a printout is written in: that of so many lines, and past them that of the longest lines from a last question on.
pub const MOST_TEXT: usize = MOST_LINES * SHORT_LINE + (MOST_ROWS + 2) * LONGEST_LINE;

// What comes next: a question, the row at a position, or nothing more.
#[derive(Clone, Copy)]
pub enum Stage {
    Ask(Product),
    Row(usize),
    Over,
}

// A printout that goes on: the opened card, the run on it, and what comes next.
#[derive(Clone, Copy)]
pub struct Progress {
    pub card: Opened,
    pub run: Run,
    pub stage: Stage,
}

// A line, and the progress after it.
#[derive(Clone, Copy)]
pub struct Printed {
    pub progress: Progress,
    pub line: Line,
}

// The printout of a card before its first line.
pub fn begin(card: &[u8]) -> Progress
    ensures { progress_of result ≡ begun_of card.now }
{
    let opened = query::open(card);
    Progress {
        card: opened,
        run: determination::start(opened.s).run,
        stage: Stage::Ask(Product(0)),
    }
}

// A line with what is left.
fn with_line(card: Opened, run: Run, stage: Stage, line: Line) -> Printed
    ensures { (result.progress.card ≡ card) × (result.progress.run ≡ run) × (result.progress.stage ≡ stage) × (result.line ≡ line) }
{
    Printed {
        progress: Progress { card, run, stage },
        line,
    }
}

// The line of the product a whose query is z.
fn take_answer(card: Opened, run: Run, a: Product, z: i64) -> Printed
    ensures { Shows result (on_step card a.0 z (answer_of round_rows (state_of run) z)) }
{
    let next = determination::answer(run, z);
    let after = next.run;
    match next.step {
        Step::Ask(b) => with_line(card, after, Stage::Ask(b), lines::question_line(a, z)),
        Step::Done => with_line(card, after, Stage::Row(0), lines::question_line(a, z)),
        Step::Refused(refusal) => {
            let line = lines::refusal_line(refusal.number());
            with_line(card, after, Stage::Over, line)
        }
    }
}

// The line of the product a: the panel number of its three counts, or the number that refuses the card or the product.
fn next_question(card: Opened, run: Run, a: Product) -> Printed
    ensures { Shows result (on_answer card (state_of run) a.0 (answer_on card a.0)) }
{
    match query::ask(card, a) {
        Ok(counts) => take_answer(card, run, a, sign_counts::panel_number(counts)),
        Err(refusal) => {
            let line = lines::refusal_line(refusal.number());
            with_line(card, run, Stage::Over, line)
        }
    }
}

// What comes after the row at position p.
fn after_row(p: usize) -> Stage
    ensures { stage_of result ≡ after_row p }
{
    if p < MOST_ROWS {
        Stage::Row(p + 1)
    } else {
        Stage::Over
    }
}

// The line of the row at position p, or the last line.
fn next_row(card: Opened, run: Run, p: usize) -> Printed
    ensures { Shows result (on_fetch card (state_of run) p (fetch_of (state_of run) p)) }
{
    match determination::fetch_row(run, p) {
        Ok(row) => with_line(
            card,
            run,
            after_row(p),
            lines::row_line(row.pattern, row.count),
        ),
        Err(refusal) => match refusal {
            Refusal::PastLast => {
                let last = lines::end_line(determination::asked(run));
                with_line(card, run, Stage::Over, last)
            }
            _ => {
                let refused = lines::refusal_line(refusal.number());
                with_line(card, run, Stage::Over, refused)
            }
        },
    }
}

// The next line, and the progress after it: a Q line for the question asked, an S line for each row, the E line past the last row, and the empty line
// once it is over. Where the card or the run refuses, its R line, and it is over.
pub fn next_line(progress: Progress) -> Printed
    ensures { Shows result (next_of (progress_of progress)) }
{
    let Progress { card, run, stage } = progress;
    match stage {
        Stage::Ask(a) => next_question(card, run, a),
        Stage::Row(p) => next_row(card, run, p),
        Stage::Over => with_line(card, run, Stage::Over, lines::empty_line()),
    }
}

// Writes the rows and the last line to out, from byte `at` on, and returns where they end.
fn put_rows(patterns: &[u16], counts: &[u16], asked: usize, out: &mut [u8], at: usize) -> usize
    requires { (length counts.now ≡ length patterns.now) × (at + longest_line * (length patterns.now + 1) ≤ length out.old) }
    ensures put { Put out.old at (together (row_lines (rows_with patterns.now counts.now) ++ (end_line asked ∷ []))) out.new result }
    ensures upper_bound { result ≤ at + longest_line * (length patterns.now + 1) }
{
    let mut end = at;
    for (pattern, count) in patterns.iter().zip(counts) {
        end = lines::put_row(out, end, *pattern, *count);
    }
    lines::put_end(out, end, asked)
}

// A question of a printout behind it: the next product, where the text ends, and whether it is over.
#[derive(Clone, Copy)]
struct Played {
    product: u16,
    at: usize,
    over: bool,
}

// Writes the line of the product a whose query is z, after which the run's record and the step are these, and where the run is done all lines that
// follow.
fn put_step(run: &Run, step: Step, a: u16, z: i64, out: &mut [u8], at: usize) -> Played
    requires room { at + longest_line * (most_points + 2) ≤ length out.old }
    requires few_rows { step_of step ≡ done → run.now.rows ≤ most_points }
    ensures { (o : Opened) → Settled (state_of run.now, step_of step) → Plays (on_step o a z (state_of run.now, step_of step)) out.old at out.new result.at (asking o (state_of run.now) result.product) result.over }
{
    match step {
        Step::Ask(b) => Played {
            product: b.0,
            at: lines::put_question(out, at, a, z),
            over: false,
        },
        Step::Done => {
            let end = lines::put_question(out, at, a, z);
            let rows = run.rows;
            Played {
                product: 0,
                at: put_rows(
                    &run.patterns[..rows],
                    &run.counts[..rows],
                    run.asked,
                    out,
                    end,
                ),
                over: true,
            }
        }
        Step::Refused(refusal) => Played {
            product: 0,
            at: lines::put_refusal(out, at, refusal.number()),
            over: true,
        },
    }
}

// Asks the product a, answers the run and writes the line, and where it is over all lines that follow.
fn put_question(card: Opened, run: &mut Run, a: u16, out: &mut [u8], at: usize) -> Played
    requires { at + longest_line * (most_points + 2) ≤ length out.old }
    ensures { Plays (next_of (asking card (state_of run.old) a)) out.old at out.new result.at (asking card (state_of run.new) result.product) result.over }
{
    match query::ask(card, Product(a)) {
        Ok(counts) => {
            let z = sign_counts::panel_number(counts);
            let step = determination::answer_lent(run, z);
            put_step(run, step, a, z, out, at)
        }
        Err(refusal) => Played {
            product: 0,
            at: lines::put_refusal(out, at, refusal.number()),
            over: true,
        },
    }
}

// Writes the printout of a card to the front of out, which has room for any, and returns how many bytes it has.
pub fn put_lines(card: &[u8], out: &mut [u8]) -> usize
    requires { length out.old ≡ most_text }
    ensures { (take result out.new ≡ printout_of card.now) × (result ≡ length (printout_of card.now)) × (result ≤ most_text) }
{
    let opened = query::open(card);
    let mut run = determination::start(opened.s).run;
    let mut a: u16 = 0;
    let mut at = 0;
    for k in 0..MOST_QUESTIONS {
        let played = put_question(opened, &mut run, a, out, at);
        at = played.at;
        if played.over {
            return at;
        }
        a = played.product;
    }
    at
}

// Writes the whole printout of a card to the front of out and returns how many bytes it has; what lies past it is kept. Where out is shorter it is
// refused by TooShort, and out is as it was.
pub fn printout(card: &[u8], out: &mut [u8]) -> Result<usize, Refusal>
    ensures { (result, out.new) ≡ written_of card.now out.old }
{
    let mut text = [0u8; MOST_TEXT];
    let n = put_lines(card, &mut text);
    if out.len() < n {
        return Err(Refusal::TooShort);
    }
    lines::copy_at(&text[..n], out, 0);
    Ok(n)
}
