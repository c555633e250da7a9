// The library for programs in C and Rust (include/tarski.h, include/tarski.rs): the proved calls on plain numbers, slices as pointer and length, and
// records lent by reference. An enum's cases are numbers here: the definitions in specs/Flat.antt say which.
#![tactic(auto)]

ghost use Rattle.std.specs.Prelude.{◌≡◌};
ghost use Rattle.card.specs.Answers.{reading, value_answer, value_at_answer};
ghost use Rattle.query.specs.Query.{query_answer};
ghost use Rattle.adapted_list.specs.Listing.{list_of};
ghost use Rattle.query_list.specs.Listing.{card_listing, opened_listing};
ghost use Rattle.solver.specs.Solving.{solve_of};
ghost use Rattle.query.specs.Opened.{opened, opened_answer as asked_of};
ghost use Rattle.runs.specs.Run.{fetch_of, copy_of};
ghost use Rattle.run_record.specs.Record.{state_of, step_of};
ghost use Rattle.determination.specs.Served.{fetched_of, copied_of as rows_copied};
ghost use Rattle.card_writer.specs.Writing.{writing};
ghost use Rattle.card_draw.specs.Drawn.{drawing};
ghost use Rattle.tarski.specs.Written.{written_of};
ghost use Rattle.tarski.specs.Numbered.{flat_numbered_of, flat_listing};
ghost use Rattle.tarski.specs.Flat.{card_of, value_of, flat_counts_of, refusal_of, flat_step_of, AnswerGivesFlat, StartGivesFlat, row_of, copied_of, left_of};

use adapted_list::adapted_list;
use card::Shape;
use determination::{Row, answer_lent, asked, copy_rows, fetch_row, start_lent};
use query::Opened;
use query_list::ListRefusal;
use refusals::Refusal;
use run_record::{Run, Step};
use sign_counts::{SignCounts, panel_number};
use signs::Product;

// The number shown for the refusal where nothing is refused.
const NONE: u16 = 0;

// The number shown for the result where it is refused.
const NO_NUMBER: i64 = 0;

// What a card says of itself, or the number that refuses it.
#[repr(C)]
#[derive(Clone, Copy, Debug, PartialEq, Eq)]
pub struct Checked {
    pub polynomials: usize,
    pub points: usize,
    pub refusal: u16,
}

// A value, or the number that refuses it.
#[repr(C)]
#[derive(Clone, Copy, Debug, PartialEq, Eq)]
pub struct Number {
    pub number: i64,
    pub refusal: u16,
}

// The panel number of a query and its three counts, or the number that refuses it.
#[repr(C)]
#[derive(Clone, Copy, Debug, PartialEq, Eq)]
pub struct FlatCounts {
    pub number: i64,
    pub positive: u16,
    pub negative: u16,
    pub zero: u16,
    pub refusal: u16,
}

// How a list of products is answered: 0 where the numbers are written, else the number that refuses, for a bad product with its position.
#[repr(C)]
#[derive(Clone, Copy, Debug, PartialEq, Eq)]
pub struct FlatNumbered {
    pub position: usize,
    pub refusal: u16,
}

// The kinds of what a call on a run gives.
const ASK: u16 = 0;

const DONE: u16 = 1;

const REFUSED: u16 = 2;

// What a call on a run gives: 0 with the product to ask, 1 where it is done, 2 with the number that refuses.
#[repr(C)]
#[derive(Clone, Copy, Debug, PartialEq, Eq)]
pub struct FlatStep {
    pub kind: u16,
    pub value: u16,
}

// A row, or the number that refuses it.
#[repr(C)]
#[derive(Clone, Copy, Debug, PartialEq, Eq)]
pub struct FlatRow {
    pub pattern: u16,
    pub count: u16,
    pub refusal: u16,
}

// How many rows were copied, or the number that refuses.
#[repr(C)]
#[derive(Clone, Copy, Debug, PartialEq, Eq)]
pub struct FlatCopied {
    pub rows: usize,
    pub refusal: u16,
}

// How many bytes the card written has, or the number that refuses it.
#[repr(C)]
#[derive(Clone, Copy, Debug, PartialEq, Eq)]
pub struct FlatWritten {
    pub length: usize,
    pub refusal: u16,
}

// ---- answers as plain numbers

impl From<Result<Shape, Refusal>> for Checked {
    ghost from_gives = { λ answer t. t ≡ card_of answer };

    #[tactic(auto, unfolding(crate::specs::Flat::card_of))]
    fn from(answer: Result<Shape, Refusal>) -> Checked {
        match answer {
            Ok(shape) => Checked {
                polynomials: shape.polynomials,
                points: shape.points,
                refusal: NONE,
            },
            Err(refusal) => Checked {
                polynomials: 0,
                points: 0,
                refusal: refusal.number(),
            },
        }
    }
}

impl From<Result<i64, Refusal>> for Number {
    ghost from_gives = { λ answer t. t ≡ value_of answer };

    #[tactic(auto, unfolding(crate::specs::Flat::value_of))]
    fn from(answer: Result<i64, Refusal>) -> Number {
        match answer {
            Ok(number) => Number {
                number,
                refusal: NONE,
            },
            Err(refusal) => Number {
                number: NO_NUMBER,
                refusal: refusal.number(),
            },
        }
    }
}

impl From<Result<SignCounts, Refusal>> for FlatCounts {
    ghost from_gives = { λ answer t. t ≡ flat_counts_of answer };

    #[tactic(auto, unfolding(crate::specs::Flat::flat_counts_of))]
    fn from(answer: Result<SignCounts, Refusal>) -> FlatCounts {
        match answer {
            Ok(counts) => FlatCounts {
                number: panel_number(counts),
                positive: counts.positive,
                negative: counts.negative,
                zero: counts.zero,
                refusal: NONE,
            },
            Err(refusal) => FlatCounts {
                number: NO_NUMBER,
                positive: 0,
                negative: 0,
                zero: 0,
                refusal: refusal.number(),
            },
        }
    }
}

impl From<Result<(), ListRefusal>> for FlatNumbered {
    ghost from_gives = { λ answer t. t ≡ flat_numbered_of answer };

    #[tactic(auto, unfolding(crate::specs::Numbered::flat_numbered_of))]
    fn from(answer: Result<(), ListRefusal>) -> FlatNumbered {
        match answer {
            Ok(()) => FlatNumbered {
                position: 0,
                refusal: NONE,
            },
            Err(ListRefusal { refusal, position }) => FlatNumbered {
                position: position.unwrap_or(0),
                refusal: refusal.number(),
            },
        }
    }
}

impl From<Result<usize, Refusal>> for FlatWritten {
    ghost from_gives = { λ answer t. t ≡ written_of answer };

    #[tactic(auto, unfolding(crate::specs::Written::written_of))]
    fn from(answer: Result<usize, Refusal>) -> FlatWritten {
        match answer {
            Ok(length) => FlatWritten {
                length,
                refusal: NONE,
            },
            Err(refusal) => FlatWritten {
                length: 0,
                refusal: refusal.number(),
            },
        }
    }
}

impl From<Step> for FlatStep {
    ghost from_gives = { λ step t. t ≡ flat_step_of (step_of step) };

    #[tactic(auto, unfolding(crate::specs::Flat::flat_step_of))]
    fn from(step: Step) -> FlatStep {
        match step {
            Step::Ask(product) => FlatStep {
                kind: ASK,
                value: product.0,
            },
            Step::Done => FlatStep {
                kind: DONE,
                value: 0,
            },
            Step::Refused(refusal) => FlatStep {
                kind: REFUSED,
                value: refusal.number(),
            },
        }
    }
}

impl From<Result<Row, Refusal>> for FlatRow {
    ghost from_gives = { λ answer t. t ≡ row_of (fetched_of answer) };

    #[tactic(auto, unfolding(crate::specs::Flat::row_of))]
    fn from(answer: Result<Row, Refusal>) -> FlatRow {
        match answer {
            Ok(Row { pattern, count }) => FlatRow {
                pattern: pattern.0,
                count,
                refusal: NONE,
            },
            Err(refusal) => FlatRow {
                pattern: 0,
                count: 0,
                refusal: refusal.number(),
            },
        }
    }
}

impl From<Result<usize, Refusal>> for FlatCopied {
    ghost from_gives = { λ answer t. t ≡ copied_of (rows_copied answer) };

    #[tactic(auto, unfolding(crate::specs::Flat::copied_of))]
    fn from(answer: Result<usize, Refusal>) -> FlatCopied {
        match answer {
            Ok(rows) => FlatCopied {
                rows,
                refusal: NONE,
            },
            Err(refusal) => FlatCopied {
                rows: 0,
                refusal: refusal.number(),
            },
        }
    }
}

// The number of a refusal, or 0.
#[tactic(auto, unfolding(crate::specs::Flat::refusal_of))]
fn refusal_number(answer: Result<(), Refusal>) -> u16
    ensures { result ≡ refusal_of answer }
{
    match answer {
        Ok(()) => NONE,
        Err(refusal) => refusal.number(),
    }
}

// ---- cards and queries

// The number of polynomials and of points of a card.
#[unsafe(no_mangle)]
pub extern "C" fn tarski_check(card: &[u8]) -> Checked
    ensures { result ≡ card_of (reading card.now) }
{
    card::read(card).into()
}

// The value at x of polynomial j of a card of points on the line.
#[unsafe(no_mangle)]
pub extern "C" fn tarski_value(card: &[u8], j: usize, x: i8) -> Number
    ensures { result ≡ value_of (value_answer card.now j x) }
{
    card::value(card, j, x).into()
}

// The value at (x, y) of polynomial j of a card of either kind.
#[unsafe(no_mangle)]
pub extern "C" fn tarski_value_at(card: &[u8], j: usize, x: i64, y: i64) -> Number
    ensures { result ≡ value_of (value_at_answer card.now j (x, y)) }
{
    card::value_at(card, j, x, y).into()
}

// The Tarski query of a product on a card, with its three counts.
#[unsafe(no_mangle)]
pub extern "C" fn tarski_query(card: &[u8], product: u16) -> FlatCounts
    ensures { result ≡ flat_counts_of (query_answer card.now product) }
{
    query::query(card, Product(product)).into()
}

// Opens a card: checks it and works out the signs of its polynomials at its points, once.
#[unsafe(no_mangle)]
pub extern "C" fn tarski_open(card: &[u8]) -> Opened
    ensures { result ≡ opened card.now }
{
    query::open(card)
}

// The query of a product on a lent opened card.
#[unsafe(no_mangle)]
pub extern "C" fn tarski_ask(card: &Opened, product: u16) -> FlatCounts
    ensures { result ≡ flat_counts_of (asked_of card.now product) }
{
    query::ask(*card, Product(product)).into()
}

// Writes to out the panel numbers of the products on a card, in the list's order.
#[unsafe(no_mangle)]
pub extern "C" fn tarski_query_all(card: &[u8], products: &[u16], out: &mut [i64]) -> FlatNumbered
    ensures { (result, out.new) ≡ flat_listing (card_listing card.now products.now out.old) }
{
    query_list::query_all(card, products, out).into()
}

// The same on a lent opened card.
#[unsafe(no_mangle)]
pub extern "C" fn tarski_ask_all(card: &Opened, products: &[u16], out: &mut [i64]) -> FlatNumbered
    ensures { (result, out.new) ≡ flat_listing (opened_listing card.now products.now out.old) }
{
    query_list::ask_all(*card, products, out).into()
}

// ---- cards written and drawn

// Writes to out the card of these degrees, coefficients and points.
#[unsafe(no_mangle)]
pub extern "C" fn tarski_write(
    degrees: &[usize],
    coefficients: &[i64],
    points: &[i64],
    out: &mut [u8],
) -> FlatWritten
    ensures value { result ≡ written_of (writing degrees.now coefficients.now points.now out.old).0 }
    ensures out_after { out.new ≡ (writing degrees.now coefficients.now points.now out.old).1 }
{
    card_writer::write(degrees, coefficients, points, out).into()
}

// Writes to out the card of s polynomials of degree d and n points that the seed draws.
#[unsafe(no_mangle)]
pub extern "C" fn tarski_draw(
    seed: u32,
    s: usize,
    n: usize,
    d: usize,
    out: &mut [u8],
) -> FlatWritten
    ensures value { result ≡ written_of (drawing seed s n d out.old).0 }
    ensures out_after { out.new ≡ (drawing seed s n d out.old).1 }
{
    card_draw::draw(seed, s, n, d, out).into()
}

// ---- the solver

// Writes to out the adapted list of the patterns. 0, or the refusal.
#[unsafe(no_mangle)]
pub extern "C" fn tarski_adapted(s: usize, patterns: &[u16], out: &mut [u16]) -> u16
    ensures value { result ≡ refusal_of (list_of s patterns.now out.old).0 }
    ensures out_after { out.new ≡ (list_of s patterns.now out.old).1 }
{
    refusal_number(adapted_list(s, patterns, out))
}

// Writes to out the whole numbers on the patterns whose queries on the adapted list are the numbers. 0, or the refusal.
#[unsafe(no_mangle)]
pub extern "C" fn tarski_solve(s: usize, patterns: &[u16], numbers: &[i64], out: &mut [i64]) -> u16
    ensures value { result ≡ refusal_of (solve_of s patterns.now numbers.now out.old).0 }
    ensures out_after { out.new ≡ (solve_of s patterns.now numbers.now out.old).1 }
{
    refusal_number(solver::solve(s, patterns, numbers, out))
}

// ---- the run

// Starts a run for s polynomials in the lent record. Where s is refused, no run begins and the record is as it was.
#[unsafe(no_mangle)]
pub extern "C" fn tarski_start(run: &mut Run, s: usize) -> FlatStep
    ensures { StartGivesFlat run.old s run.new result }
{
    start_lent(run, s).into()
}

// Gives the run in the lent record an answer. Where it comes too late, the record is as it was.
#[unsafe(no_mangle)]
pub extern "C" fn tarski_answer(run: &mut Run, a: i64) -> FlatStep
    ensures { AnswerGivesFlat run.old a run.new result }
{
    answer_lent(run, a).into()
}

// How many questions the run in the lent record has asked.
#[unsafe(no_mangle)]
pub extern "C" fn tarski_asked(run: &Run) -> usize
    ensures { result ≡ (state_of run.now).total }
{
    asked(*run)
}

// The row at position p of the run in the lent record.
#[unsafe(no_mangle)]
pub extern "C" fn tarski_row(run: &Run, p: usize) -> FlatRow
    ensures { result ≡ row_of (fetch_of (state_of run.now) p) }
{
    fetch_row(*run, p).into()
}

// Copies all rows of the run in the lent record to the two slices.
#[unsafe(no_mangle)]
pub extern "C" fn tarski_rows(run: &Run, patterns: &mut [u16], counts: &mut [u16]) -> FlatCopied
    ensures { (result, patterns.new, counts.new) ≡ left_of (copy_of (state_of run.now) patterns.old counts.old) }
{
    copy_rows(*run, patterns, counts).into()
}
