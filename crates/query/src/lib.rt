// Tarski queries on a card (document 01, "Patterns and products"; document 02, wishes 4 and 7): at how many of the card's points, each counted once, a
// product is positive, negative and 0. The number that the panel shows is the first less the second (`sign_counts::panel_number`).
//
// A card is opened once, and then answers any number of products with no polynomial evaluated again. `open`, `ask` and `query` have no condition: any
// bytes, any product number and any opened card have an answer, and what is lent stays as it was. `check_opened` and `count` are the two parts of `ask`, for
// lists of products (`query_list`): `count` is for a product that is there, on a card that is not refused, which its callers' proofs show.
#![tactic(auto)]

ghost use Rattle.std.specs.Prelude.{◌≡◌, cond, ◌-◌, ◌^◌, ◌≤◌, ◌<◌};
ghost use Rattle.std.specs.Int.Bits.{bit_and};
ghost use Rattle.std.specs.Int.Count.{ones};
ghost use Rattle.refusals.specs.Limits.{most_polynomials, most_points};
ghost use Rattle.refusals.specs.Numbers.{wrong_count, card_numbers, is_among};
ghost use Rattle.refusals.specs.Refusals.{by_number, checked};
ghost use Rattle.layout.specs.Format.{polynomials, point_count, points_at};
ghost use Rattle.plane.specs.Contents.{contents_of};
ghost use Rattle.card.specs.Sound.{Sound};
ghost use Rattle.card_points.specs.Places.{Placed};
ghost use Rattle.query.specs.Opened.{sign_word, opened_sound, opened, counts_on, own_refusal, opened_answer};
ghost use Rattle.query.specs.Query.{query_answer};

use refusals::{MOST_POINTS, MOST_POLYNOMIALS, Refusal};
use sign_counts::SignCounts;
use signs::{Product, bound, power};

// The number of an opened card that is not refused.
const NOT_REFUSED: u16 = 0;

// An opened card: the number that refuses it, or 0, its s polynomials and n distinct points, and their signs there: in `positive[j]` bit k is set where
// P(j+1) is positive at point k, in `negative[j]` where it is negative. Where both are set it is taken for negative; bits past the first n count for
// nothing.
#[repr(C)]
#[derive(Clone, Copy, Debug, PartialEq, Eq)]
pub struct Opened {
    pub refusal: u16,
    pub s: usize,
    pub n: usize,
    pub positive: [u64; MOST_POLYNOMIALS],
    pub negative: [u64; MOST_POLYNOMIALS],
}

// The points where one polynomial is positive, and those where it is negative, one bit each.
#[derive(Clone, Copy, Debug, PartialEq, Eq)]
struct Signs {
    positive: u64,
    negative: u64,
}

// The signs of polynomial j at the n distinct points, the last one first; `at` begins with their places among the points, which begin at byte from.
fn mark(card: &[u8], j: usize, from: usize, at: &[u8; MOST_POINTS], n: usize) -> Signs
    requires { Sound card.now × (j < polynomials card.now) × (from ≡ points_at card.now) × Placed card.now at.now n }
    ensures { (result.positive ≡ sign_word (contents_of card.now) 1 j) × (result.negative ≡ sign_word (contents_of card.now) 2 j) }
{
    let p = card_signs::coefficients(card, j);
    let mut positive: u64 = 0;
    let mut negative: u64 = 0;
    for k in (0..n).rev() {
        let d = card_signs::sign(card, j, &p, from, usize::from(at[k]));
        positive = 2 * positive + signs::bit(d, 1) as u64;
        negative = 2 * negative + signs::bit(d, 2) as u64;
    }
    Signs { positive, negative }
}

// A sound card of s polynomials and n points, opened: each distinct point once.
fn open_sound(card: &[u8], s: usize, n: usize) -> Opened
    requires { Sound card.now × (s ≡ polynomials card.now) × (n ≡ point_count card.now) }
    ensures { result ≡ opened_sound (contents_of card.now) }
{
    let from = layout::offset(card, s);
    let places = card_points::distinct_points(card, from, n);
    let mut positive = [0u64; MOST_POLYNOMIALS];
    let mut negative = [0u64; MOST_POLYNOMIALS];
    for j in 0..s {
        let signs = mark(card, j, from, &places.at, places.n);
        positive[j] = signs.positive;
        negative[j] = signs.negative;
    }
    Opened {
        refusal: NOT_REFUSED,
        s,
        n: places.n,
        positive,
        negative,
    }
}

// Opens a card: checks it and works out the signs of its polynomials at its distinct points, once. A refused card has its number, no polynomials and no
// points.
pub fn open(card: &[u8]) -> Opened
    ensures { result ≡ opened card.now }
{
    match card::read(card) {
        Ok(shape) => open_sound(card, shape.polynomials, shape.points),
        Err(refusal) => Opened {
            refusal: refusal.number(),
            s: 0,
            n: 0,
            positive: [0u64; MOST_POLYNOMIALS],
            negative: [0u64; MOST_POLYNOMIALS],
        },
    }
}

// The first n points, one bit each.
fn first_points(n: usize) -> u64
    requires { n ≤ most_points }
    ensures { result ≡ 2 ^ n - 1 }
{
    if n < MOST_POINTS {
        (1 << n) - 1
    } else {
        u64::MAX
    }
}

// The three counts of a product over n points by two words: − at the odd ones of the points left, + at the others, and 0 at the points that are not left.
fn counts_by(n: usize, left: u64, odd: u64) -> SignCounts
    requires { (n ≤ most_points) × (left < 2 ^ n) }
    ensures { result ≡ record { positive = ones left - ones (bit_and left odd); negative = ones (bit_and left odd); zero = n - ones left } }
{
    let some = left.count_ones() as usize;
    let odds = (left & odd).count_ones() as usize;
    SignCounts {
        positive: (some - odds) as u16,
        negative: odds as u16,
        zero: (n - some) as u16,
    }
}

// The three counts of the product a over the points of an opened card: all points at once, polynomial by polynomial, the last one first.
pub fn count(card: Opened, a: u16) -> SignCounts
    requires { (card.s ≤ most_polynomials) × (card.n ≤ most_points) × (a < 3 ^ card.s) }
    ensures { result ≡ counts_on card a }
{
    let mut left = first_points(card.n);
    let mut odd: u64 = 0;
    let mut rest = a;
    for j in (0..card.s).rev() {
        let w = power(j);
        if w <= rest {
            let negative = card.negative[j];
            left &= card.positive[j] | negative;
            rest -= w;
            if w <= rest {
                rest -= w;
            } else {
                odd ^= negative;
            }
        }
    }
    counts_by(card.n, left, odd)
}

// The refusal of an opened card with this number that is not 0: the one that has it, and 3 where it is no card's.
fn refusal_by(number: u16) -> Refusal
    ensures { result ≡ by_number (cond (is_among number card_numbers) number wrong_count) }
{
    if refusals::is_card_number(number) {
        Refusal::try_from(number).unwrap_or(Refusal::WrongCount)
    } else {
        Refusal::WrongCount
    }
}

// Why an opened card is refused whatever the product is: by its own refusal, and by 3 where `open` could not have left it, by its number, s or n.
pub fn check_opened(card: Opened) -> Result<(), Refusal>
    ensures { result ≡ checked (own_refusal card) }
{
    if card.refusal != NOT_REFUSED {
        return Err(refusal_by(card.refusal));
    }
    if !(1..=MOST_POLYNOMIALS).contains(&card.s) || MOST_POINTS < card.n {
        return Err(Refusal::WrongCount);
    }
    Ok(())
}

// The query of a product on an opened card: its three counts. What refuses the card comes first, then 13 for a product number above 3^s − 1.
pub fn ask(card: Opened, a: Product) -> Result<SignCounts, Refusal>
    ensures { result ≡ opened_answer card a.0 }
{
    check_opened(card)?;
    if bound(card.s) <= a.0 {
        return Err(Refusal::WrongProduct);
    }
    Ok(count(card, a.0))
}

// The query of a product on a card, in one call: what refuses the card, then 13 for a product number above 3^s − 1, else its three counts. No polynomial is
// evaluated before both are tested.
pub fn query(card: &[u8], a: Product) -> Result<SignCounts, Refusal>
    ensures { result ≡ query_answer card.now a.0 }
{
    let shape = card::read(card)?;
    if bound(shape.polynomials) <= a.0 {
        return Err(Refusal::WrongProduct);
    }
    Ok(count(open_sound(card, shape.polynomials, shape.points), a.0))
}
