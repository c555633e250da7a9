// A list of products in one go (document 02, wish 5): as many panel numbers, in the list's order, written to a lent slice. The card is checked first,
// then the slice, then the products.
#![tactic(auto)]

ghost use Rattle.std.specs.Prelude.{◌≡◌, ◌^◌, ◌≤◌, ◌<◌, None, MatchOption, length};
ghost use Rattle.refusals.specs.Limits.{most_polynomials, most_points};
ghost use Rattle.signs.specs.Lists.{Below};
ghost use Rattle.query.specs.Opened.{summed, own_refusal};
ghost use Rattle.query_list.specs.Listing.{first_bad, numbers_put, card_listing, opened_listing};

use query::Opened;
use refusals::Refusal;
use sign_counts::panel_number;
use signs::bound;

// Why no number is written; for a bad product also its position in the list, from 0.
#[derive(Clone, Copy, Debug, PartialEq, Eq)]
pub struct ListRefusal {
    pub refusal: Refusal,
    pub position: Option<usize>,
}

impl From<Refusal> for ListRefusal {
    ghost from_gives = { λ e r. r ≡ record { refusal = e; position = None } };

    fn from(refusal: Refusal) -> ListRefusal {
        ListRefusal {
            refusal,
            position: None,
        }
    }
}

// The position of the first number that is m or above.
fn first_bad(l: &[u16], m: u16) -> Option<usize>
    ensures { MatchOption result (length l.now ≤ first_bad m l.now) (λ p. (p ≡ first_bad m l.now) × (p < length l.now)) }
{
    l.iter().position(|a| m <= *a)
}

// The panel number of a product that the opened card has.
fn number(card: Opened, a: u16) -> i64
    requires { (card.s ≤ most_polynomials) × (card.n ≤ most_points) × (a < 3 ^ card.s) }
    ensures { result ≡ summed card a }
{
    panel_number(query::count(card, a))
}

// Writes the panel numbers of the products to the front of out.
fn put_numbers(card: Opened, products: &[u16], out: &mut [i64])
    requires { (own_refusal card ≡ 0) × Below (3 ^ card.s) products.now × (length products.now ≤ length out.old) }
    ensures { out.new ≡ numbers_put (summed card) products.now out.old }
{
    for (k, a) in products.iter().enumerate() {
        out[k] = number(card, *a);
    }
}

// Writes to the front of out the panel numbers of the products on an opened card, in the list's order. Refused, in this order: by what refuses any query
// on the card; by 15 where out is shorter than the list; by 13 with the position of the first product above 3^s − 1. A refusal leaves out as it was, and
// past the numbers out keeps what lay there.
pub fn ask_all(card: Opened, products: &[u16], out: &mut [i64]) -> Result<(), ListRefusal>
    ensures { (result, out.new) ≡ opened_listing card products.now out.old }
{
    query::check_opened(card)?;
    if out.len() < products.len() {
        return Err(ListRefusal::from(Refusal::TooShort));
    }
    if let Some(position) = first_bad(products, bound(card.s)) {
        return Err(ListRefusal {
            refusal: Refusal::WrongProduct,
            position: Some(position),
        });
    }
    put_numbers(card, products, out);
    Ok(())
}

// The same on a card: it is opened once, and then each product is asked.
pub fn query_all(card: &[u8], products: &[u16], out: &mut [i64]) -> Result<(), ListRefusal>
    ensures { (result, out.new) ≡ card_listing card.now products.now out.old }
{
    ask_all(query::open(card), products, out)
}
