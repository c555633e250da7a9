// Writes a card from degrees, coefficients and points (document 02, wish 2). The checks are in `card_checks`, the bytes in `bytes`.
#![tactic(auto)]

mod bytes;

ghost use Rattle.std.specs.Prelude.{◌≡◌};
ghost use Rattle.card_writer.specs.Writing.{writing};

use refusals::Refusal;

// Writes to the front of out the card of polynomials of these degrees, whose coefficients stand in one list, P1 first and constant first, and of these
// points. Refused, in this order: not 1 to 8 degrees, or more than 64 points (3); a degree above 6 (16); not as many coefficients as the degrees say (1);
// polynomial by polynomial, a coefficient outside its limits (5), then a top coefficient of 0 though the degree is not (17); a point outside its limits or
// below the one before it (6); out shorter than the card (15). A refusal leaves out as it was, and past the card out keeps what lay there.
pub fn write(
    degrees: &[usize],
    coefficients: &[i64],
    points: &[i64],
    out: &mut [u8],
) -> Result<usize, Refusal>
    ensures value { result ≡ (writing degrees.now coefficients.now points.now out.old).0 }
    ensures out_after { out.new ≡ (writing degrees.now coefficients.now points.now out.old).1 }
{
    card_checks::check(degrees, coefficients, points)?;
    let length = bytes::card_length(degrees.len(), coefficients.len(), points.len());
    if out.len() < length {
        return Err(Refusal::TooShort);
    }
    bytes::put_card(degrees, coefficients, points, out);
    Ok(length)
}
