// Reads the cards of the file that the first argument names and writes what each call answers: a line for the card, then one for each position up to
// the first past the last polynomial (of a refused card, position 0 alone), then one for each product.
//
// The file is one record after the other: the card's length and the number of products, two bytes each, then the card, then the products, two
// bytes each. Numbers have the high byte first.
#![tactic(auto)]

ghost use Rattle.std.specs.Prelude.{◌+◌, ◌≤◌, ◌<◌, length, IfOk};

use card::Stretch;
use refusals::Refusal;
use sign_counts::SignCounts;
use signs::Product;
use std::io;
use std::io::Write;
use test_input::pair;

// The bytes of a body as the digits of a number to the base 31, modulo 65,521, so that a wrong stretch shows.
fn weight(bytes: &[u8]) -> usize {
    let mut sum = 0;
    for byte in bytes {
        sum = (sum * 31 + usize::from(*byte)) % 65521;
    }
    sum
}

// Where the body stands, or the number that refuses the card or the position.
fn print_place(out: &mut impl Write, card: &[u8], j: usize) -> io::Result<()> {
    match card::locate(card, j) {
        Ok(Stretch { start, len }) => write!(out, "A {start} {len}"),
        Err(refusal) => write!(out, "N {refusal}"),
    }
}

fn print_body(out: &mut impl Write, card: &[u8], j: usize) -> io::Result<()> {
    let bytes = card::body(card, j);
    write!(out, " {} {}", bytes.len(), weight(bytes))
}

// A value, or R and the number that refuses.
fn print_value(out: &mut impl Write, answer: Result<i64, Refusal>) -> io::Result<()> {
    match answer {
        Ok(v) => write!(out, " {v}"),
        Err(refusal) => write!(out, " R {refusal}"),
    }
}

// Where the values on the line are asked for, and those in the plane.
const ABSCISSAS: [i8; 3] = [-128, -1, 100];

const PLACES: [(i64, i64); 4] = [(100, 100), (7, -3), (101, -100), (-100, -101)];

fn print_position(out: &mut impl Write, card: &[u8], j: usize) -> io::Result<()> {
    print_place(out, card, j)?;
    print_body(out, card, j)?;
    for x in ABSCISSAS {
        print_value(out, card::value(card, j, x))?;
    }
    for (x, y) in PLACES {
        print_value(out, card::value_at(card, j, x, y))?;
    }
    writeln!(out)
}

fn print_card(out: &mut impl Write, card: &[u8]) -> io::Result<()> {
    match card::read(card) {
        Ok(shape) => {
            writeln!(out, "S {} {}", shape.polynomials, shape.points)?;
            for j in 0..=shape.polynomials {
                print_position(out, card, j)?;
            }
            Ok(())
        }
        Err(refusal) => {
            writeln!(out, "R {refusal}")?;
            print_position(out, card, 0)
        }
    }
}

// The three counts of a query, and the panel number.
fn print_counts(out: &mut impl Write, counts: SignCounts) -> io::Result<()> {
    let number = sign_counts::panel_number(counts);
    write!(
        out,
        " {} {} {} {number}",
        counts.positive, counts.negative, counts.zero
    )
}

// The answer of a query, or R and the number that refuses it.
fn print_answer(out: &mut impl Write, answer: Result<SignCounts, Refusal>) -> io::Result<()> {
    match answer {
        Ok(counts) => print_counts(out, counts),
        Err(refusal) => write!(out, " R {refusal}"),
    }
}

// The product, and its query on the card in one call and on the opened card.
fn print_query(out: &mut impl Write, card: &[u8], a: u16) -> io::Result<()> {
    write!(out, "Q {a}")?;
    print_answer(out, query::query(card, Product(a)))?;
    print_answer(out, query::ask(query::open(card), Product(a)))?;
    writeln!(out)
}

fn print_queries(out: &mut impl Write, card: &[u8], products: &[u8]) -> io::Result<()> {
    let (products, _) = products.as_chunks::<2>();
    for product in products {
        print_query(out, card, u16::from_be_bytes(*product))?;
    }
    Ok(())
}

// Writes what the calls answer of the record at the front of a file, and returns what follows it: nothing where the record is cut short.
fn print_record<'a>(out: &mut impl Write, file: &'a [u8]) -> io::Result<&'a [u8]>
    requires { 4 ≤ length file.now }
    ensures { IfOk result (λ rest. length rest.now < length file.now) }
{
    let (head, rest) = file.split_at(4);
    let to = pair(head, 0);
    let end = to + 2 * pair(head, 2);
    if rest.len() < end {
        return Ok(&[]);
    }
    let card = &rest[..to];
    print_card(out, card)?;
    print_queries(out, card, &rest[to..end])?;
    Ok(&rest[end..])
}

fn print_cards(out: &mut impl Write, file: &[u8]) -> io::Result<()> {
    let mut rest = file;
    while 4 <= rest.len() {
        rest = print_record(out, rest)?;
    }
    Ok(())
}

fn main(rt: HostRuntime) -> io::Result<()> {
    let mut file = [0u8; test_input::ROOM];
    let n = test_input::read_argument(&rt, 1, &mut file);
    print_cards(&mut io::writer(&rt), &file[..n])
}
