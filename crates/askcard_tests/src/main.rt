// Reads the cards of the file that the first argument names, each after its length in two bytes, and writes the printout of each, then what a slice of
// one byte gets: `X`, the number that refuses it and the byte, as it was.
#![tactic(auto)]

ghost use Rattle.std.specs.Prelude.{◌+◌, ◌≤◌, ◌<◌, length, IfOk};

use printout::MOST_TEXT;
use std::io;
use std::io::Write;
use test_input::pair;

fn print_whole(out: &mut impl Write, card: &[u8]) -> io::Result<()> {
    let mut text = [0u8; MOST_TEXT];
    match printout::printout(card, &mut text) {
        Ok(n) => {
            if n <= MOST_TEXT {
                out.write_all(&text[..n])?;
            }
            Ok(())
        }
        Err(refusal) => write!(out, " {refusal}"),
    }
}

fn print_short(out: &mut impl Write, card: &[u8]) -> io::Result<()> {
    let mut text = [7u8; 1];
    match printout::printout(card, &mut text) {
        Ok(n) => writeln!(out, " {n}"),
        Err(refusal) => writeln!(out, "X {refusal} {}", text[0]),
    }
}

fn print_card(out: &mut impl Write, card: &[u8]) -> io::Result<()> {
    print_whole(out, card)?;
    print_short(out, card)
}

// Writes what the card at a place gets, and returns the place after it: the end of the file where the card is cut short.
fn print_record(out: &mut impl Write, file: &[u8], at: usize) -> io::Result<usize>
    requires { at + 2 ≤ length file.now }
    ensures { IfOk result (λ end. (at < end) × (end ≤ length file.now)) }
{
    let from = at + 2;
    let to = from + pair(file, at);
    if file.len() < to {
        return Ok(file.len());
    }
    print_card(out, &file[from..to])?;
    Ok(to)
}

fn print_cards(out: &mut impl Write, file: &[u8]) -> io::Result<()> {
    let mut at = 0;
    while 2 <= file.len() - at {
        at = print_record(out, file, at)?;
    }
    Ok(())
}

fn main(rt: HostRuntime) -> io::Result<()> {
    let mut file = [0u8; test_input::ROOM];
    let n = test_input::read_argument(&rt, 1, &mut file);
    print_cards(&mut io::writer(&rt), &file[..n])
}
