// askcard: reads a card on standard input and writes its printout to standard output (document 01, "One card through").
//
// The text is that of `printout`: this program only reads and writes.
#![tactic(auto)]

ghost use Rattle.std.specs.Prelude.{◌≤◌, length};

use printout::MOST_TEXT;
use refusals::LONGEST_CARD;
use std::io;
use std::io::{Read, Write};

// More bytes than the longest card has: the printout of an input is that of its first 591 bytes or more (`cut_printout` in
// printout/proofs/EachLine.antt), so that nothing further need be read.
const MOST_READ: usize = LONGEST_CARD + 2;

// Reads until out is full, the input ends or a read fails, and returns how many bytes it put at the front of out.
fn read_full(input: &mut impl Read, out: &mut [u8]) -> usize
    ensures { result ≤ length out.new }
{
    let mut done = 0;
    while done < out.len() {
        match input.read(&mut out[done..]) {
            Ok(n) if 0 < n => done += n,
            _ => break,
        }
    }
    done
}

fn main(rt: HostRuntime) -> io::Result<()> {
    let mut card = [0u8; MOST_READ];
    let n = read_full(&mut rt.reader(), &mut card);
    let mut text = [0u8; MOST_TEXT];
    let k = printout::put_lines(&card[..n], &mut text);
    io::writer(&rt).write_all(&text[..k])
}
