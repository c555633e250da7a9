// Reads the calls of the file that the first argument names, makes each, and writes a line for it: the card's length or R and the number that refuses, and
// the whole buffer after it.
//
// The file is one record after the other. A record begins with what it is (0: a card is written; 1: one is drawn) and with how many bytes of a buffer are
// lent. Of a draw follow the seed, s, n and d; of a card that is written, how many degrees, coefficients and points there are, and then these. Every number
// has eight bytes, high byte first, in two's complement.
#![tactic(auto)]

ghost use Rattle.std.specs.Prelude.{◌≤◌, ◌<◌, length, IfOk};

use refusals::Refusal;
use std::io;
use std::io::Write;

// How many degrees, coefficients or points a call has at most, and the room for a buffer.
const MOST_NUMBERS: usize = 128;

const MOST_ROOM: usize = 1024;

// ---- numbers off the file

// The number at a place, by its bits; 0 where the file is cut short.
fn word(file: &[u8], at: usize) -> u64 {
    match file.get(at..) {
        Some([a, b, c, d, e, f, g, h, ..]) => u64::from_be_bytes([*a, *b, *c, *d, *e, *f, *g, *h]),
        _ => 0,
    }
}

// A number, or the limit where it is above that.
fn least(v: u64, limit: usize) -> usize
    ensures { result ≤ limit }
{
    v.min(limit as u64) as usize
}

// The place n numbers after another, or the end of the file.
fn after(file: &[u8], at: usize, n: usize) -> usize
    requires { n ≤ 1024 }
    ensures { result ≤ length file.now }
{
    at.saturating_add(8 * n).min(file.len())
}

// Puts the numbers from a place on into out, each as `number` makes it of its bits.
fn read_numbers<T: Copy, F: Fn(u64) -> T>(file: &[u8], at: usize, out: &mut [T], number: F)
    requires { F.IsAlwaysCallable number }
{
    let mut place = at;
    for x in out {
        *x = number(word(file, place));
        place = after(file, place, 1);
    }
}

// ---- what is written

// A digit to the base 16.
fn hexadecimal(d: u8) -> u8
    requires { d < 16 }
{
    if d < 10 { b'0' + d } else { b'a' + (d - 10) }
}

// Each byte in one write: a text made by `write!` goes out in parts.
fn print_bytes(out: &mut impl Write, bytes: &[u8]) -> io::Result<()> {
    for b in bytes {
        out.write_all(&[hexadecimal(*b / 16), hexadecimal(*b % 16)])?;
    }
    Ok(())
}

fn print_answer(out: &mut impl Write, answer: Result<usize, Refusal>) -> io::Result<()> {
    match answer {
        Ok(length) => write!(out, "{length} "),
        Err(refusal) => write!(out, "R{refusal} "),
    }
}

// A buffer's first contents, so that what a call leaves of them shows.
fn fill(card: &mut [u8]) {
    for (k, b) in card.iter_mut().enumerate() {
        *b = (k % 251) as u8;
    }
}

// ---- the calls

// Draws a card into the buffer.
fn draw_at(out: &mut impl Write, file: &[u8], at: usize, card: &mut [u8]) -> io::Result<()> {
    let seed = word(file, at) % 4294967296;
    let s = word(file, after(file, at, 1)) as usize;
    let n = word(file, after(file, at, 2)) as usize;
    let d = word(file, after(file, at, 3)) as usize;
    print_answer(out, card_draw::draw(seed as u32, s, n, d, card))
}

// Writes a card of so many degrees, coefficients and points into the buffer.
fn write_at(
    out: &mut impl Write,
    file: &[u8],
    at: usize,
    s: usize,
    m: usize,
    n: usize,
    card: &mut [u8],
) -> io::Result<()>
    requires { (s ≤ 128) × (m ≤ 128) × (n ≤ 128) }
{
    let mut degrees = [0usize; MOST_NUMBERS];
    let mut coefficients = [0i64; MOST_NUMBERS];
    let mut points = [0i64; MOST_NUMBERS];
    read_numbers(file, at, &mut degrees[..s], |bits| bits as usize);
    read_numbers(
        file,
        after(file, at, s),
        &mut coefficients[..m],
        |bits| bits.cast_signed(),
    );
    read_numbers(
        file,
        after(file, at, s + m),
        &mut points[..n],
        |bits| bits.cast_signed(),
    );
    print_answer(
        out,
        card_writer::write(&degrees[..s], &coefficients[..m], &points[..n], card),
    )
}

// The record at a place. Returns the place after it.
fn call_at(out: &mut impl Write, file: &[u8], at: usize, card: &mut [u8]) -> io::Result<usize>
    ensures { IfOk result (λ end. end ≤ length file.now) }
{
    fill(card);
    let from = after(file, at, 2);
    if word(file, at) == 1 {
        draw_at(out, file, from, card)?;
        return Ok(after(file, at, 6));
    }
    let s = least(word(file, from), MOST_NUMBERS);
    let m = least(word(file, after(file, at, 3)), MOST_NUMBERS);
    let n = least(word(file, after(file, at, 4)), MOST_NUMBERS);
    write_at(out, file, after(file, at, 5), s, m, n, card)?;
    Ok(after(file, at, 5 + s + m + n))
}

// Makes the call at a place, with a buffer as long as it says. Returns the place after it.
fn answer_at(out: &mut impl Write, file: &[u8], at: usize) -> io::Result<usize>
    ensures { IfOk result (λ end. end ≤ length file.now) }
{
    let mut card = [0u8; MOST_ROOM];
    let room = least(word(file, after(file, at, 1)), MOST_ROOM);
    let end = call_at(out, file, at, &mut card[..room])?;
    print_bytes(out, &card[..room])?;
    writeln!(out)?;
    Ok(end)
}

// Makes the calls one after the other, until one ends where it began.
fn answer_all(out: &mut impl Write, file: &[u8]) -> io::Result<()> {
    let mut at = 0;
    while at < file.len() {
        let end = answer_at(out, file, at)?;
        if end <= at {
            break;
        }
        at = end;
    }
    Ok(())
}

fn main(rt: HostRuntime) -> io::Result<()> {
    let mut file = [0u8; test_input::ROOM];
    let n = test_input::read_argument(&rt, 1, &mut file);
    answer_all(&mut io::writer(&rt), &file[..n])
}
