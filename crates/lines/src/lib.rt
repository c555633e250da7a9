// The lines of a printout (document 01, "One card through") as bytes. The four lines have no condition; what serves the crates above may have one.
#![tactic(auto)]

ghost use Rattle.std.specs.Prelude.{◌≡◌, [], ◌∷◌, ◌++◌, ◌+◌, ◌≤◌, ◌<◌, length, replicate};
ghost use Rattle.std.specs.Fn.{FnOnceReturnsAtMut};
ghost use Rattle.std.proofs.Math.Seq.{paste};
ghost use Rattle.lines.specs.Text.{newline, space, digit, line_room, longest_line, decimal, signed, text_of, question_line, row_line, end_line, refusal_line};
ghost use Rattle.lines.specs.Put.{Put, PutLine};

use signs::{Pattern, Product};

// The bytes of the longest line: `Q 65535 -9223372036854775808` and a newline.
pub const LONGEST_LINE: usize = 29;

// The room of a line. An E line with nine numbers more has at most 77 bytes: a letter, a space, 20 digits, nine times a space and at most 5 digits, and a
// newline.
pub const LINE_ROOM: usize = 80;

// The most digits of a 64-bit number.
const MOST_DIGITS: usize = 20;

// A line: its text is the front `length` bytes.
#[derive(Clone, Copy, Debug, PartialEq, Eq)]
pub struct Line {
    pub bytes: [u8; LINE_ROOM],
    pub length: usize,
}

// The line with no byte.
pub fn empty_line() -> Line
    ensures { (text_of result ≡ []) × (result.length ≡ 0) }
{
    Line {
        bytes: [0u8; LINE_ROOM],
        length: 0,
    }
}

// Writes the text to out, from byte `at` on.
pub fn copy_at(text: &[u8], out: &mut [u8], at: usize)
    requires { at + length text.now ≤ length out.old }
    ensures { out.new ≡ paste out.old at text.now (length text.now) }
{
    out[at..at + text.len()].copy_from_slice(text);
}

// Writes one byte at `at`. This, and each call below, returns where its text ends.
fn put_byte(out: &mut [u8], at: usize, b: u8) -> usize
    requires { at < length out.old }
    ensures { Put out.old at (b ∷ []) out.new result }
{
    out[at] = b;
    at + 1
}

// A digit.
fn put_digit(out: &mut [u8], at: usize, d: u64) -> usize
    requires { (at < length out.old) × (d < 10) }
    ensures { Put out.old at (digit d ∷ []) out.new result }
{
    put_byte(out, at, b'0' + d as u8)
}

// A number of one or two digits.
fn put_short(out: &mut [u8], at: usize, n: u64) -> usize
    requires { (at + length (decimal n) ≤ length out.old) × (n < 100) }
    ensures { Put out.old at (decimal n) out.new result }
{
    if n < 10 {
        return put_digit(out, at, n);
    }
    let k = put_digit(out, at, n / 10);
    put_digit(out, k, n % 10)
}

// A number of any length.
fn put_long(out: &mut [u8], at: usize, n: u64) -> usize
    requires { at + length (decimal n) ≤ length out.old }
    ensures { Put out.old at (decimal n) out.new result }
{
    let mut text = [0u8; MOST_DIGITS];
    let k = io::decimal(n, &mut text);
    copy_at(&text[..k], out, at);
    at + k
}

// A number.
fn put_natural(out: &mut [u8], at: usize, n: u64) -> usize
    requires { at + length (decimal n) ≤ length out.old }
    ensures { Put out.old at (decimal n) out.new result }
{
    match n {
        0..=99 => put_short(out, at, n),
        100..=9999 => {
            let tens = n / 10;
            let j = put_short(out, at, tens / 10);
            let k = put_digit(out, j, tens % 10);
            put_digit(out, k, n % 10)
        }
        _ => put_long(out, at, n),
    }
}

// An integer: a minus sign before a negative one.
fn put_integer(out: &mut [u8], at: usize, z: i64) -> usize
    requires { at + length (signed z) ≤ length out.old }
    ensures { Put out.old at (signed z) out.new result }
{
    if z < 0 {
        let k = put_byte(out, at, b'-');
        return put_natural(out, k, z.unsigned_abs());
    }
    put_natural(out, at, z.unsigned_abs())
}

// A letter and a number.
fn put_letter(out: &mut [u8], at: usize, letter: u8, n: u64) -> usize
    requires { at + 2 + length (decimal n) ≤ length out.old }
    ensures { Put out.old at (letter ∷ space ∷ decimal n) out.new result }
{
    let j = put_byte(out, at, letter);
    let k = put_byte(out, j, b' ');
    put_natural(out, k, n)
}

// A whole line of a letter and a number.
fn put_last(out: &mut [u8], at: usize, letter: u8, n: u64) -> usize
    requires { at + longest_line ≤ length out.old }
    ensures { PutLine out.old at ((letter ∷ space ∷ decimal n) ++ (newline ∷ [])) out.new result }
{
    let end = put_letter(out, at, letter, n);
    put_byte(out, end, b'\n')
}

// The line of a question: `Q`, the product and its query.
pub fn put_question(out: &mut [u8], at: usize, product: u16, answer: i64) -> usize
    requires { at + longest_line ≤ length out.old }
    ensures { PutLine out.old at (question_line product answer) out.new result }
{
    let i = put_letter(out, at, b'Q', u64::from(product));
    let j = put_byte(out, i, b' ');
    let k = put_integer(out, j, answer);
    put_byte(out, k, b'\n')
}

// The line of a row: `S`, the pattern and the number of points that have it.
pub fn put_row(out: &mut [u8], at: usize, pattern: u16, count: u16) -> usize
    requires { at + longest_line ≤ length out.old }
    ensures { PutLine out.old at (row_line pattern count) out.new result }
{
    let j = put_letter(out, at, b'S', u64::from(pattern));
    let k = put_byte(out, j, b' ');
    let m = put_natural(out, k, u64::from(count));
    put_byte(out, m, b'\n')
}

// The last line: `E` and the number of questions.
pub fn put_end(out: &mut [u8], at: usize, questions: usize) -> usize
    requires { at + longest_line ≤ length out.old }
    ensures { PutLine out.old at (end_line questions) out.new result }
{
    put_last(out, at, b'E', questions as u64)
}

// The line of a refusal: `R` and its number.
pub fn put_refusal(out: &mut [u8], at: usize, number: u16) -> usize
    requires { at + longest_line ≤ length out.old }
    ensures { PutLine out.old at (refusal_line number) out.new result }
{
    put_last(out, at, b'R', u64::from(number))
}

// A line of its own: `put` writes its text to the front of the bytes, and returns where it ends.
fn line_by<F: FnOnce(&mut [u8]) -> usize>(put: F) -> Line
    requires { (out : _) → length out.now ≡ line_room → F.pre put out }
    ensures { FnOnceReturnsAtMut F.FnOnce put (replicate line_room 0) result.length result.bytes }
{
    let mut bytes = [0u8; LINE_ROOM];
    let length = put(&mut bytes);
    Line { bytes, length }
}

// The same four as lines of their own.
pub fn question_line(product: Product, answer: i64) -> Line
    ensures { (text_of result ≡ question_line product.0 answer) × (result.length ≤ line_room) }
{
    line_by(|out| put_question(out, 0, product.0, answer))
}

pub fn row_line(pattern: Pattern, count: u16) -> Line
    ensures { (text_of result ≡ row_line pattern.0 count) × (result.length ≤ line_room) }
{
    line_by(|out| put_row(out, 0, pattern.0, count))
}

pub fn end_line(questions: usize) -> Line
    ensures { (text_of result ≡ end_line questions) × (result.length ≤ line_room) }
{
    line_by(|out| put_end(out, 0, questions))
}

pub fn refusal_line(number: u16) -> Line
    ensures { (text_of result ≡ refusal_line number) × (result.length ≤ line_room) }
{
    line_by(|out| put_refusal(out, 0, number))
}
