// drawcard SEED S N D: writes to standard output the card of S polynomials of degree D and N points that is drawn from a seed (document 02, wish 2).
//
// A refusal, or an argument that is no number, is said on standard error in one line, and nothing goes to standard output. The card is that of
// `card_draw`: this program only reads its arguments and writes.
#![tactic(auto)]

mod numeral;

use numeral::read_numeral;
use refusals::{LONGEST_LINE_CARD, Refusal};
use std::env::{Env, FillError};
use std::io;
use std::io::Write;

// How many arguments there are, the program's own name among them.
const ARGUMENTS: usize = 5;

// The room for an argument. One that is longer is read as none.
const MOST_TEXT: usize = 20;

// Whether there is an argument i.
fn is_given(rt: &impl Env, i: usize) -> bool {
    let mut text = [0u8; MOST_TEXT];
    !matches!(rt.arg(i, &mut text), Err(FillError::NotPresent))
}

// The number that argument i is.
fn argument(rt: &impl Env, i: usize) -> Option<u32> {
    let mut text = [0u8; MOST_TEXT];
    let n = rt.arg(i, &mut text).ok()?;
    read_numeral(&text[..n])
}

// The seed, s, n and d, if there are just these four arguments.
fn arguments(rt: &impl Env) -> Option<(u32, u32, u32, u32)> {
    if is_given(rt, ARGUMENTS) {
        return None;
    }
    Some((
        argument(rt, 1)?,
        argument(rt, 2)?,
        argument(rt, 3)?,
        argument(rt, 4)?,
    ))
}

fn say_usage(rt: &impl Eprint) -> io::Result<()> {
    eprintln!(rt; "usage: drawcard SEED S N D, each a number in decimal from 0 to 4294967295")
}

fn say_refused(rt: &impl Eprint, refusal: Refusal) -> io::Result<()> {
    eprintln!(rt; "drawcard: refused by {refusal}")
}

// Writes the card, or says why there is none.
fn write_card(rt: &(impl Print + Eprint), seed: u32, s: u32, n: u32, d: u32) -> io::Result<()> {
    let mut card = [0u8; LONGEST_LINE_CARD];
    match card_draw::draw(seed, s as usize, n as usize, d as usize, &mut card) {
        Ok(length) => {
            if length <= LONGEST_LINE_CARD {
                io::writer(rt).write_all(&card[..length])?;
            }
            Ok(())
        }
        Err(refusal) => say_refused(rt, refusal),
    }
}

fn main(rt: HostRuntime) -> io::Result<()> {
    let Some((seed, s, n, d)) = arguments(&rt) else {
        return say_usage(&rt);
    };
    write_card(&rt, seed, s, n, d)
}
