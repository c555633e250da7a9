// What the test programs share: a file that an argument names, and the numbers in it. Nothing is known of what a file holds: past its end every byte
// reads as 0.
#![tactic(auto)]

ghost use Rattle.std.specs.Prelude.{◌≤◌, ◌<◌, length};
ghost use Rattle.io.specs.Counts.{IsPrefixLen};

use std::env::Env;
use std::fs::File;
use std::io::Read;
use std::rt::Files;

// The bytes that a file may take, and one.
pub const ROOM: usize = 65536;

// The bytes that a path may take.
const LONGEST_PATH: usize = 4096;

// Argument i, or the empty text where there is none, or none that names a file: it is longer than a path, or not UTF-8.
fn argument<'a>(rt: &impl Env, i: usize, path: &'a mut [u8]) -> &'a str {
    match rt.arg(i, path) {
        Ok(n) => str::from_utf8(&path[..n]).unwrap_or(""),
        Err(_) => "",
    }
}

// Reads until out is full, the file ends or a read fails, and returns how many bytes it put at the front of out.
fn read_full(file: &mut impl Read, out: &mut [u8]) -> usize
    ensures { IsPrefixLen result out.new }
{
    let mut done = 0;
    while done < out.len() {
        match file.read(&mut out[done..]) {
            Ok(n) if 0 < n => done += n,
            _ => break,
        }
    }
    done
}

// Reads the file that argument i names to the front of out, as much as there is room for, and returns how many bytes that is. Where the file cannot be
// opened, says so on standard error, and reads none.
pub fn read_argument(rt: &(impl Env + Files + Eprint), i: usize, out: &mut [u8]) -> usize
    ensures { IsPrefixLen result out.new }
{
    let mut buffer = [0u8; LONGEST_PATH];
    let path = argument(rt, i, &mut buffer);
    match File::open(rt, path) {
        Ok(mut file) => read_full(&mut file, out),
        Err(error) => {
            let _ = eprintln!(rt; "{path}: {error}");
            0
        }
    }
}

// The bytes from a place on: none past the end.
fn after(file: &[u8], at: usize) -> &[u8] {
    file.get(at..).unwrap_or(&[])
}

// The number in the first two bytes, high byte first.
fn first_pair(bytes: &[u8]) -> u16 {
    match bytes {
        [high, low, ..] => u16::from_be_bytes([*high, *low]),
        [high] => u16::from_be_bytes([*high, 0]),
        [] => 0,
    }
}

// The byte at a place.
pub fn byte(file: &[u8], at: usize) -> usize
    ensures { result < 256 }
{
    file.get(at).map_or(0, |x| usize::from(*x))
}

// The number in the two bytes at a place, high byte first.
pub fn pair(file: &[u8], at: usize) -> usize
    ensures { result < 65536 }
{
    usize::from(first_pair(after(file, at)))
}

// Puts the n numbers of two bytes from a place on into out.
pub fn read_pairs(file: &[u8], at: usize, n: usize, out: &mut [u16])
    requires { n ≤ length out.old }
{
    let mut bytes = after(file, at);
    for number in &mut out[..n] {
        *number = first_pair(bytes);
        bytes = after(bytes, 2);
    }
}

// Whether a list is the n numbers of two bytes from a place on, and `rest` everywhere after them.
pub fn are_pairs(file: &[u8], at: usize, n: usize, rest: u16, list: &[u16]) -> bool {
    let (numbers, others) = list.split_at(n.min(list.len()));
    let mut bytes = after(file, at);
    for number in numbers {
        if *number != first_pair(bytes) {
            return false;
        }
        bytes = after(bytes, 2);
    }
    others.iter().all(|x| *x == rest)
}
