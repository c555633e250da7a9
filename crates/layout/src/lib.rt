// The numbers that stand on a card (document 01, "The card"), read off its bytes, and the coefficients of its polynomials. Each call asks that the
// bytes it reads are there; the crate `card` checks a whole card. Bodies and points are those of the line: the crate `plane` has those of the plane.
#![tactic(auto)]

ghost use Rattle.std.specs.Prelude.{◌≡◌, ◌+◌, ◌*◌, ◌^◌, ◌≤◌, ◌<◌, length};
ghost use Rattle.refusals.specs.Limits.{most_coefficient};
ghost use Rattle.integers.specs.Search.{outside};
ghost use Rattle.layout.specs.Body.{Whole};
ghost use Rattle.layout.specs.Values.{coefficients};
ghost use Rattle.layout.specs.Format.{bodies_at, offset, size, word, coefficient, point, two's};

use polynomials::MOST_COEFFICIENTS;
use refusals::MOST_COEFFICIENT;

// The byte where the first body begins, after s + 1 offsets.
pub fn bodies_at(card: &[u8]) -> usize
    requires { 2 ≤ length card.now }
    ensures { result ≡ bodies_at card.now }
{
    4 + 2 * (usize::from(card[1]) + 1)
}

// Offset j of the contents.
pub fn offset(card: &[u8], j: usize) -> usize
    requires { 6 + 2 * j ≤ length card.now }
    ensures { result ≡ offset card.now j }
{
    usize::from(u16::from_be_bytes([card[4 + 2 * j], card[5 + 2 * j]]))
}

// The four bytes from byte i on, high byte first.
pub fn word(card: &[u8], i: usize) -> u32
    requires { i + 4 ≤ length card.now }
    ensures { result ≡ word card.now i }
{
    u32::from_be_bytes([card[i], card[i + 1], card[i + 2], card[i + 3]])
}

// How many bytes the body of the polynomial that begins at byte at has.
pub fn size(card: &[u8], at: usize) -> usize
    requires { at < length card.now }
    ensures { result ≡ size card.now at }
{
    1 + 4 * (usize::from(card[at]) + 1)
}

// The number that the four bytes from byte i on stand for in two's complement, high byte first.
pub fn number(card: &[u8], i: usize) -> i64
    requires { i + 4 ≤ length card.now }
    ensures { result ≡ two's (2 ^ 31) (word card.now i) }
{
    i64::from(word(card, i).cast_signed())
}

// A coefficient outside its limits, by its four bytes.
pub fn too_large(word: u32) -> bool
    ensures { result ≡ outside most_coefficient (two's (2 ^ 31) word) }
{
    MOST_COEFFICIENT < word.cast_signed().unsigned_abs()
}

// The coefficient of X^i of the polynomial that begins at byte at.
pub fn coefficient(card: &[u8], at: usize, i: usize) -> i64
    requires { at + (5 + 4 * i) ≤ length card.now }
    ensures { result ≡ coefficient card.now at i }
{
    number(card, at + 1 + 4 * i)
}

// The coefficients of the polynomial that begins at byte at, from the constant up, and 0 above its degree.
pub fn coefficients(card: &[u8], at: usize) -> [i64; MOST_COEFFICIENTS]
    requires { Whole card.now at }
    ensures { result ≡ coefficients card.now at }
{
    let mut p = [0i64; MOST_COEFFICIENTS];
    for i in 0..=usize::from(card[at]) {
        p[i] = coefficient(card, at, i);
    }
    p
}

// Point k of the points that begin at byte at.
pub fn point(card: &[u8], at: usize, k: usize) -> i64
    requires { at + k < length card.now }
    ensures { result ≡ point card.now at k }
{
    i64::from(card[at + k].cast_signed())
}
