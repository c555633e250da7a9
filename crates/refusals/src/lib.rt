// Why a call refuses, each cause with its number (document 01, "Cause, and what the caller gets"; from 16 on, document 02), and the limits of a card and
// of a run.
#![tactic(auto)]

ghost use Rattle.std.specs.Prelude.{◌≡◌};
ghost use Rattle.refusals.specs.Numbers.{is_among, card_numbers};
ghost use Rattle.refusals.specs.Refusals.{number_of, Decodes};

use std::error::Error;
use std::fmt;

// ---- why a call refuses

// Why a call refuses, and the number that a caller gets.
#[derive(Clone, Copy, Debug, PartialEq, Eq)]
pub enum Refusal {
    WrongLength = 1, // the card is shorter or longer than it says, or a list of coefficients is not as long as the degrees say
    WrongByte = 2, // byte 0 or byte 3 is wrong
    WrongCount = 3, // s or n is outside its limits
    WrongOffset = 4, // an offset is other than the place its body begins
    WrongCoefficient = 5, // a coefficient is outside its limits
    WrongPoint = 6, // a point is outside its limits or falling
    Late = 7, // an answer after done or closed; rows wanted before done or after closed
    BadFirst = 8, // the first answer is below 0 or above 64
    BadLater = 9, // a later answer is outside −n .. n
    NoCounts = 10, // a round's answers fit no counts
    WrongList = 11, // the solver's list is not rising, too long, or not of s polynomials, or there are not as many numbers
    NoSolution = 12, // the solver's numbers have no solution
    WrongProduct = 13, // the product number is above 3^s − 1
    PastLast = 14, // the position is past the last polynomial or row
    TooShort = 15, // an output slice is too short
    WrongDegree = 16, // a degree is above 6
    ZeroTop = 17, // the top coefficient is 0 though the degree is not
    WrongTerms = 18, // of a polynomial in the plane: over 9 terms, powers above 6 together, terms that do not rise, or a coefficient of 0
}

// A number that refuses nothing.
#[derive(Clone, Copy, Debug, PartialEq, Eq)]
pub struct UnknownNumber(pub u16);

impl Refusal {
    // The number that a caller gets.
    pub fn number(self) -> u16
        ensures { result ≡ number_of self }
    {
        self as u16
    }
}

impl TryFrom<u16> for Refusal {
    type Error = UnknownNumber;

    ghost try_from_gives = { Decodes };

    fn try_from(number: u16) -> Result<Self, UnknownNumber> {
        match number {
            1 => Ok(Refusal::WrongLength),
            2 => Ok(Refusal::WrongByte),
            3 => Ok(Refusal::WrongCount),
            4 => Ok(Refusal::WrongOffset),
            5 => Ok(Refusal::WrongCoefficient),
            6 => Ok(Refusal::WrongPoint),
            7 => Ok(Refusal::Late),
            8 => Ok(Refusal::BadFirst),
            9 => Ok(Refusal::BadLater),
            10 => Ok(Refusal::NoCounts),
            11 => Ok(Refusal::WrongList),
            12 => Ok(Refusal::NoSolution),
            13 => Ok(Refusal::WrongProduct),
            14 => Ok(Refusal::PastLast),
            15 => Ok(Refusal::TooShort),
            16 => Ok(Refusal::WrongDegree),
            17 => Ok(Refusal::ZeroTop),
            18 => Ok(Refusal::WrongTerms),
            _ => Err(UnknownNumber(number)),
        }
    }
}

// A refusal is printed as its number.
impl fmt::Display for Refusal {
    fn fmt<W: fmt::Write>(&self, f: &mut fmt::Formatter<W>) -> fmt::Result {
        write!(f, "{}", self.number())
    }
}

impl fmt::Display for UnknownNumber {
    fn fmt<W: fmt::Write>(&self, f: &mut fmt::Formatter<W>) -> fmt::Result {
        write!(f, "no refusal has the number {}", self.0)
    }
}

impl Error for Refusal {}

impl Error for UnknownNumber {}

// ---- the limits

pub const MOST_POLYNOMIALS: usize = 8;

pub const MOST_POINTS: usize = 64;

pub const MOST_DEGREE: usize = 6; // in the plane, of both powers together

pub const MOST_TERMS: usize = 9; // of a polynomial in the plane

pub const MOST_COEFFICIENT: u32 = 1000000; // from minus this to this

pub const MOST_POINT: u8 = 100; // from minus this to this

pub const MOST_ROWS: usize = MOST_POINTS; // of a run: each has a point

pub const MOST_PRODUCTS: usize = 2 * MOST_ROWS; // of a round

pub const MOST_QUESTIONS: usize = 593; // of a done run

pub const LONGEST_LINE_CARD: usize = 4 // the header
    + 2 * (MOST_POLYNOMIALS + 1) // the offsets
    + MOST_POLYNOMIALS * (1 + 4 * (MOST_DEGREE + 1)) // the bodies
    + MOST_POINTS;

pub const LONGEST_CARD: usize = 4 // of either kind: a card of points in the plane
    + 2 * (MOST_POLYNOMIALS + 1)
    + MOST_POLYNOMIALS * (1 + 6 * MOST_TERMS)
    + 2 * MOST_POINTS;

// The numbers that refuse a card.
const CARD_NUMBERS: [u16; 9] = [
    Refusal::WrongLength as u16,
    Refusal::WrongByte as u16,
    Refusal::WrongCount as u16,
    Refusal::WrongOffset as u16,
    Refusal::WrongCoefficient as u16,
    Refusal::WrongPoint as u16,
    Refusal::WrongDegree as u16,
    Refusal::ZeroTop as u16,
    Refusal::WrongTerms as u16,
];

// Whether this is one of the numbers that refuse a card.
pub fn is_card_number(k: u16) -> bool
    ensures { result ≡ is_among k card_numbers }
{
    CARD_NUMBERS.contains(&k)
}
