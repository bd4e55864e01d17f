// A refusal, as document 01 has it: its number in the papers' tables and its place. It is the error of every call of the library.
#![tactic(auto)]

ghost use Rattle.std.specs.Prelude.{◌≡◌, Some};
ghost use Rattle.refusal.specs.Meaning.{reason_of, outcome_of};
ghost use Rattle.refusal.specs.Outcome.{accepted, test, reason, word, byte, row};
ghost use Rattle.refusal.specs.Printed.{place_text, refusal_text};

use std::error::Error;
use std::fmt;

// The numbers of document 01, in the order of its table, then those of document 02.
pub const NODE_COUNT: u64 = 1;

pub const GRAMMAR_LENGTH: u64 = 2;

pub const NODE_KIND: u64 = 3;

pub const NODE_CHILDREN: u64 = 4;

pub const CHILD_NUMBER: u64 = 5;

pub const BYTES_TOO_LONG: u64 = 6;

pub const INDEX_PAST_END: u64 = 7;

pub const ROWS_EXHAUSTED: u64 = 8;

pub const BYTES_MISSING: u64 = 9;

pub const TAG_UNKNOWN: u64 = 10;

pub const BYTES_LEFT_OVER: u64 = 11;

pub const ROW_COUNT: u64 = 12;

pub const ROW_MALFORMED: u64 = 13;

pub const ARRAY_OUTSIDE_STORE: u64 = 14;

pub const NOT_IN_GRAMMAR: u64 = 15;

pub const SIZE_TOO_LARGE: u64 = 16;

pub const OUTPUT_TOO_SHORT: u64 = 17;

pub const NOT_AN_ARRAY: u64 = 18;

pub const INPUT_LAYOUT: u64 = 19;

pub const NOT_SIGNED: u64 = 20;

pub const LIST_LAYOUT: u64 = 21;

pub const NO_GRAMMAR_ACCEPTS: u64 = 22;

pub const PADDING_NOT_ZERO: u64 = 23;

// Where a refusal was found: a word of a grammar or of a grammar list, a byte or a row.
#[derive(Clone, Copy, Debug, PartialEq, Eq)]
pub enum Place {
    Word(u64),
    Byte(u64),
    Row(u64),
}

#[derive(Clone, Copy, Debug, PartialEq, Eq)]
pub struct Refusal {
    pub place: Place,
    pub number: u64,
}

impl fmt::Display for Place {
    ghost output = { λ p. Some (place_text p) };

    fn fmt<W: fmt::Write>(&self, f: &mut fmt::Formatter<W>) -> fmt::Result {
        match self {
            Place::Word(at) => write!(f, "word {at}"),
            Place::Byte(at) => write!(f, "byte {at}"),
            Place::Row(at) => write!(f, "row {at}"),
        }
    }
}

impl fmt::Display for Refusal {
    ghost output = { λ r. Some (refusal_text r) };

    fn fmt<W: fmt::Write>(&self, f: &mut fmt::Formatter<W>) -> fmt::Result {
        let place = self.place;
        let number = self.number;
        write!(f, "refused {number} {place}")
    }
}

impl Error for Refusal {}

pub fn at_word(number: u64, at: usize) -> Refusal
    ensures { reason_of result ≡ reason number (word at) }
{
    Refusal {
        place: Place::Word(at as u64),
        number: number,
    }
}

pub fn at_byte(number: u64, at: usize) -> Refusal
    ensures { reason_of result ≡ reason number (byte at) }
{
    Refusal {
        place: Place::Byte(at as u64),
        number: number,
    }
}

pub fn at_row(number: u64, at: usize) -> Refusal
    ensures { reason_of result ≡ reason number (row at) }
{
    Refusal {
        place: Place::Row(at as u64),
        number: number,
    }
}

// Accepted where the test holds.
pub fn accept_if(holds: bool, refusal: Refusal) -> Result<(), Refusal>
    ensures { outcome_of result ≡ test holds (reason_of refusal) accepted }
{
    if holds { Ok(()) } else { Err(refusal) }
}
