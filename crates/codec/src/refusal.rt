// Why a file is refused, or the memory that is lent for its pictures.
ghost use Rattle.std.specs.Prelude.{◌≡◌};
ghost use Rattle.codec.specs.Refusals.{refusal_number, refusal_place};

use std::error::Error;
use std::fmt;

// The memory that is lent to make pictures in.
#[derive(Clone, Copy, Debug, PartialEq, Eq)]
pub enum Lent {
    Picture,
    Work,
    Shown,
}

// What is wrong, with its place in the file where it can differ.
#[derive(Clone, Copy, Debug, PartialEq, Eq)]
pub enum Refusal {
    // The bytes end too early, or go on: the file's length, or the first byte too many.
    Length(usize),
    // The file does not begin with "DOTS".
    Mark,
    // A size, a number of parts or a power of two out of range: its first byte.
    Range(usize),
    // A command of a kind that there is not: its byte.
    Kind(usize),
    // A number of a command out of range: its first byte.
    Number(usize),
    // Too little lent memory.
    Memory(Lent),
}

impl Refusal {
    // The number that a caller is given.
    // Kept: a number, since it is what is printed; the code itself goes by the variants.
    pub fn number(self) -> u8
        ensures { result ≡ refusal_number self }
    {
        match self {
            Refusal::Length(_) => 1,
            Refusal::Mark => 2,
            Refusal::Range(_) => 3,
            Refusal::Kind(_) => 4,
            Refusal::Number(_) => 5,
            Refusal::Memory(_) => 6,
        }
    }

    // The place in the file, or which of the lent memories.
    pub fn place(self) -> usize
        ensures { result ≡ refusal_place self }
    {
        match self {
            Refusal::Length(at) | Refusal::Range(at) | Refusal::Kind(at) | Refusal::Number(at) =>
                at,
            Refusal::Mark | Refusal::Memory(Lent::Picture) => 0,
            Refusal::Memory(Lent::Work) => 1,
            Refusal::Memory(Lent::Shown) => 2,
        }
    }
}

impl fmt::Display for Refusal {
    ghost use Rattle.std.specs.Prelude.{Some};
    ghost use Rattle.codec.specs.Messages.{refusal_text};

    ghost output = { λ r. Some (refusal_text r) };

    fn fmt<W: fmt::Write>(&self, f: &mut fmt::Formatter<W>) -> fmt::Result {
        write!(f, "refused {} at {}", self.number(), self.place())
    }
}

impl Error for Refusal {}
