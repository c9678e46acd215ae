// What can go wrong while a text is read.
use std::alloc::{AllocError, AllocFailed};
use std::error::Error;
use std::fmt;
use std::fmt::Display;

// Where a text goes wrong, lines and columns from 1 on, and what was expected there.
#[derive(Clone, Copy, Debug, PartialEq, Eq)]
pub struct TextError {
    pub line: usize,
    pub column: usize,
    pub expected: &'static str,
}

impl Display for TextError {
    fn fmt<W: fmt::Write>(&self, f: &mut fmt::Formatter<W>) -> fmt::Result {
        let TextError {
            line,
            column,
            expected,
        } = self;
        write!(f, "line {line}, column {column}: expected {expected}")
    }
}

impl Error for TextError {}

#[derive(Clone, Copy, Debug, PartialEq, Eq)]
pub enum Problem {
    Text(TextError),
    Memory,
}

impl From<AllocError> for Problem {
    fn from(_e: AllocError) -> Problem {
        Problem::Memory
    }
}

impl<T: Drop> From<AllocFailed<T>> for Problem {
    fn from(_e: AllocFailed<T>) -> Problem {
        Problem::Memory
    }
}
