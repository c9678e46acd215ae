// A line of a text, read word by word.
ghost use Rattle.std.specs.Prelude.{◌+◌, ◌≤◌, length, Some, IfOk};

use crate::problem::{Problem, TextError};
use crate::word::decimal;
use std::ops::RangeInclusive;

fn is_blank(byte: u8) -> bool {
    matches!(byte, b' ' | b'\t' | b'\r')
}

// Whether a word ends before this byte: a blank, or a comment.
fn is_end(byte: u8) -> bool {
    is_blank(byte) || byte == b'#'
}

#[derive(Clone, Copy)]
pub struct Line<'a> {
    number: usize,
    text: &'a str,
    // the next word, empty where there is none
    word: &'a str,
    // what lies behind it
    behind: &'a str,
    ghost inside: { length word.now + length behind.now ≤ length text.now },
}

// The first word of a text, empty where it has none, and what lies behind it. A comment goes to the text's end.
// Kept: bytes, since letters take more than twice the time. Where a byte is a blank or `#`, so is a letter, and none is cut in two.
// Put into its callers, since the two texts that it hands back would else cost a fifth of the whole program.
#[inline(always)]
fn first_word(text: &str) -> (&str, &str)
    ensures { length result.0.now + length result.1.now ≤ length text.now }
{
    let start = text
        .bytes()
        .position(|byte| !is_blank(byte))
        .unwrap_or(text.len());
    let words = match text.split_at_checked(start) {
        Some((_, words)) if !words.starts_with('#') => words,
        _ => "",
    };
    let end = words.bytes().position(is_end).unwrap_or(words.len());
    words.split_at_checked(end).unwrap_or((words, ""))
}

impl<'a> Line<'a> {
    // A line and its number, from 1 on.
    pub(crate) fn new(number: usize, text: &'a str) -> Line<'a> {
        let (word, behind) = first_word(text);
        Line {
            number,
            text,
            word,
            behind,
        }
    }

    pub(crate) fn is_empty(&self) -> bool {
        self.word.is_empty()
    }

    // Passes over the next word.
    fn pass(&mut self) {
        (self.word, self.behind) = first_word(self.behind);
    }

    fn wrong_at(&self, column: usize, expected: &'static str) -> Problem {
        Problem::Text(TextError {
            line: self.number,
            column,
            expected,
        })
    }

    // An error where the next word begins, or at the end of a line that has none.
    pub(crate) fn wrong(&self, expected: &'static str) -> Problem {
        self.wrong_at(
            self.text.len() - self.behind.len() - self.word.len() + 1,
            expected,
        )
    }

    // An error at the beginning of the line.
    pub(crate) fn too_many(&self, expected: &'static str) -> Problem {
        self.wrong_at(1, expected)
    }

    // Nothing more may stand on the line.
    pub(crate) fn end(&self) -> Result<(), Problem> {
        if self.is_empty() {
            return Ok(());
        }
        Err(self.wrong("the end of the line"))
    }

    // Whether the next word is this one; it is passed over only then.
    pub(crate) fn takes(&mut self, word: &str) -> bool {
        if self.word != word {
            return false;
        }
        self.pass();
        true
    }

    // What the next word says, which is passed over unless it says nothing.
    pub(crate) fn read<T, F: FnOnce(&str) -> Option<T>>(
        &mut self,
        expected: &'static str,
        meaning: F,
    ) -> Result<T, Problem>
        requires { F.IsAlwaysCallable meaning }
        ensures { IfOk result (λ v. (w : _) × F.post meaning w (Some v)) }
    {
        let Some(value) = meaning(self.word) else {
            return Err(self.wrong(expected));
        };
        self.pass();
        Ok(value)
    }

    // A number of a range.
    pub(crate) fn number(
        &mut self,
        range: RangeInclusive<u16>,
        expected: &'static str,
    ) -> Result<u16, Problem> {
        self.read(expected, |word| {
            decimal(word).filter(|number| range.contains(number))
        })
    }

    // The value beside the next word in a table.
    pub(crate) fn choice<T: Copy>(
        &mut self,
        table: &[(&str, T)],
        expected: &'static str,
    ) -> Result<T, Problem> {
        for (name, value) in table {
            if self.takes(name) {
                return Ok(*value);
            }
        }
        Err(self.wrong(expected))
    }
}
