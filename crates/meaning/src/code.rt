// What a byte of a file stands for: the tests, the mixes and the kinds of commands.
ghost use Rattle.std.specs.Prelude.{ℕ, Bool, Result};
ghost use Rattle.meaning.specs.Codes.{Decodes};
ghost use Rattle.meaning.specs.declared.code.UnknownCode.{UnknownCode};

use std::error::Error;
use std::fmt;

// A byte that stands for nothing.
#[derive(Clone, Copy, Debug, PartialEq, Eq)]
pub struct UnknownCode(pub u8);

impl fmt::Display for UnknownCode {
    fn fmt<W: fmt::Write>(&self, f: &mut fmt::Formatter<W>) -> fmt::Result {
        write!(f, "nothing has code {}", self.0)
    }
}

impl Error for UnknownCode {}

// What has a code of one byte, and is read from it.
pub trait Coded: TryFrom<u8, Error = UnknownCode> {
    ghost code: { Self → ℕ };

    // Whether a number is a code, and of what.
    ghost is_code: { ℕ → Bool };

    ghost coded: { ℕ → Self };

    ghost decodes: { (n : ℕ) (r : Result Self UnknownCode) → Self.try_from_gives n r → Decodes code is_code coded n r };
}
