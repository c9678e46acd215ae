// How dots are painted: which depths pass, how colours mix, and which dots may change.
ghost use Rattle.std.specs.Prelude.{◌≡◌};
ghost use Rattle.meaning.specs.Meaning.{passes, mixed, in_frame};
ghost use Rattle.meaning.specs.Codes.{Decodes, code_between};
ghost use Rattle.meaning.specs.Numbers.{test_number, test_of, mix_number, mix_of};
ghost use Rattle.meaning.specs.declared.pen.Mix.TheVariants.{Blend};

use crate::code::{Coded, UnknownCode};

// Which new depths pass, against the old one.
#[derive(Clone, Copy, Debug, PartialEq, Eq)]
pub enum Test {
    Always,
    Less,
    LessOrEqual,
    Equal,
    Never,
}

impl From<Test> for u8 {
    ghost from_gives = { λ test n. n ≡ test_number test };

    fn from(test: Test) -> u8 {
        match test {
            Test::Always => 0,
            Test::Less => 1,
            Test::LessOrEqual => 2,
            Test::Equal => 3,
            Test::Never => 4,
        }
    }
}

impl TryFrom<u8> for Test {
    type Error = UnknownCode;

    ghost try_from_gives = { Decodes test_number (code_between 0 4) test_of };

    fn try_from(code: u8) -> Result<Test, UnknownCode> {
        match code {
            0 => Ok(Test::Always),
            1 => Ok(Test::Less),
            2 => Ok(Test::LessOrEqual),
            3 => Ok(Test::Equal),
            4 => Ok(Test::Never),
            _ => Err(UnknownCode(code)),
        }
    }
}

impl Coded for Test {
    ghost code = { test_number };

    ghost is_code = { code_between 0 4 };

    ghost coded = { test_of };

    ghost decodes = { λ n r h. h };
}

impl Test {
    // Whether the new depth passes.
    pub fn is_passed(self, new: u16, old: u16) -> bool
        ensures { result ≡ passes self new old }
    {
        match self {
            Test::Always => true,
            Test::Less => new < old,
            Test::LessOrEqual => new <= old,
            Test::Equal => new == old,
            Test::Never => false,
        }
    }
}

// How a new colour goes onto the old one.
#[derive(Clone, Copy, Debug, PartialEq, Eq)]
pub enum Mix {
    Replace,
    Blend,
    Add,
}

impl From<Mix> for u8 {
    ghost from_gives = { λ mix n. n ≡ mix_number mix };

    fn from(mix: Mix) -> u8 {
        match mix {
            Mix::Replace => 0,
            Mix::Blend => 1,
            Mix::Add => 2,
        }
    }
}

impl TryFrom<u8> for Mix {
    type Error = UnknownCode;

    ghost try_from_gives = { Decodes mix_number (code_between 0 2) mix_of };

    fn try_from(code: u8) -> Result<Mix, UnknownCode> {
        match code {
            0 => Ok(Mix::Replace),
            1 => Ok(Mix::Blend),
            2 => Ok(Mix::Add),
            _ => Err(UnknownCode(code)),
        }
    }
}

impl Coded for Mix {
    ghost code = { mix_number };

    ghost is_code = { code_between 0 2 };

    ghost coded = { mix_of };

    ghost decodes = { λ n r h. h };
}

impl Mix {
    // One part of the colour; `alpha` is the fourth part that is brought.
    pub fn mix(self, alpha: u8, new: u8, old: u8) -> u8
        ensures { result ≡ mixed self alpha new old }
    {
        match self {
            Mix::Replace => new,
            Mix::Blend => blend(alpha, new, old),
            Mix::Add => new.saturating_add(old),
        }
    }
}

fn blend(alpha: u8, new: u8, old: u8) -> u8
    ensures { result ≡ mixed Blend alpha new old }
{
    let weight = u32::from(alpha);
    ((u32::from(new) * weight + u32::from(old) * (255 - weight) + 127) / 255) as u8
}

// The dots that may change: from left to right and from top to bottom, without right and bottom themselves.
#[derive(Clone, Copy)]
pub struct Frame {
    pub left: u16,
    pub top: u16,
    pub right: u16,
    pub bottom: u16,
}

impl Frame {
    // Whether dot (i, j) may change.
    pub fn contains(self, i: u16, j: u16) -> bool
        ensures { result ≡ in_frame self i j }
    {
        (self.left..self.right).contains(&i) && (self.top..self.bottom).contains(&j)
    }
}

#[derive(Clone, Copy)]
pub struct Pen {
    pub test: Test,
    pub keeps: bool,
    pub mix: Mix,
    // Kept: a number and no Option, as in the file: 0 names none, and the definition looks the number up as it is.
    pub texture: u8,
    pub frame: Frame,
}
