// The kinds of commands.
ghost use Rattle.std.specs.Prelude.{◌≡◌};
ghost use Rattle.meaning.specs.Codes.{Decodes, code_between};
ghost use Rattle.meaning.specs.Numbers.{kind_code, kind_of_code};

use crate::code::{Coded, UnknownCode};

#[derive(Clone, Copy, Debug, PartialEq, Eq)]
pub enum Kind {
    Pen,
    Look,
    Clear,
    Triangles,
    Show,
}

impl From<Kind> for u8 {
    ghost from_gives = { λ kind n. n ≡ kind_code kind };

    fn from(kind: Kind) -> u8 {
        match kind {
            Kind::Pen => 1,
            Kind::Look => 2,
            Kind::Clear => 3,
            Kind::Triangles => 4,
            Kind::Show => 5,
        }
    }
}

impl TryFrom<u8> for Kind {
    type Error = UnknownCode;

    ghost try_from_gives = { Decodes kind_code (code_between 1 5) kind_of_code };

    fn try_from(code: u8) -> Result<Kind, UnknownCode> {
        match code {
            1 => Ok(Kind::Pen),
            2 => Ok(Kind::Look),
            3 => Ok(Kind::Clear),
            4 => Ok(Kind::Triangles),
            5 => Ok(Kind::Show),
            _ => Err(UnknownCode(code)),
        }
    }
}

impl Coded for Kind {
    ghost code = { kind_code };

    ghost is_code = { code_between 1 5 };

    ghost coded = { kind_of_code };

    ghost decodes = { λ n r h. h };
}
