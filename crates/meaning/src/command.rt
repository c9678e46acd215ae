// The commands of a list, as they are read: of triangles only how many, their corners come one triangle at a time.
ghost use Rattle.std.specs.Prelude.{◌≡◌};
ghost use Rattle.meaning.specs.Numbers.{kind_code, kind_number};

use crate::kind::Kind;
use crate::pen::Pen;
use crate::projection::View;

#[derive(Clone, Copy)]
pub enum Command {
    Pen(Pen),
    Look(View),
    Clear { colour: [u8; 3], depth: u16 },
    Triangles(u16),
    Show,
}

impl Command {
    pub fn kind(self) -> Kind
        ensures { kind_code result ≡ kind_number self }
    {
        match self {
            Command::Pen(_) => Kind::Pen,
            Command::Look(_) => Kind::Look,
            Command::Clear { .. } => Kind::Clear,
            Command::Triangles(_) => Kind::Triangles,
            Command::Show => Kind::Show,
        }
    }
}
