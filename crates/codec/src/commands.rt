// The commands of a file, each its kind and what it has.
ghost use Rattle.codec.specs.Judged.{times, a_clear, a_command};
ghost use Rattle.codec.specs.Kinds.{built_yet};
ghost use Rattle.codec.specs.Reader.{ReadsSome, Headed, SomeList};

use crate::owner::Owner;
use crate::reader::Reader;
use crate::refusal::Refusal;
use meaning::command::Command;
use meaning::kind::Kind;
use meaning::state::Size;

impl Reader<'_> {
    #[tactic(auto, using(crate::proofs::Chains::some_steps), unfolding(crate::specs::Judged::a_clear))]
    fn clear(&mut self) -> Result<Command, Refusal>
        ensures { ReadsSome Headed a_clear self.old result self.new }
    {
        let colour = self.array()?;
        let depth = self.number(Owner::Command, 0, 65535)?;
        Ok(Command::Clear { colour, depth })
    }

    // Kept: size and textures as two parameters. The definitions take them apart, the frame is judged by one and the texture by the other, and a struct of both would stand between a `Summary`, which has more, and a pen, which parts them.
    // One command, for a picture of this size and a file with so many textures.
    pub fn command(&mut self, size: Size, textures: u8) -> Result<Command, Refusal>
        ensures { ReadsSome Headed (a_command built_yet size textures) self.old result self.new }
    {
        let at = self.at;
        match self.code(Owner::Kind)? {
            Kind::Pen => Ok(Command::Pen(self.pen(size, textures)?)),
            Kind::Clear => self.clear(),
            Kind::Show => Ok(Command::Show),
            // No file may have these yet.
            Kind::Look | Kind::Triangles => Err(Refusal::Kind(at)),
        }
    }

    // So many commands, which are judged here and read again later.
    pub fn commands(&mut self, many: u16, size: Size, textures: u8) -> Result<(), Refusal>
        ensures { ReadsSome (SomeList many) (times many (a_command built_yet size textures)) self.old result self.new }
    {
        for _ in 0..many {
            self.command(size, textures)?;
        }
        Ok(())
    }
}
