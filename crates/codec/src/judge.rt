// A whole file, judged from front to back.
ghost use Rattle.std.specs.Prelude.{◌≡◌};
ghost use Rattle.codec.specs.Judged.{judge, dots_letters, a_file};
ghost use Rattle.codec.specs.Kinds.{built_yet};
ghost use Rattle.codec.specs.Reader.{Reads, ReadsSome, as_it_is, as_mark};
ghost use Rattle.codec.specs.Verdicts.{Summed, VerdictIs};
ghost use Rattle.codec.specs.Taken.{TakenIs};

use crate::owner::Owner;
use crate::reader::Reader;
use crate::refusal::Refusal;
use crate::summary::Summary;
use crate::taken::TakenFile;
use meaning::state::Size;

impl Reader<'_> {
    // The letters with which every file begins. A refusal of them has no place, so they are read from the first byte.
    fn mark(&mut self) -> Result<(), Refusal>
        requires { self.old.at ≡ 0 }
        ensures { Reads as_mark (judge 2 4 as_it_is dots_letters) self.old result self.new }
    {
        let mark: [u8; 4] = self.array()?;
        if mark != *b"DOTS" {
            return Err(Refusal::Mark);
        }
        Ok(())
    }

    // All that a file has, and nothing behind it.
    #[tactic(auto, using(crate::proofs::Chains::some_steps), unfolding(crate::specs::Judged::a_file))]
    fn file(&mut self) -> Result<Summary, Refusal>
        requires { self.old.at ≡ 0 }
        ensures { ReadsSome (Summed self.old.bytes.now) (a_file built_yet) self.old result self.new }
    {
        self.mark()?;
        let width = self.number(Owner::File, 1, 1024)?;
        let height = self.number(Owner::File, 1, 1024)?;
        let size = Size { width, height };
        let textures = self.number(Owner::File, 0, 64)?;
        self.textures(textures)?;
        let commands = self.number(Owner::File, 0, 65535)?;
        let start = self.at;
        self.commands(commands, size, textures)?;
        if self.at < self.bytes.len() {
            return Err(Refusal::Length(self.at));
        }
        Ok(Summary {
            size,
            textures,
            commands,
            start,
        })
    }
}

// Judges a file: what it has, or why it is refused.
pub fn judge(file: &[u8]) -> Result<Summary, Refusal>
    ensures { VerdictIs built_yet file.now result }
{
    let mut reader = Reader { bytes: file, at: 0 };
    reader.file()
}

impl<'a> TakenFile<'a> {
    // Judges a file, and gives it as one that is taken.
    pub fn judge(file: &'a [u8]) -> Result<TakenFile<'a>, Refusal>
        ensures { TakenIs file.now result }
    {
        let summary = judge(file)?;
        Ok(TakenFile {
            bytes: file,
            summary,
        })
    }
}
