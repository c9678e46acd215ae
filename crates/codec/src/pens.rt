// The numbers of a pen.
ghost use Rattle.meaning.specs.Meaning.{pen};
ghost use Rattle.codec.specs.Judged.{a_frame, a_pen};
ghost use Rattle.codec.specs.Reader.{Reads, as_it_is};

use crate::owner::Owner;
use crate::reader::Reader;
use crate::refusal::Refusal;
use meaning::pen::{Frame, Pen};
use meaning::state::Size;

#[tactic(auto, using(crate::proofs::Chains::steps), unfolding(crate::specs::Judged::number, crate::specs::Judged::a_frame, crate::specs::Judged::a_pen))]
impl Reader<'_> {
    // A frame that lies in the picture.
    pub fn frame(&mut self, size: Size) -> Result<Frame, Refusal>
        ensures { Reads as_it_is (a_frame size) self.old result self.new }
    {
        let left = self.number(Owner::Command, 0, 65535)?;
        let top = self.number(Owner::Command, 0, 65535)?;
        let right = self.number(Owner::Command, left, size.width)?;
        let bottom = self.number(Owner::Command, top, size.height)?;
        Ok(Frame {
            left,
            top,
            right,
            bottom,
        })
    }

    // A pen that names one of the file's textures, or none.
    pub fn pen(&mut self, size: Size, textures: u8) -> Result<Pen, Refusal>
        ensures { Reads pen (a_pen size textures) self.old result self.new }
    {
        let test = self.code(Owner::Command)?;
        let keeps: u8 = self.number(Owner::Command, 0, 1)?;
        let mix = self.code(Owner::Command)?;
        let texture = self.number(Owner::Command, 0, textures)?;
        let frame = self.frame(size)?;
        Ok(Pen {
            test,
            keeps: keeps == 1,
            mix,
            texture,
            frame,
        })
    }
}
