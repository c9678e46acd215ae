// The corners of triangles.
ghost use Rattle.meaning.specs.Fragments.{triple};
ghost use Rattle.codec.specs.Judged.{a_corner, a_triple};
ghost use Rattle.codec.specs.Reader.{Reads, as_it_is};

use crate::owner::Owner;
use crate::reader::Reader;
use crate::refusal::Refusal;
use meaning::points::Corner;

#[tactic(auto, using(crate::proofs::Chains::steps), unfolding(crate::specs::Judged::a_corner, crate::specs::Judged::a_triple))]
impl Reader<'_> {
    fn corner(&mut self) -> Result<Corner, Refusal>
        ensures { Reads as_it_is a_corner self.old result self.new }
    {
        let x = self.whole(8_388_608)?;
        let y = self.whole(8_388_608)?;
        let z = self.whole(8_388_608)?;
        let u = self.number(Owner::Command, 0, 65535)?;
        let v = self.number(Owner::Command, 0, 65535)?;
        let colour = self.array()?;
        Ok(Corner {
            x,
            y,
            z,
            u,
            v,
            colour,
        })
    }

    // The three corners of a triangle.
    pub fn triangle(&mut self) -> Result<[Corner; 3], Refusal>
        ensures { Reads triple a_triple self.old result self.new }
    {
        let a = self.corner()?;
        let b = self.corner()?;
        let c = self.corner()?;
        Ok([a, b, c])
    }
}
