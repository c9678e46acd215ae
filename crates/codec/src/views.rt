// The numbers of a look.
ghost use Rattle.meaning.specs.Meaning.{look};
ghost use Rattle.codec.specs.Judged.{a_row, a_place, a_look};
ghost use Rattle.codec.specs.Reader.{Reads, as_it_is};

use crate::owner::Owner;
use crate::reader::Reader;
use crate::refusal::Refusal;
use meaning::geometry::Place;
use meaning::projection::{Row, View};

#[tactic(auto, using(crate::proofs::Chains::steps), unfolding(crate::specs::Judged::a_row, crate::specs::Judged::a_place, crate::specs::Judged::a_look))]
impl Reader<'_> {
    fn row(&mut self) -> Result<Row, Refusal>
        ensures { Reads as_it_is a_row self.old result self.new }
    {
        let x = self.whole(16_777_216)?;
        let y = self.whole(16_777_216)?;
        let z = self.whole(16_777_216)?;
        let one = self.whole(16_777_216)?;
        Ok(Row { x, y, z, one })
    }

    fn place(&mut self) -> Result<Place, Refusal>
        ensures { Reads as_it_is a_place self.old result self.new }
    {
        let x = self.whole(524_288)?;
        let y = self.whole(524_288)?;
        Ok(Place { x, y })
    }

    pub fn view(&mut self) -> Result<View, Refusal>
        ensures { Reads look a_look self.old result self.new }
    {
        let across = self.row()?;
        let down = self.row()?;
        let away = self.row()?;
        let scale = self.number(Owner::Command, 0, 1_048_575)?;
        let middle = self.place()?;
        Ok(View {
            across,
            down,
            away,
            scale,
            middle,
        })
    }
}
