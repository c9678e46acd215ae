// How pictures are made in lent memory, whoever draws them.
ghost use Rattle.reference.specs.Boxes.{in_box};
ghost use Rattle.reference.specs.Dots.{Drawn};
ghost use Rattle.reference.specs.Made.{Made, SamePictures};

use crate::canvas::Canvas;
use crate::job::accept;
use crate::lengths::Lengths;
use codec::refusal::Refusal;

pub trait Draws {
    // All commands of the file, for every dot of the picture.
    fn draw(canvas: &mut Canvas<'_>)
        ensures { Drawn (in_box 0 0 canvas.old.file.summary.size.width canvas.old.file.summary.size.height) canvas.old canvas.new };
}

// Kept: four slices, in every entry and every painter. It is a rule of the project that pictures are made in slices that the caller lends, in this form.
// The pictures of a file: how many are shown, or why the file is refused. Who draws needs no more than the picture and what is shown; the length of `work` is
// judged all the same.
pub fn pictures<D: Draws>(
    file: &[u8],
    colours: &mut [u8],
    depths: &mut [u16],
    work: &mut [u32],
    shown: &mut [u8],
) -> Result<usize, Refusal>
    ensures made { Made file.now colours.old depths.old work.old shown.old result colours.new depths.new work.new shown.new }
    ensures same { SamePictures file.now colours.old depths.old work.old shown.old result shown.new }
{
    let task = accept(file, Lengths::of(colours, depths, work, shown))?;
    let mut canvas = Canvas {
        file: task.file,
        colours,
        depths,
        shown,
    };
    D::draw(&mut canvas);
    Ok(task.shows)
}
