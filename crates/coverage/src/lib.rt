// A triangle painted over a box of dots: which dots it covers is told by sums alone.
#![tactic(auto)]

ghost use Rattle.std.specs.Prelude.{◌≤◌};
ghost use Rattle.meaning.specs.Meaning.{middle, in_frame, if_covered};
ghost use Rattle.meaning.specs.Textures.{image_if};
ghost use Rattle.setup.specs.Ready.{Sound};
ghost use Rattle.reference.specs.Changes.{Changes};
ghost use Rattle.reference.specs.Shows.{PictureRoom};

use crate::dots::paint_dot;
use crate::outline::Outline;
use meaning::brush::Brush;
use meaning::pen::Frame;
use meaning::state::Size;
use meaning::triangle::Triangle;

mod dots;
mod outline;
mod per_edge;

// The dots of the frame that the triangle covers are painted, and no others.
pub fn cover(
    triangle: Triangle,
    frame: Frame,
    brush: Brush<'_>,
    size: Size,
    colours: &mut [u8],
    depths: &mut [u16],
)
    requires sound { Sound triangle }
    requires right { frame.right ≤ size.width }
    requires bottom { frame.bottom ≤ size.height }
    requires room { PictureRoom size colours.old depths.old }
    ensures { Changes size.width (in_frame frame) (λ i j d. if_covered (image_if brush.entry.texture) brush.entry.pen triangle.a triangle.b triangle.c (middle i j) d) colours.old depths.old colours.new depths.new }
{
    let outline = Outline::of(triangle);
    let mut first = outline.sides_at(frame.left, frame.top);
    'rows: for j in frame.top..frame.bottom {
        let mut sides = first;
        // moved on already here, since the row may be left before its end
        first = first.plus(outline.down);
        for i in frame.left..frame.right {
            if outline.holds(sides) {
                let fragment = outline.fragment(sides, i, j);
                paint_dot(fragment, brush, size, i, j, colours, depths);
            } else if outline.is_passed(sides) {
                continue 'rows;
            }
            sides = sides.plus(outline.across);
        }
    }
}
