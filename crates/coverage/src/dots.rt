// Dots of a picture that lies by rows in lent slices, read and written one at a time.
ghost use Rattle.std.specs.Prelude.{◌≡◌, ◌+◌, ◌*◌, ◌<◌, ◌≤◌, length};
ghost use Rattle.meaning.specs.Meaning.{middle, if_covered};
ghost use Rattle.meaning.specs.Textures.{image_if};
ghost use Rattle.reference.specs.Boxes.{in_box};
ghost use Rattle.reference.specs.Changes.{Changes};
ghost use Rattle.reference.specs.Shows.{PictureRoom};
ghost use Rattle.coverage.specs.Spots.{spot};

use meaning::brush::Brush;
use meaning::fragment::Fragment;
use meaning::state::{Dot, Size};
use reference::places::{place_of, put_dot};
use std::array;

// The dot at a place.
fn dot_at(colours: &[u8], depths: &[u16], place: usize) -> Dot
    requires colours { place * 3 + 3 ≤ length colours.now }
    requires depths { place < length depths.now }
    ensures { result ≡ spot colours.now depths.now place }
{
    let first = place * 3;
    Dot {
        colour: array::from_fn(|part| colours[first + part]),
        depth: depths[place],
    }
}

// Dot (i, j), which the fragment is of, is painted.
pub(crate) fn paint_dot(
    fragment: Fragment,
    brush: Brush<'_>,
    size: Size,
    i: u16,
    j: u16,
    colours: &mut [u8],
    depths: &mut [u16],
)
    requires place { fragment.place ≡ middle i j }
    requires across { i < size.width }
    requires down { j < size.height }
    requires room { PictureRoom size colours.old depths.old }
    ensures { Changes size.width (in_box i j (i + 1) (j + 1)) (λ i j d. if_covered (image_if brush.entry.texture) brush.entry.pen fragment.triangle.a fragment.triangle.b fragment.triangle.c (middle i j) d) colours.old depths.old colours.new depths.new }
{
    let place = place_of(size, 0, i, j);
    let dot = fragment.paint(brush, dot_at(colours, depths, place));
    put_dot(colours, depths, place, dot);
}
