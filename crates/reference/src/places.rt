// Where the dots of pictures lie in lent slices, and what is put there.
ghost use Rattle.std.specs.Prelude.{◌≡◌, ◌+◌, ◌*◌, ◌<◌, ◌≤◌, length, slice_set};
ghost use Rattle.reference.specs.Dots.{OneDot};

use meaning::state::{Dot, Size};

// Where dot (i, j) of picture `number` lies among the dots of pictures one after another.
pub fn place_of(size: Size, number: u16, i: u16, j: u16) -> usize
    ensures { result ≡ (number * size.height + j) * size.width + i }
{
    let row = usize::from(number) * usize::from(size.height) + usize::from(j);
    row * usize::from(size.width) + usize::from(i)
}

// The dot at a place gets the colour.
pub(crate) fn put_colour(colours: &mut [u8], place: usize, colour: [u8; 3])
    requires { place * 3 + 3 ≤ length colours.old }
    ensures { OneDot place colour colours.old colours.new }
{
    colours[place * 3..place * 3 + 3].copy_from_slice(&colour);
}

// The dot at a place becomes another.
pub fn put_dot(colours: &mut [u8], depths: &mut [u16], place: usize, dot: Dot)
    requires colours { place * 3 + 3 ≤ length colours.old }
    requires depths { place < length depths.old }
    ensures colours { OneDot place dot.colour colours.old colours.new }
    ensures depths { depths.new ≡ slice_set depths.old place dot.depth }
{
    put_colour(colours, place, dot.colour);
    depths[place] = dot.depth;
}
