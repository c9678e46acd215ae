// Boxes of dots of a picture that lies by rows in lent slices. A box is a frame, a tile of the picture for one; where its left is not below its right it is empty.
ghost use Rattle.std.specs.Prelude.{◌≡◌, ℕ, ◌+◌, ◌*◌, ◌/◌, ◌<◌, ◌≤◌, length, get_or};
ghost use Rattle.meaning.specs.Meaning.{in_frame};
ghost use Rattle.reference.specs.Boxes.{Colours, Depths};
ghost use Rattle.reference.specs.Shows.{OnePicture, PictureRoom};
ghost use Rattle.tile.specs.Frames.{Both, Part};

use meaning::pen::Frame;
use meaning::state::{Dot, Size};

// The dots that both frames have.
pub fn meet(tile: Frame, frame: Frame) -> Frame
    ensures { Both tile frame result }
{
    Frame {
        left: tile.left.max(frame.left),
        top: tile.top.max(frame.top),
        right: tile.right.min(frame.right),
        bottom: tile.bottom.min(frame.bottom),
    }
}

// Where the dots from one to another begin and end among `length` dots.
fn part(length: u16, from: u16, to: u16) -> (usize, usize)
    ensures { Part length from to result.0 result.1 }
{
    let end = to.min(length);
    let start = from.min(end);
    (usize::from(start), usize::from(end))
}

// Every dot of the row gets the colour.
fn fill_colours(row: &mut [u8], colour: [u8; 3])
    ensures { (k c : ℕ) → k < length row.old / 3 → c < 3 → get_or row.new (k * 3 + c) 0 ≡ get_or colour c 0 }
{
    // Kept: `row.as_chunks_mut::<3>().0.fill(colour)` has no proof, since nothing is known of what a slice ends as that was lent in chunks; nor has a loop over `chunks_exact_mut`.
    for k in 0..row.len() / 3 {
        row[k * 3..k * 3 + 3].copy_from_slice(&colour);
    }
}

// Kept: slices, here and in `coverage`. A canvas would ask more of callers, a file and memory for what it shows; a struct of size, colours and depths would have to be made of a canvas at each call, and each contract to say that it holds the same slices still.
// The dots of a box become one and the same.
pub fn clear_box(colours: &mut [u8], depths: &mut [u16], size: Size, frame: Frame, dot: Dot)
    requires inside { frame.bottom ≤ size.height }
    requires room { PictureRoom size colours.old depths.old }
    ensures colours { Colours size.width (in_frame frame) (λ i j c. get_or dot.colour c 0) colours.old colours.new }
    ensures depths { Depths size.width (in_frame frame) (λ i j. dot.depth) depths.old depths.new }
{
    let width = usize::from(size.width);
    let (left, right) = part(size.width, frame.left, frame.right);
    let (top, bottom) = part(size.height, frame.top, frame.bottom);
    // Kept: rows by their places, here and below. What a slice holds after it was lent in chunks is not known.
    for j in top..bottom {
        let row = j * width;
        fill_colours(
            &mut colours[(row + left) * 3..(row + right) * 3],
            dot.colour,
        );
        depths[row + left..row + right].fill(dot.depth);
    }
}

// The dots of a box go to the same box of picture `number` of those that are shown.
pub fn show_box(colours: &[u8], shown: &mut [u8], size: Size, frame: Frame, number: u16)
    requires colours { (size.height * size.width) * 3 ≤ length colours.now }
    requires shown { (((number + 1) * size.height) * size.width) * 3 ≤ length shown.old }
    ensures { OnePicture size.width size.height number (in_frame frame) colours.now shown.old shown.new }
{
    let width = usize::from(size.width);
    let first = usize::from(number) * usize::from(size.height);
    let (left, right) = part(size.width, frame.left, frame.right);
    let (top, bottom) = part(size.height, frame.top, frame.bottom);
    for j in top..bottom {
        let from = j * width;
        let to = (first + j) * width;
        let row = &mut shown[(to + left) * 3..(to + right) * 3];
        row.copy_from_slice(&colours[(from + left) * 3..(from + right) * 3]);
    }
}
