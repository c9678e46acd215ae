// The pictures dot for dot: each dot goes through all commands, one after the other.
ghost use Rattle.std.specs.Prelude.{◌≡◌, ◌+◌, ◌*◌, ◌<◌, ◌≤◌, List, length, slice_index, slice_index_or};
ghost use Rattle.meaning.specs.Meaning.{Image, after, begin};
ghost use Rattle.codec.specs.Shows.{shows};
ghost use Rattle.codec.specs.Taken.{commands_of};
ghost use Rattle.reference.specs.Boxes.{in_box};
ghost use Rattle.reference.specs.Shows.{seen_dots, no_dot, Pictures};
ghost use Rattle.reference.specs.Dots.{Drawn};

use crate::canvas::Canvas;
use crate::entry::Draws;
use crate::places::{place_of, put_colour, put_dot};
use codec::taken::TakenFile;
use meaning::command::Command;
use meaning::state::{Dot, State};

// Dot (i, j) after all commands. At each show its colour goes to its place in that picture.
fn obey_all(file: TakenFile<'_>, i: u16, j: u16, shown: &mut [u8]) -> Dot
    requires across { i < file.summary.size.width }
    requires down { j < file.summary.size.height }
    requires room { ((shows (commands_of file) * file.summary.size.height) * file.summary.size.width) * 3 ≤ length shown.old }
    ensures dot { (ts : List Image) → result ≡ (after ts i j (begin file.entry.summary.size) (commands_of file.entry)).dot }
    ensures shown { (ts : List Image) → Pictures file.entry.summary.size.width file.entry.summary.size.height (shows (commands_of file.entry)) (in_box i j (i + 1) (j + 1)) (λ q i j c. slice_index (slice_index_or (seen_dots ts i j (begin file.entry.summary.size) (commands_of file.entry)) q no_dot).colour c) shown.old shown.new }
{
    let size = file.summary.size;
    let mut state = State::begin(size);
    let mut number: u16 = 0;
    for command in file.commands() {
        state = state.obey(command, i, j);
        if let Command::Show = command {
            put_colour(shown, place_of(size, number, i, j), state.dot.colour);
            // Kept: only shows are counted, so it is no index of the loop that `enumerate` would give.
            number += 1;
        }
    }
    state.dot
}

// Dot (i, j) of every picture.
// Kept: that a dot lies in the picture is asked of its two numbers, here, above and in `coverage`, for the same reason as they are two.
fn mean_dot(canvas: &mut Canvas<'_>, i: u16, j: u16)
    requires across { i < canvas.old.file.summary.size.width }
    requires down { j < canvas.old.file.summary.size.height }
    ensures { Drawn (in_box i j (i + 1) (j + 1)) canvas.old canvas.new }
{
    let file = canvas.file;
    let dot = obey_all(file, i, j, canvas.shown);
    let place = place_of(file.summary.size, 0, i, j);
    put_dot(canvas.colours, canvas.depths, place, dot);
}

// Row j of every picture.
fn mean_row(canvas: &mut Canvas<'_>, j: u16)
    requires { j < canvas.old.file.summary.size.height }
    ensures { Drawn (in_box 0 j canvas.old.file.summary.size.width (j + 1)) canvas.old canvas.new }
{
    let width = canvas.file.summary.size.width;
    for i in 0..width {
        mean_dot(canvas, i, j);
    }
}

// All rows of every picture.
pub(crate) struct DotByDot;

impl Draws for DotByDot {
    fn draw(canvas: &mut Canvas<'_>) {
        let height = canvas.file.summary.size.height;
        for j in 0..height {
            mean_row(canvas, j);
        }
    }
}
