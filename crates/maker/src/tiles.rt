// One tile of the picture through all commands. A tile is a frame, and only its dots are touched.
ghost use Rattle.std.specs.Prelude.{◌≡◌, ◌+◌, ◌<◌, ◌≤◌, true};
ghost use Rattle.meaning.specs.Numbers.{kind_number};
ghost use Rattle.codec.specs.Kinds.{built_yet};
ghost use Rattle.codec.specs.Shows.{counts, shows};
ghost use Rattle.codec.specs.Taken.{commands_of};
ghost use Rattle.maker.specs.Tiles.{Obeyed, Painted};

use meaning::command::Command;
use meaning::pen::{Frame, Pen};
use meaning::projection::View;
use meaning::state::{Dot, State};
use reference::canvas::Canvas;
use tile::boxes::{clear_box, meet, show_box};

// What holds between two commands: the pen, the view, and how many pictures were shown.
#[derive(Clone, Copy)]
pub struct Context {
    pub pen: Pen,
    pub view: View,
    pub shown: u16,
}

// One command on a tile. There is room for what it shows, beside what was shown before.
fn obey(command: Command, context: Context, tile: Frame, canvas: &mut Canvas<'_>) -> Context
    requires kind { built_yet (kind_number command) ≡ true }
    requires inside { tile.bottom ≤ canvas.old.file.summary.size.height }
    requires few { context.shown < 65535 }
    requires room { context.shown + counts command ≤ shows (commands_of canvas.old.file) }
    ensures few { result.shown ≤ context.shown + 1 }
    ensures obeyed { Obeyed command tile context canvas.old result canvas.new }
{
    let size = canvas.file.summary.size;
    match command {
        Command::Pen(pen) => Context { pen, ..context },
        Command::Look(view) => Context { view, ..context },
        Command::Clear { colour, depth } => {
            let frame = meet(tile, context.pen.frame);
            clear_box(
                canvas.colours,
                canvas.depths,
                size,
                frame,
                Dot { colour, depth },
            );
            context
        }
        // Files with triangles are refused yet.
        Command::Triangles(_) => unreachable(),
        Command::Show => {
            let colours = &mut *canvas.colours;
            show_box(colours, canvas.shown, size, tile, context.shown);
            Context {
                shown: context.shown + 1,
                ..context
            }
        }
    }
}

// All commands on a tile, from the beginning.
pub(crate) fn paint_tile(canvas: &mut Canvas<'_>, tile: Frame)
    requires { tile.bottom ≤ canvas.old.file.summary.size.height }
    ensures { Painted tile canvas.old canvas.new }
{
    let file = canvas.file;
    let size = file.summary.size;
    let begin = State::begin(size);
    clear_box(canvas.colours, canvas.depths, size, tile, begin.dot);
    let mut context = Context {
        pen: begin.pen,
        view: begin.view,
        shown: 0,
    };
    for command in file.commands() {
        context = obey(command, context, tile, canvas);
    }
}
