// A dot on its way through a list of commands.
ghost use Rattle.std.specs.Prelude.{◌≡◌};
ghost use Rattle.meaning.specs.Meaning.{begin};
ghost use Rattle.meaning.specs.Fragments.{triple};
ghost use Rattle.meaning.specs.States.{obeyed, painting};
ghost use Rattle.meaning.specs.Textures.{image_if};

use crate::brush::Brush;
use crate::command::Command;
use crate::geometry::Place;
use crate::paint::paint_corners;
use crate::pen::{Frame, Mix, Pen, Test};
use crate::points::Corner;
use crate::projection::{Row, View};
use crate::texture::Texture;

#[derive(Clone, Copy)]
pub struct Size {
    pub width: u16,
    pub height: u16,
}

#[derive(Clone, Copy)]
pub struct Dot {
    pub colour: [u8; 3],
    pub depth: u16,
}

// The pen and the view that hold, and what the dot is by then.
#[derive(Clone, Copy)]
pub struct State {
    pub pen: Pen,
    pub view: View,
    pub dot: Dot,
}

const NO_ROW: Row = Row {
    x: 0,
    y: 0,
    z: 0,
    one: 0,
};

impl State {
    // Before the first command: under this view every corner is hidden.
    pub fn begin(size: Size) -> State
        ensures { result ≡ begin size }
    {
        let frame = Frame {
            left: 0,
            top: 0,
            right: size.width,
            bottom: size.height,
        };
        let pen = Pen {
            test: Test::Always,
            keeps: false,
            mix: Mix::Replace,
            texture: 0,
            frame,
        };
        let view = View {
            across: NO_ROW,
            down: NO_ROW,
            away: NO_ROW,
            scale: 0,
            middle: Place { x: 0, y: 0 },
        };
        let colour = [0, 0, 0];
        State {
            pen,
            view,
            dot: Dot {
                colour,
                depth: 65_535,
            },
        }
    }

    // Dot (i, j) after one more command; triangles are painted one by one.
    pub fn obey(self, command: Command, i: u16, j: u16) -> State
        ensures { result ≡ obeyed i j self command }
    {
        match command {
            Command::Pen(pen) => State { pen, ..self },
            Command::Look(view) => State { view, ..self },
            Command::Clear { colour, depth } if self.pen.frame.contains(i, j) => State {
                dot: Dot { colour, depth },
                ..self
            },
            Command::Clear { .. } | Command::Triangles(_) | Command::Show => self,
        }
    }

    // Dot (i, j) after one more triangle, with the texture that the pen names.
    pub fn paint(self, texture: Option<Texture<'_>>, corners: [Corner; 3], i: u16, j: u16) -> State
        ensures { result ≡ painting (image_if texture.entry) (triple corners) i j self }
    {
        let brush = Brush {
            pen: self.pen,
            texture,
        };
        State {
            dot: paint_corners(brush, self.view, corners, i, j, self.dot),
            ..self
        }
    }
}
