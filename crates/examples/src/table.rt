// Six small lists of commands, each with one picture. Under their look corners at z 256 are points, 256 to a dot.
use meaning::command::Command;
use meaning::geometry::Place;
use meaning::pen::{Frame, Mix, Pen, Test};
use meaning::points::Corner;
use meaning::projection::{Row, View};
use meaning::state::{Size, State};
use meaning::texture::Texture;

// A command, or one of the triangles behind it.
#[derive(Clone, Copy)]
pub enum Step {
    Command(Command),
    Triangle([Corner; 3]),
}

// What is done under the look.
#[derive(Clone, Copy)]
pub struct Example<const STEPS: usize> {
    pub size: Size,
    pub texture: Option<Texture<'static>>,
    pub steps: [Step; STEPS],
}

pub const LOOK: View = View {
    across: Row {
        x: 65_536,
        y: 0,
        z: 0,
        one: 0,
    },
    down: Row {
        x: 0,
        y: 65_536,
        z: 0,
        one: 0,
    },
    away: Row {
        x: 0,
        y: 0,
        z: 65_536,
        one: 0,
    },
    scale: 256,
    middle: Place { x: 0, y: 0 },
};

// Two dots beside each other, red and blue.
const RED_BLUE: [u8; 8] = [0xff, 0, 0, 0xff, 0, 0, 0xff, 0xff];

fn corner(x: i32, y: i32, colour: [u8; 4]) -> Corner {
    Corner {
        x,
        y,
        z: 256,
        u: 0,
        v: 0,
        colour,
    }
}

// The triangle of most examples.
fn half(colour: [u8; 4]) -> [Corner; 3] {
    [
        corner(0, 0, colour),
        corner(1024, 0, colour),
        corner(0, 1024, colour),
    ]
}

// What is painted with unless a pen is given: always, no depth kept, replaced, the whole picture.
fn whole_pen(size: Size) -> Pen {
    State::begin(size).pen
}

// One triangle; the dots on its slanted edge are not its own.
pub(crate) fn alone() -> Example<1> {
    let red = [0xff, 0, 0, 0xff];
    let triangle = [corner(0, 0, red), corner(1024, 0, red), corner(0, 512, red)];
    Example {
        size: Size {
            width: 4,
            height: 2,
        },
        texture: None,
        steps: [Step::Triangle(triangle)],
    }
}

// Two triangles that meet at a slanted edge, added: of its four dots none gets both, none gets neither.
pub(crate) fn seam() -> Example<3> {
    let size = Size {
        width: 4,
        height: 4,
    };
    let pen = Pen {
        mix: Mix::Add,
        ..whole_pen(size)
    };
    let dark = [0x64, 0, 0, 0xff];
    let other = [
        corner(1024, 0, dark),
        corner(1024, 1024, dark),
        corner(0, 1024, dark),
    ];
    Example {
        size,
        texture: None,
        steps: [
            Step::Command(Command::Pen(pen)),
            Step::Triangle(half(dark)),
            Step::Triangle(other),
        ],
    }
}

// A triangle twice as far away behind another.
pub(crate) fn behind() -> Example<3> {
    let size = Size {
        width: 2,
        height: 1,
    };
    let pen = Pen {
        test: Test::Less,
        keeps: true,
        ..whole_pen(size)
    };
    let blue = [0, 0, 0xff, 0xff];
    let far = [
        corner(0, 0, blue),
        corner(2048, 0, blue),
        corner(0, 2048, blue),
    ];
    Example {
        size,
        texture: None,
        steps: [
            Step::Command(Command::Pen(pen)),
            Step::Triangle(half([0xff, 0, 0, 0xff])),
            Step::Triangle(far.map(|corner| Corner { z: 512, ..corner })),
        ],
    }
}

// A half green pane over red, in a frame without the first dot.
pub(crate) fn pane() -> Example<3> {
    let size = Size {
        width: 2,
        height: 1,
    };
    let clear = Command::Clear {
        colour: [0xff, 0, 0],
        depth: 65_535,
    };
    let whole = whole_pen(size);
    let pen = Pen {
        mix: Mix::Blend,
        frame: Frame {
            left: 1,
            ..whole.frame
        },
        ..whole
    };
    Example {
        size,
        texture: None,
        steps: [
            Step::Command(clear),
            Step::Command(Command::Pen(pen)),
            Step::Triangle(half([0, 0xff, 0, 128])),
        ],
    }
}

// From black to white; the fourth dot lies on the slanted edge, which goes down and does not own it.
pub(crate) fn shades() -> Example<1> {
    let black = [0, 0, 0, 0xff];
    let triangle = [
        corner(0, 0, black),
        corner(1024, 0, [0xff; 4]),
        corner(0, 1024, black),
    ];
    Example {
        size: Size {
            width: 4,
            height: 1,
        },
        texture: None,
        steps: [Step::Triangle(triangle)],
    }
}

// A texture of two dots, which begins again beyond its edge.
pub(crate) fn stripes() -> Example<2> {
    let size = Size {
        width: 4,
        height: 1,
    };
    let pen = Pen {
        texture: 1,
        ..whole_pen(size)
    };
    let [start, right, bottom] = half([0xff; 4]);
    let triangle = [
        start,
        Corner { u: 1024, ..right },
        Corner { v: 1024, ..bottom },
    ];
    Example {
        size,
        texture: Some(Texture {
            across: 1,
            down: 0,
            dots: &RED_BLUE,
        }),
        steps: [Step::Command(Command::Pen(pen)), Step::Triangle(triangle)],
    }
}
