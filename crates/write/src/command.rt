// The lines that are commands.
use crate::line::Line;
use crate::problem::Problem;
use crate::word::{decimal, three_bytes};
use meaning::command::Command;
use meaning::pen::{Frame, Mix, Pen, Test};
use meaning::state::Size;

const TESTS: [(&str, Test); 5] = [
    ("always", Test::Always),
    ("less", Test::Less),
    ("less-or-equal", Test::LessOrEqual),
    ("equal", Test::Equal),
    ("never", Test::Never),
];

const KEEPS: [(&str, bool); 2] = [("keep", true), ("drop", false)];

const MIXES: [(&str, Mix); 3] = [
    ("replace", Mix::Replace),
    ("blend", Mix::Blend),
    ("add", Mix::Add),
];

// The number of a texture that the text has before, or none.
fn texture(line: &mut Line, textures: usize) -> Result<u8, Problem> {
    if line.takes("none") {
        return Ok(0);
    }
    line.read("none or the number of a texture above", |word| {
        let number = u8::try_from(decimal(word)?).ok()?;
        (1..=textures)
            .contains(&usize::from(number))
            .then_some(number)
    })
}

fn frame(line: &mut Line, size: Size) -> Result<Frame, Problem> {
    if line.takes("all") {
        return Ok(Frame {
            left: 0,
            top: 0,
            right: size.width,
            bottom: size.height,
        });
    }
    let left = line.number(0..=u16::MAX, "all or the frame's left, a number")?;
    let top = line.number(0..=u16::MAX, "the frame's top, a number")?;
    let right = line.number(
        left..=size.width,
        "the frame's right, from its left to the width",
    )?;
    let bottom = line.number(
        top..=size.height,
        "the frame's bottom, from its top to the height",
    )?;
    Ok(Frame {
        left,
        top,
        right,
        bottom,
    })
}

fn pen(line: &mut Line, size: Size, textures: usize) -> Result<Command, Problem> {
    Ok(Command::Pen(Pen {
        test: line.choice(
            &TESTS,
            "a test: always, less, less-or-equal, equal or never",
        )?,
        keeps: line.choice(&KEEPS, "keep or drop, for the depth")?,
        mix: line.choice(&MIXES, "a mix: replace, blend or add")?,
        texture: texture(line, textures)?,
        frame: frame(line, size)?,
    }))
}

fn clear(line: &mut Line) -> Result<Command, Problem> {
    let colour = line.read("a colour, six hexadecimal digits", three_bytes)?;
    let depth = if line.takes("far") {
        u16::MAX
    } else {
        line.number(0..=u16::MAX, "far or a depth from 0 to 65535")?
    };
    Ok(Command::Clear { colour, depth })
}

// A command of a picture of this size, where the text has so many textures before.
pub(crate) fn command(line: &mut Line, size: Size, textures: usize) -> Result<Command, Problem> {
    if line.takes("pen") {
        return pen(line, size, textures);
    }
    if line.takes("clear") {
        return clear(line);
    }
    if line.takes("show") {
        return Ok(Command::Show);
    }
    Err(line.wrong("texture (before all commands), pen, clear or show"))
}
