// What a text has said so far.
use crate::command::command;
use crate::line::Line;
use crate::problem::Problem;
use crate::word::{four_bytes, power};
use codec::part::TexturePart;
use meaning::command::Command;
use meaning::state::Size;
use std::alloc::Global;

const SIDE: &str = "a texture's side, a power of two from 1 to 256";

pub(crate) const NO_SIZE: &str = "size, a width and a height";

const LACKS_DOTS: &str = "dots, since the texture above lacks some";

#[derive(Drop)]
pub struct Draft {
    pub size: Size,
    pub textures: Vec<TexturePart>,
    pub dots: Vec<u8>,
    pub commands: Vec<Command>,
    // how many dots the last texture still lacks
    missing: u32,
}

// The first line.
pub(crate) fn read_size(line: &mut Line) -> Result<Size, Problem> {
    if !line.takes("size") {
        return Err(line.wrong(NO_SIZE));
    }
    let width = line.number(1..=1024, "a width from 1 to 1024")?;
    let height = line.number(1..=1024, "a height from 1 to 1024")?;
    line.end()?;
    Ok(Size { width, height })
}

impl Draft {
    pub(crate) fn new(heap: Global, size: Size) -> Draft {
        Draft {
            size,
            textures: Vec::new(heap),
            dots: Vec::new(heap),
            commands: Vec::new(heap),
            missing: 0,
        }
    }

    // One line behind the size.
    pub(crate) fn read(&mut self, line: &mut Line) -> Result<(), Problem> {
        if self.missing > 0 {
            self.read_dots(line)?;
        } else if self.commands.is_empty() && line.takes("texture") {
            self.read_texture(line)?;
        } else {
            self.read_command(line)?;
        }
        line.end()
    }

    // The text ends at a line behind its last one.
    pub(crate) fn end(&self, line: &Line) -> Result<(), Problem> {
        if self.missing > 0 {
            return Err(line.wrong(LACKS_DOTS));
        }
        Ok(())
    }

    fn read_texture(&mut self, line: &mut Line) -> Result<(), Problem> {
        if self.textures.len() >= 64 {
            return Err(line.too_many("at most 64 textures"));
        }
        let across = line.read(SIDE, power)?;
        let down = line.read(SIDE, power)?;
        self.textures.push(TexturePart {
            across,
            down,
            start: self.dots.len(),
        })?;
        self.missing = 1 << (across + down);
        Ok(())
    }

    fn read_dots(&mut self, line: &mut Line) -> Result<(), Problem> {
        if !line.takes("dots") {
            return Err(line.wrong(LACKS_DOTS));
        }
        for left in (0..self.missing).rev() {
            if line.is_empty() {
                break;
            }
            let dot = line.read("a dot, eight hexadecimal digits", four_bytes)?;
            self.dots.extend_from_slice(&dot)?;
            self.missing = left;
        }
        Ok(())
    }

    fn read_command(&mut self, line: &mut Line) -> Result<(), Problem> {
        let command = command(line, self.size, self.textures.len())?;
        if self.commands.len() >= 65_535 {
            return Err(line.too_many("at most 65535 commands"));
        }
        self.commands.push(command)?;
        Ok(())
    }
}
