// A list of commands as a file.
ghost use Rattle.std.specs.Prelude.{◌≡◌, ◌++◌, length, None, OnOk};
ghost use Rattle.codec.specs.File.{file_of};
ghost use Rattle.codec.specs.Writing.{part_images, instructions, refusal, Written};

use crate::part::TexturePart;
use crate::push::{push_commands, push_textures, push_word};
use crate::writable::judge;
use meaning::command::Command;
use meaning::state::Size;
use std::alloc::{AllocError, Global};
use std::error::Error;
use std::fmt;

// What is out of bounds, or that memory is wanting. A texture and a command go by their place, from 0.
#[derive(Clone, Copy, Debug, PartialEq, Eq)]
pub enum WriteError {
    Size,
    Textures,
    Texture(usize),
    Commands,
    Command(usize),
    Memory,
}

impl From<AllocError> for WriteError {
    ghost use Rattle.std.specs.Prelude.{◌≡◌};
    ghost use Rattle.codec.specs.declared.writer.WriteError.TheVariants.{Memory};

    ghost from_gives = { λ _ e. e ≡ Memory };

    fn from(_error: AllocError) -> WriteError {
        WriteError::Memory
    }
}

impl fmt::Display for WriteError {
    ghost use Rattle.std.specs.Prelude.{Some};
    ghost use Rattle.codec.specs.Messages.{write_error_text};

    ghost output = { λ e. Some (write_error_text e) };

    fn fmt<W: fmt::Write>(&self, f: &mut fmt::Formatter<W>) -> fmt::Result {
        f.write_str(match self {
            WriteError::Size => "a size is out of range",
            WriteError::Textures => "there are more than 64 textures",
            WriteError::Texture(_) => "a texture is out of range",
            WriteError::Commands => "there are more than 65535 commands",
            WriteError::Command(_) => "a command is out of range",
            WriteError::Memory => "there is not enough memory",
        })
    }
}

impl Error for WriteError {}

// The file behind what `out` has. All of it has been judged, so the casts lose nothing.
fn push_file(
    out: &mut Vec<u8>,
    size: Size,
    textures: &[TexturePart],
    dots: &[u8],
    commands: &[Command],
) -> Result<(), AllocError>
    requires { refusal size textures.now (length dots.now) commands.now ≡ None }
    ensures { OnOk result (out.new.items ≡ out.old.items ++ file_of size (part_images dots.now textures.now) (instructions commands.now)) }
{
    out.extend_from_slice(b"DOTS")?;
    push_word(out, size.width)?;
    push_word(out, size.height)?;
    out.push(textures.len() as u8)?;
    push_textures(out, textures, dots)?;
    push_word(out, commands.len() as u16)?;
    push_commands(out, commands)?;
    Ok(())
}

// Kept: the parts of a list as parameters. Only this function and `push_file` take all four, judging takes the length of `dots` alone; a struct of them would serve one call.
// The file of a list of commands, or why there is none. The dots of the textures are parts of `dots`.
pub fn write(
    heap: Global,
    size: Size,
    textures: &[TexturePart],
    dots: &[u8],
    commands: &[Command],
) -> Result<Vec<u8>, WriteError>
    ensures { Written size textures.now dots.now commands.now result }
{
    // All is judged before a byte is written.
    judge(size, textures, dots.len(), commands)?;
    let mut out = Vec::new(heap);
    push_file(&mut out, size, textures, dots, commands)?;
    Ok(out)
}
