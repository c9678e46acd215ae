// Whether a list of commands is in bounds, so that it can be written as a file.
ghost use Rattle.std.specs.Prelude.{◌≡◌, IsOk, None};
ghost use Rattle.std.specs.List.{AllByRecursion};
ghost use Rattle.std.specs.Result.{result_err};
ghost use Rattle.codec.specs.Writing.{size_ok, part_ok, frame_ok, command_ok, Typed, first_not, refusal};

use crate::part::TexturePart;
use crate::writer::WriteError;
use meaning::command::Command;
use meaning::pen::Frame;
use meaning::state::Size;

fn is_size(size: Size) -> bool
    ensures { result ≡ size_ok size }
{
    (1..=1024).contains(&size.width) && (1..=1024).contains(&size.height)
}

fn is_frame(frame: Frame, size: Size) -> bool
    ensures { result ≡ frame_ok size frame }
{
    (frame.left..=size.width).contains(&frame.right)
        && (frame.top..=size.height).contains(&frame.bottom)
}

// Whether the command can be written, beside so many textures. What its type says of it lasts in the second promise.
fn is_command(command: Command, size: Size, textures: usize) -> bool
    ensures value { result ≡ command_ok size textures command }
    ensures typed { Typed command }
{
    match command {
        Command::Pen(pen) => usize::from(pen.texture) <= textures && is_frame(pen.frame, size),
        Command::Clear { .. } | Command::Show => true,
        Command::Look(_) | Command::Triangles(_) => false,
    }
}

// The first texture that is out of bounds.
fn bad_texture(textures: &[TexturePart], bytes: usize) -> Option<usize>
    ensures { result ≡ first_not (part_ok bytes) textures.now }
{
    textures.iter().position(|part| !part.is_within(bytes))
}

// The first command that cannot be written.
fn bad_command(commands: &[Command], size: Size, textures: usize) -> Option<usize>
    ensures value { result ≡ first_not (command_ok size textures) commands.now }
    ensures typed { result ≡ None → AllByRecursion Typed commands.now }
{
    commands
        .iter()
        .position(|command| !is_command(*command, size, textures))
}

// Whether there is a file, or why there is none. The dots of the textures lie in so many bytes.
#[tactic(auto, unfolding(crate::specs::Writing::refusal))]
pub(crate) fn judge(
    size: Size,
    textures: &[TexturePart],
    bytes: usize,
    commands: &[Command],
) -> Result<(), WriteError>
    ensures value { result_err result ≡ refusal size textures.now bytes commands.now }
    ensures typed { IsOk result → AllByRecursion Typed commands.now }
{
    if !is_size(size) {
        return Err(WriteError::Size);
    }
    if textures.len() > 64 {
        return Err(WriteError::Textures);
    }
    if let Some(k) = bad_texture(textures, bytes) {
        return Err(WriteError::Texture(k));
    }
    if commands.len() > 65_535 {
        return Err(WriteError::Commands);
    }
    if let Some(k) = bad_command(commands, size, textures.len()) {
        return Err(WriteError::Command(k));
    }
    Ok(())
}
