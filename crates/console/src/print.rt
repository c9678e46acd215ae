// The pictures of a file on standard output.
ghost use Rattle.std.specs.Prelude.{◌≡◌, IfOk};
ghost use Rattle.codec.specs.Judged.{judged};
ghost use Rattle.codec.specs.Kinds.{built_yet};
ghost use Rattle.console.specs.Taken.{is_taken};

use crate::memory::Memory;
use crate::painter::Painter;
use anyhow::bail;
use meaning::state::Size;
use output::push_rows;
use reference::job::measure;
use std::fs;
use std::io::Write;

// One picture: its size, and its rows from the top.
fn print_picture(rt: &HostRuntime, size: Size, dots: &[u8]) -> anyhow::Result<()> {
    let Size { width, height } = size;
    println!(rt; "picture {width} {height}")?;
    let mut text = Vec::new(rt.alloc());
    push_rows(&mut text, size, dots)?;
    rt.stdout().write_all(&text)?;
    Ok(())
}

// The same picture as a file that picture viewers read, numbered from 1 on.
fn write_ppm(
    rt: &HostRuntime,
    name: &str,
    number: usize,
    size: Size,
    dots: &[u8],
) -> anyhow::Result<()> {
    let Size { width, height } = size;
    let path = format!(in rt.alloc(); "{name}-{number}.ppm")?;
    let mut bytes = format!(in rt.alloc(); "P6\n{width} {height}\n255\n")?.into_bytes();
    bytes.extend_from_slice(dots)?;
    fs::write(rt, path.as_str(), bytes.as_slice())?;
    Ok(())
}

// Has the pictures of a file made and prints them, or why it is refused; says whether it was taken.
// With a name for them the pictures are also written to files.
// Kept: a bool, since it answers one question, and the contract says which.
pub fn print_pictures<P: Painter>(
    rt: &HostRuntime,
    painter: &P,
    file: &[u8],
    ppm: Option<&str>,
) -> anyhow::Result<bool>
    ensures { IfOk result (λ b. b ≡ is_taken (judged built_yet file.now)) }
{
    let needs = match measure(file) {
        Ok(needs) => needs,
        Err(refusal) => {
            println!(rt; "{refusal}")?;
            return Ok(false);
        }
    };
    let Ok(mut memory) = Memory::new(rt.alloc(), needs.lengths) else {
        bail!("there is not enough memory for the pictures");
    };
    let _ = memory.paint(painter, file).unwrap();
    let size = needs.summary.size;
    for (k, dots) in memory.shown.chunks(needs.lengths.colours).enumerate() {
        print_picture(rt, size, dots)?;
        if let Some(name) = ppm {
            write_ppm(rt, name, k + 1, size, dots)?;
        }
    }
    Ok(true)
}
