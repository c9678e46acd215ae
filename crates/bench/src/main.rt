// Times the maker: the best of several calls on one file, and how much of a call is judging.
#![tactic(auto)]

use anyhow::bail;
use console::memory::Memory;
use console::painter::Tiles;
use reference::job::measure;
use std::time::{Duration, Instant};
use std::{env, fs};

const HELP: &str =
    "bench FILE [FRAMES] [--out PICTURES]: makes the pictures of a file FRAMES times (5 if not said) over the same memory.\n\
    It prints the best time of a call, the best of judging the file alone, and the difference, which is painting, in microseconds.\n\
    With --out the bytes of the pictures shown are written, one after another.";

#[derive(Drop)]
struct Options {
    file: String,
    frames: u32,
    out: Option<String>,
}

// What is asked for, or nothing where no file is named.
fn read_options(rt: &HostRuntime) -> anyhow::Result<Option<Options>> {
    let mut args = env::args(rt)?.skip(1);
    let Some(file) = args.next() else {
        return Ok(None);
    };
    let mut frames = 5;
    let mut out = None;
    // Kept: FRAMES and --out come in either order, and what lies behind the two was never read; no parser of options says that in fewer lines.
    for _ in 0..2 {
        let Some(word) = args.next() else {
            break;
        };
        if word.as_str() == "--out" {
            out = args.next();
        } else {
            frames = word.as_str().parse::<u32>()?;
        }
    }
    Ok(Some(Options { file, frames, out }))
}

// What a task gives, and how long it takes.
fn timed<T: Drop, F: FnOnce() -> T>(rt: &HostRuntime, task: F) -> anyhow::Result<(T, Duration)>
    requires { F.IsAlwaysCallable task }
{
    let start = Instant::now(rt)?;
    let value = task();
    Ok((value, start.elapsed(rt)?))
}

fn main(rt: HostRuntime) -> anyhow::Result<()> {
    let Some(options) = read_options(&rt)? else {
        rt.println(HELP)?;
        return Ok(());
    };
    let file = fs::read(&rt, options.file.as_str())?;
    let Ok(needs) = measure(&file) else {
        bail!("the file is refused; make says why");
    };
    let mut memory = Memory::new(rt.alloc(), needs.lengths)?;
    let mut making = Duration::MAX;
    let mut judging = Duration::MAX;
    for _ in 0..options.frames.max(1) {
        let (made, time) = timed(&rt, || memory.paint(&Tiles, &file))?;
        making = making.min(time);
        let (judged, time) = timed(&rt, || measure(&file))?;
        judging = judging.min(time);
        // Kept: is_err and no unwrap, since `timed` promises nothing of what its task gives.
        if made.is_err() || judged.is_err() {
            bail!("the file is refused; make says why");
        }
    }
    if let Some(name) = &options.out {
        fs::write(&rt, name.as_str(), memory.shown.as_slice())?;
    }
    let make = making.as_micros();
    let judge = judging.as_micros();
    let paint = making.saturating_sub(judging).as_micros();
    println!(rt; "make {make}\njudge {judge}\npaint {paint}")?;
    Ok(())
}
