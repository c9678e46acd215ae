// Makes a file of drawing commands from a text.
#![tactic(auto)]

use crate::parse::parse;
use crate::problem::Problem;
use anyhow::bail;
use codec::writer::{WriteError, write};
use std::io::{Read, Write};
use std::process::ExitCode;
use std::{env, fs};

mod command;
mod draft;
mod line;
mod parse;
mod problem;
mod word;

const HELP: &str = "write TEXT FILE: makes a file of drawing commands from a text.\n\
    TEXT may be - for standard input, FILE may be - for standard output.\n\
    The form of the text is in docs/TEXT.md. Nothing is written where the text has an error.";

fn read_text(rt: &HostRuntime, name: &str) -> anyhow::Result<String> {
    if name == "-" {
        let mut text = String::new(rt.alloc());
        rt.stdin().read_to_string(&mut text)?;
        return Ok(text);
    }
    Ok(fs::read_to_string(rt, name)?)
}

fn write_file(rt: &HostRuntime, name: &str, bytes: &[u8]) -> anyhow::Result<()> {
    if name == "-" {
        rt.stdout().write_all(bytes)?;
        return Ok(());
    }
    fs::write(rt, name, bytes)?;
    Ok(())
}

fn run(rt: &HostRuntime) -> anyhow::Result<()> {
    let mut args = env::args(rt)?.skip(1);
    let Some(from) = args.next() else {
        bail!("no text is named; write --help says how");
    };
    if from.as_str() == "--help" {
        rt.println(HELP)?;
        return Ok(());
    }
    let Some(to) = args.next() else {
        bail!("no file is named; write --help says how");
    };
    let text = read_text(rt, from.as_str())?;
    let draft = match parse(rt.alloc(), text.as_str()) {
        Ok(draft) => draft,
        Err(Problem::Text(error)) => {
            eprintln!(rt; "write: {error}")?;
            bail!("nothing was written");
        }
        Err(Problem::Memory) => return Err(WriteError::Memory.into()),
    };
    let file = write(
        rt.alloc(),
        draft.size,
        &draft.textures,
        &draft.dots,
        &draft.commands,
    )?;
    write_file(rt, to.as_str(), &file)
}

// Says what went wrong; where no file was written the status is 1.
fn main(rt: HostRuntime) -> ExitCode {
    match run(&rt) {
        Ok(()) => ExitCode::SUCCESS,
        Err(error) => {
            let _ = eprintln!(rt; "write: {error}");
            ExitCode::FAILURE
        }
    }
}
