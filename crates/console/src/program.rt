// A program that prints the pictures of the file that it is given.
ghost use Rattle.std.specs.Prelude.{◌≡◌, true, cond, codes, IsNone, IfSome, IfOk, IsErr, MatchResult};
ghost use Rattle.std.specs.Process.{exit_status};

use crate::painter::Painter;
use crate::print::print_pictures;
use anyhow::{Context, bail};
use std::fs;
use std::io::Read;
use std::process::ExitCode;

#[derive(Drop)]
pub struct Program<P> {
    pub name: &'static str,
    pub help: &'static str,
    pub painter: P,
}

// The bytes of a file, or of standard input.
fn read_file(rt: &HostRuntime, name: &str) -> anyhow::Result<Vec<u8>> {
    if name == "-" {
        let mut bytes = Vec::new(rt.alloc());
        rt.stdin().read_to_end(&mut bytes)?;
        return Ok(bytes);
    }
    fs::read(rt, name).context("the file cannot be read")
}

impl<P: Painter> Program<P> {
    // Prints the pictures of a file, or the help that is asked for in its place; says whether it did, and not only why the file is refused.
    // Kept: a bool, since all that follows from it is the status of the program, and `finish` says which.
    pub fn print(
        &self,
        rt: &HostRuntime,
        file: Option<&str>,
        ppm: Option<&str>,
    ) -> anyhow::Result<bool>
        ensures none { IsNone file.entry → IsErr result }
        ensures help { IfSome file.entry (λ f. f.now ≡ codes "--help" → IfOk result (λ all. all ≡ true)) }
    {
        let Some(file) = file else {
            bail!("no file is named; {} --help says how", self.name);
        };
        if file == "--help" {
            rt.println(self.help)?;
            return Ok(true);
        }
        print_pictures(rt, &self.painter, &read_file(rt, file)?, ppm)
    }

    // Says what went wrong, if anything did. The status is 0 only where all was printed.
    pub fn finish(&self, rt: &HostRuntime, printed: anyhow::Result<bool>) -> ExitCode
        ensures { MatchResult printed (λ all. exit_status result ≡ cond all 0 1) (λ _. exit_status result ≡ 1) }
    {
        match printed {
            Ok(true) => ExitCode::SUCCESS,
            Ok(false) => ExitCode::FAILURE,
            Err(error) => {
                let _ = eprintln!(rt; "{}: {error:#}", self.name);
                ExitCode::FAILURE
            }
        }
    }
}
