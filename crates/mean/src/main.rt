// The pictures of a file by the plain meaning: for each dot all commands, one after the other.
#![tactic(auto)]

use console::painter::Meaning;
use console::program::Program;
use std::env;
use std::process::ExitCode;

const HELP: &str =
    "mean FILE: prints the pictures of a file of drawing commands, computed dot by dot by their plain meaning.\n\
    FILE may be - for standard input.\n\
    A refused file prints 'refused N at P' and ends with status 1; docs/MEANING.md says what N and P are.";

const MEAN: Program<Meaning> = Program {
    name: "mean",
    help: HELP,
    painter: Meaning,
};

// Whether the pictures were printed.
fn run(rt: &HostRuntime) -> anyhow::Result<bool> {
    let file = env::args(rt)?.nth(1);
    MEAN.print(rt, file.as_deref(), None)
}

fn main(rt: HostRuntime) -> ExitCode {
    MEAN.finish(&rt, run(&rt))
}
