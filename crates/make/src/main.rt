// The pictures of a file, made tile by tile.
#![tactic(auto)]

use console::painter::Tiles;
use console::program::Program;
use std::env;
use std::process::ExitCode;

const HELP: &str =
    "make [--ppm NAME] FILE: prints the pictures of a file of drawing commands, made tile by tile.\n\
    FILE may be - for standard input. With --ppm the pictures are also written to NAME-1.ppm, NAME-2.ppm and so on.\n\
    A refused file prints 'refused N at P' and ends with status 1; docs/MEANING.md says what N and P are.";

const MAKE: Program<Tiles> = Program {
    name: "make",
    help: HELP,
    painter: Tiles,
};

// Whether the pictures were printed.
fn run(rt: &HostRuntime) -> anyhow::Result<bool> {
    let mut args = env::args(rt)?.skip(1);
    let first = args.next();
    if first.as_deref() == Some("--ppm") {
        let pictures = args.next();
        return MAKE.print(rt, args.next().as_deref(), pictures.as_deref());
    }
    MAKE.print(rt, first.as_deref(), None)
}

fn main(rt: HostRuntime) -> ExitCode {
    MAKE.finish(&rt, run(&rt))
}
