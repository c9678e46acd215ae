// Prints the six example pictures, each dot computed by the functions of the meaning.
#![tactic(auto)]

use crate::table::{Example, LOOK, Step, alone, behind, pane, seam, shades, stripes};
use meaning::command::Command;
use meaning::state::{Dot, Size, State};

mod table;

// One dot through all steps, one after the other.
fn dot_at<const STEPS: usize>(example: &Example<STEPS>, i: u16, j: u16) -> Dot {
    let mut state = State::begin(example.size).obey(Command::Look(LOOK), i, j);
    for step in &example.steps {
        state = match step {
            Step::Command(command) => state.obey(*command, i, j),
            Step::Triangle(corners) => state.paint(example.texture, *corners, i, j),
        };
    }
    state.dot
}

// Kept: printing of its own. It stands on the meaning alone, so that no crate between has a say in what it prints.
fn print_picture<const STEPS: usize>(
    rt: &HostRuntime,
    example: &Example<STEPS>,
) -> anyhow::Result<()> {
    let Size { width, height } = example.size;
    println!(rt; "picture {width} {height}")?;
    for j in 0..height {
        for i in 0..width {
            let [r, g, b] = dot_at(example, i, j).colour;
            let gap = if i == 0 { "" } else { " " };
            print!(rt; "{gap}{r:02x}{g:02x}{b:02x}")?;
        }
        println!(rt; "")?;
    }
    Ok(())
}

fn main(rt: HostRuntime) -> anyhow::Result<()> {
    print_picture(&rt, &alone())?;
    print_picture(&rt, &seam())?;
    print_picture(&rt, &behind())?;
    print_picture(&rt, &pane())?;
    print_picture(&rt, &shades())?;
    print_picture(&rt, &stripes())
}
