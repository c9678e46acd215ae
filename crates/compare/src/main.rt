// Makes random files with a fixed seed, has their pictures made tile by tile and dot by dot, and compares what both leave of the picture and of what is shown.
#![tactic(auto)]

use crate::random::Random;
use anyhow::bail;
use codec::part::TexturePart;
use codec::writer::write;
use console::memory::Memory;
use console::painter::{Meaning, Painter, Tiles};
use meaning::command::Command;
use meaning::pen::{Frame, Mix, Pen, Test};
use meaning::state::Size;
use reference::job::measure;
use std::alloc::Global;
use std::array;

mod random;

const FILES: u32 = 1000;

// One texture of 2 by 1 dots, which pens may name.
const TEXTURES: [TexturePart; 1] = [TexturePart {
    across: 1,
    down: 0,
    start: 0,
}];

const DOTS: [u8; 8] = [255, 0, 0, 255, 0, 0, 255, 255];

fn random_size(random: &mut Random) -> Size {
    Size {
        width: 1 + random.below(40),
        height: 1 + random.below(40),
    }
}

fn random_frame(random: &mut Random, size: Size) -> Frame {
    let left = random.below(size.width);
    let top = random.below(size.height);
    let right = left
        .saturating_add(random.below(size.width))
        .min(size.width);
    let bottom = top
        .saturating_add(random.below(size.height))
        .min(size.height);
    Frame {
        left,
        top,
        right,
        bottom,
    }
}

fn random_pen(random: &mut Random, size: Size) -> Pen {
    let tests = [
        Test::Always,
        Test::Less,
        Test::LessOrEqual,
        Test::Equal,
        Test::Never,
    ];
    Pen {
        test: random.pick(&tests),
        mix: random.pick(&[Mix::Replace, Mix::Blend, Mix::Add]),
        texture: random.pick(&[0, 1]),
        keeps: random.pick(&[true, false]),
        frame: random_frame(random, size),
    }
}

fn random_command(random: &mut Random, size: Size) -> Command {
    match random.below(4) {
        0 => Command::Pen(random_pen(random, size)),
        1 => Command::Show,
        _ => {
            let colour = array::from_fn(|_| random.byte());
            Command::Clear {
                colour,
                depth: random.below(65_535),
            }
        }
    }
}

// A file of up to twenty commands.
fn random_file(heap: Global, random: &mut Random) -> anyhow::Result<Vec<u8>> {
    let size = random_size(random);
    let mut commands = Vec::new(heap);
    for _ in 0..random.below(21) {
        commands.push(random_command(random, size))?;
    }
    let Ok(file) = write(heap, size, &TEXTURES, &DOTS, &commands) else {
        bail!("a random file could not be written");
    };
    Ok(file)
}

// What a painter makes of a file; what it leaves in the work is its own.
#[derive(PartialEq, Drop)]
struct Painting {
    pictures: usize,
    colours: Vec<u8>,
    depths: Vec<u16>,
    shown: Vec<u8>,
}

fn paint<P: Painter>(heap: Global, painter: &P, file: &[u8]) -> anyhow::Result<Painting> {
    let Ok(needs) = measure(file) else {
        bail!("a random file is refused");
    };
    let mut memory = Memory::new(heap, needs.lengths)?;
    let pictures = memory.paint(painter, file).unwrap();
    let Memory {
        colours,
        depths,
        shown,
        ..
    } = memory;
    Ok(Painting {
        pictures,
        colours,
        depths,
        shown,
    })
}

fn main(rt: HostRuntime) -> anyhow::Result<()> {
    let mut random = Random::new(20_261_118);
    let mut total = 0usize;
    let mut different = 0usize;
    for _ in 0..FILES {
        let file = random_file(rt.alloc(), &mut random)?;
        let made = paint(rt.alloc(), &Tiles, &file)?;
        let meant = paint(rt.alloc(), &Meaning, &file)?;
        if made == meant {
            total = total.saturating_add(made.pictures);
        } else {
            different = different.saturating_add(1);
        }
    }
    let any = total > 1000;
    println!(rt; "{FILES} files, more than 1000 pictures: {any}, files that differ: {different}")?;
    Ok(())
}
