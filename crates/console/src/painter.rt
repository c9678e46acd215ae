// Whatever makes the pictures of a file.
ghost use Rattle.reference.specs.Made.{Made};

use codec::refusal::Refusal;

pub trait Painter {
    fn paint(
        &self,
        file: &[u8],
        colours: &mut [u8],
        depths: &mut [u16],
        work: &mut [u32],
        shown: &mut [u8],
    ) -> Result<usize, Refusal>
        ensures { Made file.now colours.old depths.old work.old shown.old result colours.new depths.new work.new shown.new };
}

// By the plain meaning: for each dot all commands, one after the other.
#[derive(Clone, Copy)]
pub struct Meaning;

impl Painter for Meaning {
    fn paint(
        &self,
        file: &[u8],
        colours: &mut [u8],
        depths: &mut [u16],
        work: &mut [u32],
        shown: &mut [u8],
    ) -> Result<usize, Refusal> {
        reference::mean(file, colours, depths, work, shown)
    }
}

// Tile by tile.
#[derive(Clone, Copy)]
pub struct Tiles;

impl Painter for Tiles {
    fn paint(
        &self,
        file: &[u8],
        colours: &mut [u8],
        depths: &mut [u16],
        work: &mut [u32],
        shown: &mut [u8],
    ) -> Result<usize, Refusal> {
        maker::make(file, colours, depths, work, shown)
    }
}
