// Memory as large as a file needs, all zero at first.
ghost use Rattle.std.specs.Prelude.{◌≡◌, replicate, IfOk};
ghost use Rattle.reference.specs.Made.{Made};

use crate::painter::Painter;
use codec::refusal::Refusal;
use reference::lengths::Lengths;
use std::alloc::{AllocError, Global};

#[derive(Drop)]
pub struct Memory {
    pub colours: Vec<u8>,
    pub depths: Vec<u16>,
    pub work: Vec<u32>,
    pub shown: Vec<u8>,
}

impl Memory {
    pub fn new(heap: Global, lengths: Lengths) -> Result<Memory, AllocError>
        ensures colours { IfOk result (λ m. m.colours.items ≡ replicate lengths.colours 0) }
        ensures depths { IfOk result (λ m. m.depths.items ≡ replicate lengths.depths 0) }
        ensures work { IfOk result (λ m. m.work.items ≡ replicate lengths.work 0) }
        ensures shown { IfOk result (λ m. m.shown.items ≡ replicate lengths.shown 0) }
    {
        Ok(Memory {
            colours: vec![in heap; 0; lengths.colours]?,
            depths: vec![in heap; 0; lengths.depths]?,
            work: vec![in heap; 0; lengths.work]?,
            shown: vec![in heap; 0; lengths.shown]?,
        })
    }

    // Lends all of it to have the pictures of a file made: how many are shown, or why there are none.
    pub fn paint<P: Painter>(&mut self, painter: &P, file: &[u8]) -> Result<usize, Refusal>
        ensures { Made file.now self.old.colours.items self.old.depths.items self.old.work.items self.old.shown.items result self.new.colours.items self.new.depths.items self.new.work.items self.new.shown.items }
    {
        let Memory {
            colours,
            depths,
            work,
            shown,
        } = self;
        painter.paint(file, colours, depths, work, shown)
    }
}
