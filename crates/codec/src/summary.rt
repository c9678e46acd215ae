// What a file that is taken has, and where its commands begin.
use meaning::state::Size;

#[derive(Clone, Copy)]
pub struct Summary {
    pub size: Size,
    pub textures: u8,
    pub commands: u16,
    pub start: usize,
}
