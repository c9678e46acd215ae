// What a triangle is painted with.
use crate::pen::Pen;
use crate::texture::Texture;

// A pen, and the texture that it names.
#[derive(Clone, Copy)]
pub struct Brush<'a> {
    pub pen: Pen,
    pub texture: Option<Texture<'a>>,
}
