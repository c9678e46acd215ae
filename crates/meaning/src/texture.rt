// Textures, as parts of the file, and their dots.
ghost use Rattle.std.specs.Prelude.{◌≡◌, Some, slice_index};
ghost use Rattle.meaning.specs.Textures.{image_of, image_if, texels};

use std::array;

// Its width and height as powers of two, at most 8, and its dots by rows, four bytes each, where they lie in the file.
#[derive(Clone, Copy)]
pub struct Texture<'a> {
    pub across: u8,
    pub down: u8,
    pub dots: &'a [u8],
}

// A byte of a texture's dots, 0 beyond their end.
fn byte_at(dots: &[u8], at: usize) -> u8
    ensures { result ≡ slice_index dots.now at }
{
    dots.get(at).copied().unwrap_or(0)
}

impl Texture<'_> {
    // The dot at u, v, which have 256 to a dot; beyond the edge the texture begins again.
    pub fn texel(self, u: u16, v: u16) -> [u8; 4]
        ensures { result ≡ texels (Some (image_of self.entry)) u v }
    {
        let width = 1usize << self.across.min(8);
        let height = 1usize << self.down.min(8);
        let column = usize::from(u / 256) % width;
        let row = usize::from(v / 256) % height;
        let at = 4 * (row * width + column);
        array::from_fn(|k| byte_at(self.dots, at + k))
    }
}

// The texture's dot, or 255 everywhere where there is no texture.
pub fn sample(texture: Option<Texture<'_>>, u: u16, v: u16) -> [u8; 4]
    ensures { result ≡ texels (image_if texture.entry) u v }
{
    match texture {
        Some(texture) => texture.texel(u, v),
        None => [255; 4],
    }
}
