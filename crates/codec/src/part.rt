// Textures whose dots lie among some bytes.
ghost use Rattle.std.specs.Prelude.{◌≡◌, ◌≤◌};
ghost use Rattle.codec.specs.Writing.{part_size, part_ok};

// Where a texture's dots begin among the bytes, its width and height as powers of two beside it.
// Kept: a place among the bytes and no slice of them, since a text is still adding bytes when it has made its first parts.
#[derive(Clone, Copy, Debug, PartialEq, Eq)]
pub struct TexturePart {
    pub across: u8,
    pub down: u8,
    pub start: usize,
}

impl TexturePart {
    // How many bytes its dots take. The powers are at most 8, so the shift loses nothing.
    pub(crate) fn size(self) -> usize
        requires { (self.across ≤ 8) × (self.down ≤ 8) }
        ensures { result ≡ part_size self }
    {
        4usize << (self.across + self.down)
    }

    // Whether the powers are in bounds and the dots lie within so many bytes.
    pub(crate) fn is_within(self, bytes: usize) -> bool
        ensures { result ≡ part_ok bytes self }
    {
        self.across <= 8
            && self.down <= 8
            && self.start <= bytes
            && self.size() <= bytes - self.start
    }
}
