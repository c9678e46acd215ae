// A file, and how far it was read.
ghost use Rattle.std.specs.Prelude.{◌≤◌, length};

// Kept: all bytes and how far they were read, and not what is left: a refusal names the place in the file.
#[derive(Drop)]
pub struct Reader<'a> {
    pub bytes: &'a [u8],
    pub at: usize,
    ghost inside: { at ≤ length bytes.now },
}
