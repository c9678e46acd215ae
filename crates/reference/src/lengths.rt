// How long the lent memory is, or has to be.
ghost use Rattle.std.specs.Prelude.{◌≡◌, length};

// Bytes of colours, depths, words of work, and bytes for what is shown.
#[derive(Clone, Copy, Debug, PartialEq, Eq)]
pub struct Lengths {
    pub colours: usize,
    pub depths: usize,
    pub work: usize,
    pub shown: usize,
}

impl Lengths {
    pub fn of(colours: &[u8], depths: &[u16], work: &[u32], shown: &[u8]) -> Lengths
        ensures colours { result.colours ≡ length colours.now }
        ensures depths { result.depths ≡ length depths.now }
        ensures work { result.work ≡ length work.now }
        ensures shown { result.shown ≡ length shown.now }
    {
        Lengths {
            colours: colours.len(),
            depths: depths.len(),
            work: work.len(),
            shown: shown.len(),
        }
    }
}
