// What pictures are drawn on.
ghost use Rattle.codec.specs.Shows.{shows};
ghost use Rattle.codec.specs.Taken.{commands_of};
ghost use Rattle.reference.specs.Shows.{Room};

use codec::taken::TakenFile;

// A file that was taken, and lent memory that is enough for it: a picture, three bytes of colour and a depth for each dot, and the pictures that were shown.
#[derive(Drop)]
pub struct Canvas<'a> {
    pub file: TakenFile<'a>,
    pub colours: &'a mut [u8],
    pub depths: &'a mut [u16],
    pub shown: &'a mut [u8],
    ghost room: { Room file.summary.size (shows (commands_of file)) colours.now depths.now shown.now },
}
