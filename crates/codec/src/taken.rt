// A file that was judged and taken.
ghost use Rattle.codec.specs.Walk.{There};

use crate::summary::Summary;

// Its bytes, and what they have.
#[derive(Clone, Copy)]
pub struct TakenFile<'a> {
    pub bytes: &'a [u8],
    pub summary: Summary,
    ghost there: { There bytes.now summary },
}
