// What a number of a file belongs to: that decides how one out of range is refused.
ghost use Rattle.std.specs.Prelude.{◌≡◌};
ghost use Rattle.codec.specs.Refusals.{owner_number, refusal_number, refusal_place};

use crate::refusal::Refusal;

// Kept: an enum and no function that makes the refusal, of which each reader's contract would have to say which number and which place it gives.
#[derive(Clone, Copy, Debug, PartialEq, Eq)]
pub enum Owner {
    File,
    Kind,
    Command,
}

impl Owner {
    // The refusal of a number that begins at this place.
    pub fn refuse(self, at: usize) -> Refusal
        ensures number { refusal_number result ≡ owner_number self }
        ensures place { refusal_place result ≡ at }
    {
        match self {
            Owner::File => Refusal::Range(at),
            Owner::Kind => Refusal::Kind(at),
            Owner::Command => Refusal::Number(at),
        }
    }
}
