// Codes of one byte.
ghost use Rattle.codec.specs.Judged.{judge};
ghost use Rattle.codec.specs.Reader.{Reads, as_it_is};
ghost use Rattle.codec.specs.Refusals.{owner_number};

use crate::owner::Owner;
use crate::reader::Reader;
use crate::refusal::Refusal;
use meaning::code::Coded;

impl Reader<'_> {
    // What the next byte is the code of; one that is no code is refused as its owner's numbers are.
    pub fn code<T: Coded + Drop>(&mut self, owner: Owner) -> Result<T, Refusal>
        ensures { Reads T.code (judge (owner_number owner) 1 as_it_is T.is_code) self.old result self.new }
    {
        let at = self.at;
        let [code] = self.array::<1>()?;
        T::try_from(code).or(Err(owner.refuse(at)))
    }
}
