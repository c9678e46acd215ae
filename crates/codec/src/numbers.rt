// Numbers from least to most, each judged when all its bytes are there.
ghost use Rattle.std.specs.Prelude.{◌≡◌, ℕ, ◌≤◌, ◌&&◌, nat_le, Some, IfOk};
ghost use Rattle.std.specs.Ordering.{nat_cmp};
ghost use Rattle.std.proofs.Common.{rules};
ghost use Rattle.codec.specs.Judged.{value, number, within, whole_number};
ghost use Rattle.codec.specs.Reader.{Reads, as_it_is};
ghost use Rattle.codec.specs.Refusals.{owner_number};

use crate::owner::Owner;
use crate::reader::Reader;
use crate::refusal::Refusal;

// A type of numbers without sign that take N bytes, the low one first.
// Kept: each `impl` repeats the clause of `from_bytes`; without it the check states none for an array of the type's own length.
pub trait Number<const N: usize>: Copy + PartialOrd {
    ghost worth: { Self → ℕ };

    fn from_bytes(bytes: [u8; N]) -> Self
        ensures { worth result ≡ value bytes.entry };

    ghost narrow: { N ≤ 8 };

    ghost ordered: { (a b : Self) → Self.partial_cmp a b ≡ Some (nat_cmp (worth a) (worth b)) };

    final fn is_between(self, least: Self, most: Self) -> bool
        ensures { result ≡ (nat_le (worth least) (worth self) && nat_le (worth self) (worth most)) }
    {
        // Kept: two comparisons; a range would want more of `T` than an order.
        least <= self && self <= most
    }
}

impl Number<1> for u8 {
    ghost worth = { λ v. v };

    ghost narrow = { Prim.search rules };

    ghost ordered = { Prim.search rules };

    #[tactic(auto, using(crate::proofs::Judging::value_one))]
    fn from_bytes(bytes: [u8; 1]) -> u8
        ensures { result ≡ value bytes }
    {
        u8::from_le_bytes(bytes)
    }
}

impl Number<2> for u16 {
    ghost worth = { λ v. v };

    ghost narrow = { Prim.search rules };

    ghost ordered = { Prim.search rules };

    #[tactic(auto, using(crate::proofs::Judging::value_two))]
    fn from_bytes(bytes: [u8; 2]) -> u16
        ensures { result ≡ value bytes }
    {
        u16::from_le_bytes(bytes)
    }
}

impl Number<4> for u32 {
    ghost worth = { λ v. v };

    ghost narrow = { Prim.search rules };

    ghost ordered = { Prim.search rules };

    #[tactic(auto, using(crate::proofs::Judging::value_four))]
    fn from_bytes(bytes: [u8; 4]) -> u32
        ensures { result ≡ value bytes }
    {
        u32::from_le_bytes(bytes)
    }
}

// Whether a number is from -bound to bound - 1.
fn is_within(number: i32, bound: u32) -> bool
    ensures { result ≡ within bound number }
{
    let bound = i64::from(bound);
    (-bound..bound).contains(&i64::from(number))
}

impl Reader<'_> {
    // A number from least to most; one out of range is refused as its owner's numbers are.
    pub fn number<T: Number<N>, const N: usize>(
        &mut self,
        owner: Owner,
        least: T,
        most: T,
    ) -> Result<T, Refusal>
        ensures reads { Reads T.worth (number (owner_number owner) N (T.worth least) (T.worth most)) self.old result self.new }
        ensures within { IfOk result (λ v. (T.worth least ≤ T.worth v) × (T.worth v ≤ T.worth most)) }
    {
        let at = self.at;
        let value = T::from_bytes(self.array()?);
        if !value.is_between(least, most) {
            return Err(owner.refuse(at));
        }
        Ok(value)
    }

    // A number with sign of four bytes, from -bound to bound - 1.
    pub fn whole(&mut self, bound: u32) -> Result<i32, Refusal>
        ensures { Reads as_it_is (whole_number bound) self.old result self.new }
    {
        let at = self.at;
        let bytes = self.array::<4>()?;
        let value = i32::from_le_bytes(bytes);
        if !is_within(value, bound) {
            return Err(Refusal::Number(at));
        }
        Ok(value)
    }
}
