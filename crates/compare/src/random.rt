// Numbers that look random and are the same in every run.
ghost use Rattle.std.specs.Prelude.{◌<◌, ◌≤◌, length};

#[derive(Clone, Copy)]
pub struct Random {
    state: u64,
}

impl Random {
    pub(crate) fn new(seed: u64) -> Random {
        Random { state: seed }
    }

    // xorshift64
    fn next(&mut self) -> u64 {
        let mut x = self.state;
        x ^= (x << 13) & u64::MAX;
        x ^= x >> 7;
        x ^= (x << 17) & u64::MAX;
        self.state = x;
        x
    }

    // A number below a bound; 0 where the bound is 0.
    pub(crate) fn below(&mut self, bound: u16) -> u16
        ensures most { result ≤ bound }
        ensures below { 0 < bound → result < bound }
    {
        let x = self.next() >> 32;
        if bound == 0 {
            return 0;
        }
        (x % u64::from(bound)) as u16
    }

    // One of some values.
    pub(crate) fn pick<T: Copy>(&mut self, values: &[T]) -> T
        requires some { 0 < length values.now }
        requires few { length values.now < 65536 }
    {
        let many = values.len() as u16;
        values[usize::from(self.below(many))]
    }

    pub(crate) fn byte(&mut self) -> u8 {
        self.next().to_le_bytes()[5]
    }
}
