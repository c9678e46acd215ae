// Whole numbers with sign: products, sums and differences at twice the width, so that none can overflow, and quotients rounded down.
#![tactic(auto)]

ghost use Rattle.std.specs.Prelude.{◌≡◌, ℕ, ◌+◌, ◌*◌, ◌<◌, ◌≤◌, ℤ, pos, ◌+ℤ◌, ◌-ℤ◌, ◌*ℤ◌, MatchOption};
ghost use Rattle.std.specs.Int.Signed.{mag};
ghost use Rattle.fixed_point.specs.Whole.{down, RoundsDown};

pub fn product(a: i64, b: i64) -> i128
    ensures value { result ≡ a *ℤ b }
    ensures bound { (m n : ℕ) → mag a < m → mag b < n → mag result ≤ m * n }
{
    i128::from(a) * i128::from(b)
}

pub fn sum(a: i64, b: i64) -> i128
    ensures value { result ≡ a +ℤ b }
    ensures bound { (m n : ℕ) → mag a < m → mag b < n → mag result < m + n }
{
    i128::from(a) + i128::from(b)
}

pub fn difference(a: i32, b: i32) -> i64
    ensures value { result ≡ a -ℤ b }
    ensures bound { (m n : ℕ) → mag a < m → mag b < n → mag result < m + n }
{
    i64::from(a) - i64::from(b)
}

// A number that can be divided by one of 32 bits.
pub trait Dividend: Copy {
    // The whole number that it is.
    ghost whole: { Self → ℤ };

    // Over `n`, rounded down.
    fn over(self, n: u32) -> Self
        requires { 0 < n }
        ensures { whole result ≡ down (whole self) n };
}

impl Dividend for i64 {
    ghost whole = { λ a. a };

    fn over(self, n: u32) -> i64 {
        self.div_euclid(i64::from(n))
    }
}

// One that fits 64 bits, as nearly all do, is divided there, which is many times faster.
impl Dividend for i128 {
    ghost whole = { λ a. a };

    fn over(self, n: u32) -> i128 {
        match i64::try_from(self) {
            Ok(narrow) => i128::from(narrow.over(n)),
            Err(_) => self.div_euclid(i128::from(n)),
        }
    }
}

// `a` over `n`, rounded down; nothing where `n` is 0.
pub fn quotient<T: Dividend>(a: T, n: u32) -> Option<T>
    ensures value { MatchOption result (n ≡ 0) (λ q. (0 < n) × (T.whole q ≡ down (T.whole a) n)) }
    ensures rounds { MatchOption result (n ≡ 0) (λ q. RoundsDown (T.whole a) n (T.whole q)) }
{
    if n == 0 {
        return None;
    }
    Some(a.over(n))
}

// The whole part of a number with sixteen fraction bits, rounded down.
pub fn floor(a: i128) -> i128
    ensures { result ≡ down a 65536 }
{
    a >> 16
}
