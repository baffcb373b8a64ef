//! The numbers of programs.

ghost use Rattle.std.specs.Int.{w64};
ghost use Rattle.std.specs.Prelude.{◌≡◌, true, FitsSigned};

use std::marker::Model;

/// A number of a program, which contracts see as an integer. It stands in two halves, since a tree would have to keep more room free around a
/// number of 128 bits in one.
#[derive(Drop)]
pub struct Numeral {
    high: i64,
    low: u64,
}

/// How many values the lower half has.
const HALF: i128 = 1 << 64;

/// What the lower half of a number of 64 bits stays below, where the number is not below 0.
const SIGN: u64 = 1 << 63;

impl Model for Numeral {
    ghost use Rattle.std.specs.Prelude.{ℤ, pos, ◌+ℤ◌, ◌*ℤ◌, ◌^◌};

    ghost Value = { ℤ };

    ghost view = { λ n. n.high *ℤ pos (2 ^ 64) +ℤ pos n.low };
}

impl Numeral {
    /// The numeral of a number.
    pub fn new(n: i128) -> Numeral
        ensures same { result ≡ n }
    {
        Numeral {
            high: n.div_euclid(HALF) as i64,
            low: n.rem_euclid(HALF) as u64,
        }
    }

    /// Whether its number has 64 bits.
    #[inline(always)]
    pub fn is_narrow(&self) -> bool
        ensures fits { result ≡ true → FitsSigned w64 self.now }
        ensures all { FitsSigned w64 self.now → result ≡ true }
    {
        let sign = if self.low < SIGN { 0 } else { -1 };
        self.high == sign
    }

    /// Its number of 64 bits.
    #[inline(always)]
    pub fn narrow(&self) -> i64
        requires { FitsSigned w64 self.now }
        ensures { result ≡ self.now }
    {
        self.value() as i64
    }

    /// Its number.
    #[inline(always)]
    pub fn value(&self) -> i128
        ensures same { result ≡ self.now }
    {
        self.high as i128 * HALF + self.low as i128
    }
}
