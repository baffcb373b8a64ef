//! A range of integers, whose ends may move as a run goes on.

ghost use Rattle.std.specs.Prelude.{◌≡◌, ℕ, ℤ, IsTrue};
ghost use Rattle.ctd_value.specs.Arithmetic.{is_value};
ghost use Rattle.ctd_range.specs.calls.Ranges.{IsIn};

/// The integers from `low + rise * n` to `high - fall * n`, where `n` steps are left. So the ends move apart as steps are paid, and never lie
/// outside `low..=high`.
#[derive(Clone, Copy)]
pub struct Range {
    pub low: i128,
    pub high: i128,
    pub rise: u64,
    pub fall: u64,
}

/// The range of all values.
pub(crate) fn every_value() -> Range
    ensures every { (n : ℕ) (x : ℤ) → IsTrue (is_value x) → IsIn result n x }
{
    Range {
        low: i128::MIN,
        high: i128::MAX,
        rise: 0,
        fall: 0,
    }
}
