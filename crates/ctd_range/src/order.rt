//! The range of numbers that compare so; and which ranges lie in others.

ghost use Rattle.std.specs.Prelude.{◌≡◌, ◌≢◌, ◌≤◌, ◌<◌, ◌^◌, ◌+◌, ◌*◌, suc, ℕ, ℤ, pos, ◌+ℤ◌, ◌≤ℤ◌, ◌<ℤ◌, ◌⊎◌, IsTrue, true, IfSome, OnSome};
ghost use Rattle.ctd_range.specs.calls.Ranges.{IsIn};

use crate::range::Range;

/// The numbers of a range below this end.
pub fn with_high(a: Range, high: i128, fall: u64) -> Range
    ensures { (n : ℕ) (x : ℤ) → (x +ℤ pos (fall * n)) ≤ℤ high → IsIn a n x → IsIn result n x }
{
    if high < a.high {
        Range { high, fall, ..a }
    } else {
        a
    }
}

/// The numbers of a range above this end.
pub fn with_low(a: Range, low: i128, rise: u64) -> Range
    ensures { (n : ℕ) (x : ℤ) → (low +ℤ pos (rise * n)) ≤ℤ x → IsIn a n x → IsIn result n x }
{
    if low > a.low {
        Range { low, rise, ..a }
    } else {
        a
    }
}

/// The range of a number that is at most one of another range.
pub(crate) fn at_most(a: Range, b: Range) -> Range
    ensures refines { (n : ℕ) (x y : ℤ) → x ≤ℤ y → IsIn a n x → IsIn b n y → IsIn result n x }
{
    if b.high < a.high {
        Range {
            high: b.high,
            fall: b.fall,
            ..a
        }
    } else {
        a
    }
}

/// The range of a number that is at least one of another range.
pub(crate) fn at_least(a: Range, b: Range) -> Range
    ensures refines { (n : ℕ) (x y : ℤ) → y ≤ℤ x → IsIn a n x → IsIn b n y → IsIn result n x }
{
    if b.low > a.low {
        Range {
            low: b.low,
            rise: b.rise,
            ..a
        }
    } else {
        a
    }
}

/// The range of a number that is less than one of another range.
pub fn less(a: Range, b: Range) -> Range
    ensures refines { (n : ℕ) (x y : ℤ) → x <ℤ y → IsIn a n x → IsIn b n y → IsIn result n x }
{
    match b.high.checked_sub(1) {
        Some(high) => with_high(a, high, b.fall),
        None => a,
    }
}

/// The range of a number that is greater than one of another range.
pub(crate) fn greater(a: Range, b: Range) -> Range
    ensures refines { (n : ℕ) (x y : ℤ) → y <ℤ x → IsIn a n x → IsIn b n y → IsIn result n x }
{
    match b.low.checked_add(1) {
        Some(low) => with_low(a, low, b.rise),
        None => a,
    }
}

/// The range of a number that is one of another range.
pub(crate) fn same(a: Range, b: Range) -> Range
    ensures refines { (n : ℕ) (x : ℤ) → IsIn a n x → IsIn b n x → IsIn result n x }
{
    at_least(at_most(a, b), b)
}

/// The numbers of a range above its lower end.
fn above_end(a: Range) -> Range
    ensures { (n : ℕ) (x : ℤ) → x ≢ a.low → IsIn a n x → IsIn result n x }
{
    match a.low.checked_add(1) {
        Some(low) => Range { low, rise: 0, ..a },
        None => a,
    }
}

/// The numbers of a range below its upper end.
fn below_end(a: Range) -> Range
    ensures { (n : ℕ) (x : ℤ) → x ≢ a.high → IsIn a n x → IsIn result n x }
{
    match a.high.checked_sub(1) {
        Some(high) => Range { high, fall: 0, ..a },
        None => a,
    }
}

/// The range of a number that is none of another range, of which only a range of one number tells.
pub(crate) fn other(a: Range, b: Range) -> Range
    ensures refines { (n : ℕ) (x y : ℤ) → x ≢ y → IsIn a n x → IsIn b n y → IsIn result n x }
{
    if b.low != b.high {
        return a;
    }
    if a.low == b.low {
        return above_end(a);
    }
    if a.high == b.low {
        return below_end(a);
    }
    a
}

/// Whether a range has no number at all.
pub fn is_empty(a: Range) -> bool
    ensures empty { result ≡ true → (n : ℕ) (x : ℤ) → IsIn a n x → ⊥ }
{
    a.low > a.high
}

/// The range after a step: the ends move as far as the step allows.
pub fn pay(a: Range) -> Range
    ensures pays { (n : ℕ) (x : ℤ) → IsIn a (suc n) x → IsIn result n x }
{
    Range {
        low: a.low.saturating_add(i128::from(a.rise)),
        high: a.high.saturating_sub(i128::from(a.fall)),
        ..a
    }
}

/// Whether the upper end of a range is never above another, however many steps are left of those that a run may have.
fn is_below(a: Range, b: Range) -> bool
    ensures { result ≡ true → (n : ℕ) (x : ℤ) → n < 2 ^ 64 → (x +ℤ pos (a.fall * n)) ≤ℤ a.high → (x +ℤ pos (b.fall * n)) ≤ℤ b.high }
{
    if b.fall <= a.fall {
        return a.high <= b.high;
    }
    match i128::from(b.fall - a.fall).checked_mul(i128::from(u64::MAX)) {
        Some(gain) => match a.high.checked_add(gain) {
            Some(most) => most <= b.high,
            None => false,
        },
        None => false,
    }
}

/// Whether the lower end of a range is never below another, however many steps are left of those that a run may have.
fn is_above(a: Range, b: Range) -> bool
    ensures { result ≡ true → (n : ℕ) (x : ℤ) → n < 2 ^ 64 → (a.low +ℤ pos (a.rise * n)) ≤ℤ x → (b.low +ℤ pos (b.rise * n)) ≤ℤ x }
{
    if b.rise <= a.rise {
        return b.low <= a.low;
    }
    match i128::from(b.rise - a.rise).checked_mul(i128::from(u64::MAX)) {
        Some(gain) => match b.low.checked_add(gain) {
            Some(least) => least <= a.low,
            None => false,
        },
        None => false,
    }
}

/// Whether each number of a range is in another, however many steps are left of those that a run may have.
pub fn is_within(a: Range, b: Range) -> bool
    ensures within { result ≡ true → (n : ℕ) (x : ℤ) → n < 2 ^ 64 → IsIn a n x → IsIn b n x }
{
    is_above(a, b) && is_below(a, b)
}
