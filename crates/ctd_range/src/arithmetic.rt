//! What an operator gives where its operands lie in ranges.

ghost use Rattle.std.specs.Prelude.{◌≡◌, ◌≤◌, ◌<◌, ◌+◌, ◌^◌, ◌||◌, true, false, IfSome, ℕ, ℤ, ◌+ℤ◌, ◌-ℤ◌, ◌*ℤ◌, ◌≤ℤ◌, ◌<ℤ◌, neg_ℤ, pos, int_div};
ghost use Rattle.ctd_value.specs.Arithmetic.{in_range, power, quotient, remainder};
ghost use Rattle.ctd_range.specs.calls.Ranges.{IsIn, Covers};
ghost use Rattle.ctd_range.specs.inner.Ranges.{IsCount, IsDivisor, IsNoFurther, IsTowardsZero};
ghost use Rattle.ctd_range.specs.inner.Ends.{IsEnd, IsCorner, IsLeastOf, IsGreatestOf};

use crate::order::less;
use crate::range::{Range, every_value};

/// Where the result lies, and which faults the operation may have.
#[derive(Clone, Copy)]
pub struct Computed {
    pub range: Range,
    pub overflows: bool,
    pub divides_by_zero: bool,
    pub has_bad_exponent: bool,
}

/// An end of a range, and whether it would lie outside the range of values.
#[derive(Clone, Copy)]
struct End {
    at: i128,
    slope: u64,
    passes: bool,
}

/// The sum of two slopes, or 0 where that is too large: a range with a smaller slope is wider.
fn slope_sum(a: u64, b: u64) -> u64
    ensures { result ≤ a + b }
{
    a.checked_add(b).unwrap_or(0)
}

/// The sum of two ends with this slope, or this limit where it has no value.
fn end_sum(a: i128, b: i128, slope: u64, limit: i128) -> End
    ensures end { IsEnd (a +ℤ b) slope limit result }
{
    match a.checked_add(b) {
        Some(at) => End {
            at,
            slope,
            passes: false,
        },
        None => End {
            at: limit,
            slope: 0,
            passes: true,
        },
    }
}

/// The difference of two ends with this slope, or this limit where it has no value.
fn end_difference(a: i128, b: i128, slope: u64, limit: i128) -> End
    ensures end { IsEnd (a -ℤ b) slope limit result }
{
    match a.checked_sub(b) {
        Some(at) => End {
            at,
            slope,
            passes: false,
        },
        None => End {
            at: limit,
            slope: 0,
            passes: true,
        },
    }
}

/// The sum of a number of each range.
pub fn sum(a: Range, b: Range) -> Computed
    ensures covers { (n : ℕ) (x y : ℤ) → IsIn a n x → IsIn b n y → Covers result n (in_range (x +ℤ y)) }
{
    let low = end_sum(a.low, b.low, slope_sum(a.rise, b.rise), i128::MIN);
    let high = end_sum(a.high, b.high, slope_sum(a.fall, b.fall), i128::MAX);
    Computed {
        range: Range {
            low: low.at,
            high: high.at,
            rise: low.slope,
            fall: high.slope,
        },
        overflows: low.passes | high.passes,
        divides_by_zero: false,
        has_bad_exponent: false,
    }
}

/// The difference of a number of each range.
pub fn difference(a: Range, b: Range) -> Computed
    ensures covers { (n : ℕ) (x y : ℤ) → IsIn a n x → IsIn b n y → Covers result n (in_range (x -ℤ y)) }
{
    let low = end_difference(a.low, b.high, slope_sum(a.rise, b.fall), i128::MIN);
    let high = end_difference(a.high, b.low, slope_sum(a.fall, b.rise), i128::MAX);
    Computed {
        range: Range {
            low: low.at,
            high: high.at,
            rise: low.slope,
            fall: high.slope,
        },
        overflows: low.passes | high.passes,
        divides_by_zero: false,
        has_bad_exponent: false,
    }
}

/// The product of two ends, or the end of the range of values on its side.
#[derive(Clone, Copy)]
struct Corner {
    at: i128,
    passes: bool,
}

/// The product of two ends.
fn corner_of(a: i128, b: i128) -> Corner
    ensures corner { IsCorner (a *ℤ b) result }
{
    Corner {
        at: a.saturating_mul(b),
        passes: a.checked_mul(b).is_none(),
    }
}

/// The least of four.
fn least(p: i128, q: i128, r: i128, s: i128) -> i128
    ensures p { result ≤ℤ p }
    ensures q { result ≤ℤ q }
    ensures r { result ≤ℤ r }
    ensures s { result ≤ℤ s }
{
    p.min(q).min(r.min(s))
}

/// The greatest of four.
fn greatest(p: i128, q: i128, r: i128, s: i128) -> i128
    ensures p { p ≤ℤ result }
    ensures q { q ≤ℤ result }
    ensures r { r ≤ℤ result }
    ensures s { s ≤ℤ result }
{
    p.max(q).max(r.max(s))
}

/// Whether one of four corners passes.
fn one_passes(p: Corner, q: Corner, r: Corner, s: Corner) -> bool
    ensures { result ≡ p.passes || q.passes || r.passes || s.passes }
{
    p.passes | (q.passes | (r.passes | s.passes))
}

/// The range of products with these corners.
fn between_corners(p: Corner, q: Corner, r: Corner, s: Corner) -> Computed
    ensures low { IsLeastOf p q r s result.range.low }
    ensures high { IsGreatestOf p q r s result.range.high }
    ensures flat { (result.range.rise ≡ 0) × (result.range.fall ≡ 0) }
    ensures overflows { result.overflows ≡ p.passes || q.passes || r.passes || s.passes }
{
    let range = Range {
        low: least(p.at, q.at, r.at, s.at),
        high: greatest(p.at, q.at, r.at, s.at),
        rise: 0,
        fall: 0,
    };
    Computed {
        range,
        overflows: one_passes(p, q, r, s),
        divides_by_zero: false,
        has_bad_exponent: false,
    }
}

/// The product of a number of each range.
pub fn product(a: Range, b: Range) -> Computed
    ensures covers { (n : ℕ) (x y : ℤ) → IsIn a n x → IsIn b n y → Covers result n (in_range (x *ℤ y)) }
{
    between_corners(
        corner_of(a.low, b.low),
        corner_of(a.low, b.high),
        corner_of(a.high, b.low),
        corner_of(a.high, b.high),
    )
}

/// The product of a number of a range and itself, which is not below 0.
fn square(a: Range) -> Computed
    ensures { (n : ℕ) (x : ℤ) → IsIn a n x → Covers result n (in_range (x *ℤ x)) }
{
    let all = product(a, a);
    let from_zero = Range {
        low: 0,
        high: all.range.high,
        rise: 0,
        fall: all.range.fall,
    };
    if all.range.low > 0 {
        all
    } else {
        Computed {
            range: from_zero,
            ..all
        }
    }
}

/// The negation of a number of a range.
pub fn negation(a: Range) -> Computed
    ensures covers { (n : ℕ) (x : ℤ) → IsIn a n x → Covers result n (in_range (neg_ℤ x)) }
{
    let zero = Range {
        low: 0,
        high: 0,
        rise: 0,
        fall: 0,
    };
    difference(zero, a)
}

/// Whether 0 is between the ends of a range.
fn may_be_zero(a: Range) -> bool
    ensures { (n : ℕ) → IsIn a n (pos 0) → result ≡ true }
{
    a.low <= 0 && a.high >= 0
}

/// The numbers from those of a range to 0.
fn towards_zero(a: Range) -> Range
    ensures { (n : ℕ) (x z : ℤ) → IsIn a n x → IsTowardsZero x z → IsIn result n z }
{
    Range {
        low: a.low.min(0),
        high: a.high.max(0),
        rise: 0,
        fall: 0,
    }
}

/// The quotients of numbers of a range by divisors from this one on, which is above 0.
fn quotients(a: Range, least: i128) -> Range
    requires { pos 1 ≤ℤ least }
    ensures { (n : ℕ) (x y : ℤ) → IsIn a n x → least ≤ℤ y → IsIn result n (int_div x y) }
{
    Range {
        low: a.low.min(0) / least,
        high: a.high.max(0) / least,
        rise: 0,
        fall: 0,
    }
}

/// The numbers that are no further from 0 than those of a range. `None` where one of them may be no value.
fn no_further(a: Range) -> Option<Range>
    ensures { IfSome result (λ range. (n : ℕ) (x z : ℤ) → IsIn a n x → IsNoFurther x z → IsIn range n z) }
{
    if a.low < -i128::MAX {
        return None;
    }
    let most = a.high.max(-a.low.min(0));
    Some(Range {
        low: -most,
        high: most,
        rise: 0,
        fall: 0,
    })
}

/// The quotients of a number of each range, where the divisor is not 0. `None` where one of them may be no value.
fn all_quotients(a: Range, b: Range) -> Option<Range>
    ensures { IfSome result (λ range. (n : ℕ) (x y : ℤ) → IsIn a n x → IsIn b n y → IsDivisor y → IsIn range n (int_div x y)) }
{
    if b.low > 0 {
        Some(quotients(a, b.low))
    } else if b.low == 0 {
        Some(quotients(a, 1))
    } else {
        no_further(a)
    }
}

/// The quotient of a number of each range.
pub fn quotient(a: Range, b: Range) -> Computed
    ensures covers { (n : ℕ) (x y : ℤ) → IsIn a n x → IsIn b n y → Covers result n (quotient x y) }
{
    match all_quotients(a, b) {
        Some(range) => Computed {
            range,
            overflows: false,
            divides_by_zero: may_be_zero(b),
            has_bad_exponent: false,
        },
        None => Computed {
            range: every_value(),
            overflows: true,
            divides_by_zero: may_be_zero(b),
            has_bad_exponent: false,
        },
    }
}

/// The remainders of numbers of a range by those of another.
fn remainders(a: Range, b: Range) -> Range
    ensures { (n : ℕ) (x y z : ℤ) → IsIn a n x → IsIn b n y → IsTowardsZero x z → (pos 0 ≤ℤ y → z <ℤ y) → IsIn result n z }
{
    if b.low < 0 {
        return towards_zero(a);
    }
    less(towards_zero(a), b)
}

/// The remainder of a number of each range. It lies between 0 and the dividend, and below a divisor that is not negative.
pub fn remainder(a: Range, b: Range) -> Computed
    ensures covers { (n : ℕ) (x y : ℤ) → IsIn a n x → IsIn b n y → Covers result n (remainder x y) }
{
    Computed {
        range: remainders(a, b),
        overflows: false,
        divides_by_zero: may_be_zero(b),
        has_bad_exponent: false,
    }
}

/// Whether a number of a range may lie outside 0 to 2^64-1.
fn may_be_no_exponent(a: Range) -> bool
    ensures { result ≡ false → (n : ℕ) (x : ℤ) → IsIn a n x → IsCount x }
{
    a.low < 0 || a.high > i128::from(u64::MAX)
}

/// The greatest power of numbers from 0 to this one by exponents from 0 to this one.
fn greatest_power(base: i128, exponent: i128) -> Option<i128>
    ensures { IfSome result (λ most. (p e : ℕ) → pos p ≤ℤ base → pos e ≤ℤ exponent → (e < 2 ^ 64) × (pos (p ^ e) ≤ℤ most)) }
{
    match u32::try_from(exponent) {
        Ok(n) => base.max(1).checked_pow(n),
        Err(_) => None,
    }
}

/// A number that no power of numbers from this one on, by exponents from this one on, is below: the least of these powers where it is a value.
fn least_power(base: i128, exponent: i128) -> i128
    ensures { (p e : ℕ) → base ≤ℤ pos p → exponent ≤ℤ pos e → result ≤ℤ pos (p ^ e) }
{
    if base < 1 {
        return 0;
    }
    match u32::try_from(exponent) {
        Ok(n) => base.checked_pow(n).unwrap_or(1),
        Err(_) => 1,
    }
}

/// The power of a number by an exponent of a range.
pub fn power(a: Range, b: Range) -> Computed
    ensures covers { (n : ℕ) (x y : ℤ) → IsIn a n x → IsIn b n y → Covers result n (power x y) }
{
    if b.low == 2 && b.high == 2 {
        return square(a);
    }
    let has_bad_exponent = may_be_no_exponent(b);
    if a.low >= 0 {
        match greatest_power(a.high, b.high) {
            Some(most) => {
                return Computed {
                    range: Range {
                        low: least_power(a.low, b.low),
                        high: most,
                        rise: 0,
                        fall: 0,
                    },
                    overflows: false,
                    divides_by_zero: false,
                    has_bad_exponent,
                };
            }
            None => (),
        }
    }
    Computed {
        range: every_value(),
        overflows: true,
        divides_by_zero: false,
        has_bad_exponent,
    }
}
