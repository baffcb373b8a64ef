//! Bounds that are numbers, beside ranges.

ghost use Rattle.std.specs.Prelude.{◌≡◌, ◌⊎◌, None, Some, IfOk, IfSome};
ghost use Rattle.ctd_limits.specs.calls.Known.{KnowsRange, NarrowsTo};
ghost use Rattle.ctd_limits.specs.inner.Numbers.{AddsNumber, IsFromLows, IsFromNumber, IsToHighs, IsToNumber};

use crate::bounds::{bound_of_number, with_bound};
use crate::known::ValueLimits;
use ctd_elements::Bound;
use ctd_range::{Range, with_high, with_low};
use std::alloc::AllocError;

/// The number of a bound that has no term.
fn number_alone(b: Bound) -> Option<i64>
    ensures { IfSome result (λ n. (b.term ≡ None) × (b.add ≡ n)) }
{
    match b.term {
        Some(_) => None,
        None => Some(b.add),
    }
}

/// The greater of two numbers, or the only one.
fn greater(a: Option<i64>, b: i64) -> i64
    ensures { (result ≡ b) ⊎ (a ≡ Some result) }
{
    match a {
        Some(other) => { if other < b { b } else { other } }
        None => b,
    }
}

/// The lesser of two numbers, or the only one.
fn lesser(a: Option<i64>, b: i64) -> i64
    ensures { (result ≡ b) ⊎ (a ≡ Some result) }
{
    match a {
        Some(other) => { if b < other { b } else { other } }
        None => b,
    }
}

/// A number that a value which is at least some bounds is at least: the greatest of those that are numbers.
pub(crate) fn least_number(lows: &[Bound]) -> Option<i64>
    ensures { IfSome result (λ n. IsFromNumber lows.now n) }
{
    let mut least = None;
    for b in lows {
        if let Some(n) = number_alone(*b) {
            least = Some(greater(least, n));
        }
    }
    least
}

/// A number that a value which is at most some bounds is at most: the least of those that are numbers.
pub(crate) fn greatest_number(highs: &[Bound]) -> Option<i64>
    ensures { IfSome result (λ n. IsToNumber highs.now n) }
{
    let mut most = None;
    for b in highs {
        if let Some(n) = number_alone(*b) {
            most = Some(lesser(most, n));
        }
    }
    most
}

/// The numbers of a range that are not below some bounds.
fn from_lows(range: Range, lows: &[Bound]) -> Range
    ensures { IsFromLows range lows.now result }
{
    match least_number(lows) {
        Some(least) => with_low(range, i128::from(least), 0),
        None => range,
    }
}

/// The numbers of a range that are not above some bounds.
fn up_to_highs(range: Range, highs: &[Bound]) -> Range
    ensures { IsToHighs range highs.now result }
{
    match greatest_number(highs) {
        Some(most) => with_high(range, i128::from(most), 0),
        None => range,
    }
}

/// The numbers of a range that are between the bounds of a value.
pub fn narrowed(range: Range, limits: &ValueLimits) -> Range
    ensures { NarrowsTo range limits.now result }
{
    let above = from_lows(range, limits.lows.as_slice());
    up_to_highs(above, limits.highs.as_slice())
}

/// A list of bounds, and one that is a number, if it is not too large.
fn with_number(bounds: Vec<Bound>, n: i128) -> Result<Vec<Bound>, AllocError>
    ensures { IfOk result (λ all. AddsNumber bounds.items n all.items) }
{
    match bound_of_number(n) {
        Some(b) => with_bound(bounds, b),
        None => Ok(bounds),
    }
}

/// What is known of a value, with the ends of a range in which it lies.
pub fn with_range(limits: ValueLimits, range: Range) -> Result<ValueLimits, AllocError>
    ensures { IfOk result (λ l. KnowsRange limits range l) }
{
    let ValueLimits {
        exact,
        lows,
        highs,
        source,
    } = limits;
    let lows = with_number(lows, range.low)?;
    let highs = with_number(highs, range.high)?;
    Ok(ValueLimits {
        exact,
        lows,
        highs,
        source,
    })
}
