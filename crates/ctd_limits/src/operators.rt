//! What is known of the results of operators.

ghost use Rattle.std.specs.Prelude.{◌≡◌, ◌+ℤ◌, ◌-ℤ◌, ◌*ℤ◌, ◌≤ℤ◌, int_div, int_rem, pos, true, None, [], ◌∷◌, IfOk, IfSome};
ghost use Rattle.ctd_limits.specs.calls.Known.{KnowsBy};
ghost use Rattle.ctd_limits.specs.inner.Numbers.{IsFromNumber};
ghost use Rattle.ctd_limits.specs.inner.Operators.{ExactBy, ExactMultiple, IsLiteral, KnowsMultiple, LessOne, zero_bound};

use crate::add::{difference_of_bounds, sum_of_bounds};
use crate::bounds::{copy_of, differences_of, multiples_of, only, sums_of};
use crate::known::{ValueLimits, anything};
use crate::numbers::{greatest_number, least_number};
use ctd_element_changes::multiple;
use ctd_elements::{Bound, Index};
use std::alloc::{AllocError, Global};

/// The sum of two indices, if they are numbers of bounds.
fn exact_sum(a: Option<Index>, b: Option<Index>) -> Option<Index>
    ensures { ExactBy (λ x y. x +ℤ y) a b result }
{
    match (a, b) {
        (Some(Index::Number(p)), Some(Index::Number(q))) => {
            Some(Index::Number(sum_of_bounds(p, q)?))
        }
        _ => None,
    }
}

/// The difference of two indices, if they are numbers of bounds.
fn exact_difference(a: Option<Index>, b: Option<Index>) -> Option<Index>
    ensures { ExactBy (λ x y. x -ℤ y) a b result }
{
    match (a, b) {
        (Some(Index::Number(p)), Some(Index::Number(q))) => {
            Some(Index::Number(difference_of_bounds(p, q)?))
        }
        _ => None,
    }
}

/// What is known of a sum.
pub fn sum(alloc: Global, a: &ValueLimits, b: &ValueLimits) -> Result<ValueLimits, AllocError>
    ensures { IfOk result (λ l. KnowsBy (λ x y. x +ℤ y) a.now b.now l) }
{
    let lows = sums_of(alloc, a.lows.as_slice(), b.lows.as_slice())?;
    let highs = sums_of(alloc, a.highs.as_slice(), b.highs.as_slice())?;
    Ok(ValueLimits {
        exact: exact_sum(a.exact, b.exact),
        lows,
        highs,
        source: None,
    })
}

/// What is known of a difference.
pub fn difference(
    alloc: Global,
    a: &ValueLimits,
    b: &ValueLimits,
) -> Result<ValueLimits, AllocError>
    ensures { IfOk result (λ l. KnowsBy (λ x y. x -ℤ y) a.now b.now l) }
{
    let lows = differences_of(alloc, a.lows.as_slice(), b.highs.as_slice())?;
    let highs = differences_of(alloc, a.highs.as_slice(), b.lows.as_slice())?;
    Ok(ValueLimits {
        exact: exact_difference(a.exact, b.exact),
        lows,
        highs,
        source: None,
    })
}

/// The number of a value that can only be one, if it is neither negative nor too large.
fn literal_of(l: &ValueLimits) -> Option<u32>
    ensures { IfSome result (λ k. IsLiteral l.now k) }
{
    let least = least_number(l.lows.as_slice())?;
    let most = greatest_number(l.highs.as_slice())?;
    if least != most {
        return None;
    }
    u32::try_from(least).ok()
}

/// The multiple of an index, if it is the number of a bound.
fn exact_multiple(times: u32, a: Option<Index>) -> Option<Index>
    ensures { ExactMultiple times a result }
{
    match a {
        Some(Index::Number(b)) => Some(Index::Number(multiple(times, b, 0)?)),
        _ => None,
    }
}

/// What is known of a multiple.
fn multiple_by(alloc: Global, times: u32, a: &ValueLimits) -> Result<ValueLimits, AllocError>
    ensures { IfOk result (λ l. KnowsMultiple times a.now l) }
{
    let lows = multiples_of(alloc, times, a.lows.as_slice())?;
    let highs = multiples_of(alloc, times, a.highs.as_slice())?;
    Ok(ValueLimits {
        exact: exact_multiple(times, a.exact),
        lows,
        highs,
        source: None,
    })
}

/// What is known of a product: where one factor can only be one number.
pub fn product(alloc: Global, a: &ValueLimits, b: &ValueLimits) -> Result<ValueLimits, AllocError>
    ensures { IfOk result (λ l. KnowsBy (λ x y. x *ℤ y) a.now b.now l) }
{
    if let Some(times) = literal_of(a) {
        return multiple_by(alloc, times, b);
    }
    if let Some(times) = literal_of(b) {
        return multiple_by(alloc, times, a);
    }
    Ok(anything(alloc))
}

/// Whether a value that is at least some bounds is at least a number.
fn is_from_number(lows: &[Bound], least: i64) -> bool
    ensures { result ≡ true → IsFromNumber lows.now least }
{
    match least_number(lows) {
        Some(number) => least <= number,
        None => false,
    }
}

/// A bound that is one less.
fn one_less(b: Bound) -> Option<Bound>
    ensures { IfSome result (λ c. (c.term ≡ b.term) × (c.add ≡ b.add -ℤ pos 1)) }
{
    let add = b.add.checked_sub(1)?;
    Some(Bound { term: b.term, add })
}

/// Bounds that are one less than each of others.
fn ones_less(alloc: Global, bounds: &[Bound]) -> Result<Vec<Bound>, AllocError>
    ensures { IfOk result (λ all. LessOne bounds.now all.items) }
{
    let mut all = Vec::new(alloc);
    for b in bounds {
        if let Some(c) = one_less(*b) {
            all.push(c)?;
        }
    }
    Ok(all)
}

/// The bound that is zero.
fn zero() -> Bound
    ensures { result ≡ record { term = None; add = pos 0 } }
{
    Bound { term: None, add: 0 }
}

/// No bound but zero.
fn from_zero(alloc: Global) -> Result<Vec<Bound>, AllocError>
    ensures { IfOk result (λ all. all.items ≡ zero_bound ∷ []) }
{
    only(alloc, zero())
}

/// What is known of a remainder: where the dividend is not negative and the divisor is positive.
pub fn remainder(alloc: Global, a: &ValueLimits, b: &ValueLimits) -> Result<ValueLimits, AllocError>
    ensures { IfOk result (λ l. KnowsBy (λ x y. int_rem x y) a.now b.now l) }
{
    if !is_from_number(a.lows.as_slice(), 0) {
        return Ok(anything(alloc));
    }
    if !is_from_number(b.lows.as_slice(), 1) {
        return Ok(anything(alloc));
    }
    let highs = ones_less(alloc, b.highs.as_slice())?;
    Ok(ValueLimits {
        exact: None,
        lows: from_zero(alloc)?,
        highs,
        source: None,
    })
}

/// What is known of a quotient: where the dividend is not negative and the divisor is positive.
pub fn quotient(alloc: Global, a: &ValueLimits, b: &ValueLimits) -> Result<ValueLimits, AllocError>
    ensures { IfOk result (λ l. KnowsBy (λ x y. int_div x y) a.now b.now l) }
{
    if !is_from_number(a.lows.as_slice(), 0) {
        return Ok(anything(alloc));
    }
    if !is_from_number(b.lows.as_slice(), 1) {
        return Ok(anything(alloc));
    }
    let highs = copy_of(alloc, a.highs.as_slice())?;
    Ok(ValueLimits {
        exact: None,
        lows: from_zero(alloc)?,
        highs,
        source: None,
    })
}
