//! Lists of bounds: sums, differences and multiples of each.

ghost use Rattle.std.specs.Prelude.{◌≡◌, ◌++◌, ◌∷◌, [], None, IfOk, IfSome};
ghost use Rattle.ctd_limits.specs.inner.Adding.{Adds, Subtracts};
ghost use Rattle.ctd_limits.specs.inner.Listed.{AddsAll, AddsEach, Multiplies, SubtractsAll, SubtractsEach};

use crate::add::{difference_of_bounds, sum_of_bounds};
use ctd_element_changes::multiple;
use ctd_elements::{Bound, is_same};
use std::alloc::{AllocError, Global};

/// A number as a bound, if it is not too large.
pub(crate) fn bound_of_number(n: i128) -> Option<Bound>
    ensures { IfSome result (λ b. (b.term ≡ None) × (b.add ≡ n)) }
{
    let add = i64::try_from(n).ok()?;
    Some(Bound { term: None, add })
}

/// The same bounds.
pub(crate) fn copy_of(alloc: Global, bounds: &[Bound]) -> Result<Vec<Bound>, AllocError>
    ensures { IfOk result (λ all. all.items ≡ bounds.now) }
{
    let copy = bounds.to_vec(alloc)?;
    Ok(copy)
}

/// One bound alone.
pub(crate) fn only(alloc: Global, b: Bound) -> Result<Vec<Bound>, AllocError>
    ensures { IfOk result (λ all. all.items ≡ b ∷ []) }
{
    let mut all = Vec::new(alloc);
    all.push(b)?;
    Ok(all)
}

/// A list of bounds, and one more.
pub(crate) fn with_bound(mut bounds: Vec<Bound>, b: Bound) -> Result<Vec<Bound>, AllocError>
    ensures { IfOk result (λ all. all.items ≡ bounds.items ++ b ∷ []) }
{
    bounds.push(b)?;
    Ok(bounds)
}

/// How many bounds a sum or a difference has at most.
const MOST: usize = 24;

/// Whether a bound is not among some, and there is room for it. No contract speaks of it.
fn is_new(bounds: &[Bound], b: Bound) -> bool {
    for own in bounds {
        if is_same(*own, b) {
            return false;
        }
    }
    bounds.len() < MOST
}

/// The sum of two bounds, if it is new.
fn new_sum(bounds: &[Bound], a: Bound, b: Bound) -> Option<Bound>
    ensures { IfSome result (λ c. Adds a b c) }
{
    let c = sum_of_bounds(a, b)?;
    if is_new(bounds, c) { Some(c) } else { None }
}

/// The difference of two bounds, if it is new.
fn new_difference(bounds: &[Bound], a: Bound, b: Bound) -> Option<Bound>
    ensures { IfSome result (λ c. Subtracts a b c) }
{
    let c = difference_of_bounds(a, b)?;
    if is_new(bounds, c) { Some(c) } else { None }
}

/// A list of bounds, with the sums of one bound and each of others.
fn add_each(mut after: Vec<Bound>, a: Bound, others: &[Bound]) -> Result<Vec<Bound>, AllocError>
    ensures { IfOk result (λ all. AddsEach after.items a others.now all.items) }
{
    for b in others {
        if let Some(c) = new_sum(after.as_slice(), a, *b) {
            after.push(c)?;
        }
    }
    Ok(after)
}

/// The sums of each of some bounds and each of others.
pub(crate) fn sums_of(
    alloc: Global,
    bounds: &[Bound],
    others: &[Bound],
) -> Result<Vec<Bound>, AllocError>
    ensures { IfOk result (λ all. AddsAll bounds.now others.now all.items) }
{
    let mut all = Vec::new(alloc);
    for a in bounds {
        all = add_each(all, *a, others)?;
    }
    Ok(all)
}

/// A list of bounds, with the differences of one bound and each of others.
fn subtract_each(
    mut after: Vec<Bound>,
    a: Bound,
    others: &[Bound],
) -> Result<Vec<Bound>, AllocError>
    ensures { IfOk result (λ all. SubtractsEach after.items a others.now all.items) }
{
    for b in others {
        if let Some(c) = new_difference(after.as_slice(), a, *b) {
            after.push(c)?;
        }
    }
    Ok(after)
}

/// The differences of each of some bounds and each of others.
pub(crate) fn differences_of(
    alloc: Global,
    bounds: &[Bound],
    others: &[Bound],
) -> Result<Vec<Bound>, AllocError>
    ensures { IfOk result (λ all. SubtractsAll bounds.now others.now all.items) }
{
    let mut all = Vec::new(alloc);
    for a in bounds {
        all = subtract_each(all, *a, others)?;
    }
    Ok(all)
}

/// The multiples of each of some bounds.
pub(crate) fn multiples_of(
    alloc: Global,
    times: u32,
    bounds: &[Bound],
) -> Result<Vec<Bound>, AllocError>
    ensures { IfOk result (λ all. Multiplies times bounds.now all.items) }
{
    let mut all = Vec::new(alloc);
    for a in bounds {
        if let Some(c) = multiple(times, *a, 0) {
            all.push(c)?;
        }
    }
    Ok(all)
}
