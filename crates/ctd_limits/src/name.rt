//! What is known of the value of a name without indices.

ghost use Rattle.std.specs.Prelude.{◌≡◌, None, IfOk, IfSome};
ghost use Rattle.ctd_elements.specs.calls.Orders.{IsGreatest, IsLeast};
ghost use Rattle.ctd_limits.specs.inner.Named.{HighsOf, IsAboveBy, IsBelowBy, LowsOf};

use crate::bounds::{bound_of_number, only, with_bound};
use ctd_elements::{AbstractState, Bound, Fact, greatest, is_sure, least, moved};
use std::alloc::{AllocError, Global};

/// The greatest number that a bound may have, as a bound.
fn number_above(state: AbstractState, b: Bound) -> Option<Bound>
    ensures { IfSome result (λ c. (c.term ≡ None) × IsGreatest state.entry b c.add) }
{
    bound_of_number(greatest(state, b)?)
}

/// The least number that a bound may have, as a bound.
fn number_below(state: AbstractState, b: Bound) -> Option<Bound>
    ensures { IfSome result (λ c. (c.term ≡ None) × IsLeast state.entry b c.add) }
{
    bound_of_number(least(state, b)?)
}

/// A bound that has a number, which is at least that of another by one fact.
fn above_by(state: AbstractState, fact: Fact, b: Bound) -> Option<Bound>
    ensures { IfSome result (λ c. IsAboveBy state.entry fact b c) }
{
    match fact {
        Fact::AtMost(low, high) => {
            let c = moved(b, low, high)?;
            if is_sure(state, c) { Some(c) } else { None }
        }
        _ => None,
    }
}

/// A bound that has a number, which is at most that of another by one fact.
fn below_by(state: AbstractState, fact: Fact, b: Bound) -> Option<Bound>
    ensures { IfSome result (λ c. IsBelowBy state.entry fact b c) }
{
    match fact {
        Fact::AtMost(low, high) => {
            let c = moved(b, high, low)?;
            if is_sure(state, c) { Some(c) } else { None }
        }
        _ => None,
    }
}

/// The bound itself, and its greatest number.
fn first_highs(alloc: Global, state: AbstractState, b: Bound) -> Result<Vec<Bound>, AllocError>
    ensures { IfOk result (λ all. HighsOf state.entry b all.items) }
{
    let own = only(alloc, b)?;
    match number_above(state, b) {
        Some(c) => with_bound(own, c),
        None => Ok(own),
    }
}

/// The bound itself, and its least number.
fn first_lows(alloc: Global, state: AbstractState, b: Bound) -> Result<Vec<Bound>, AllocError>
    ensures { IfOk result (λ all. LowsOf state.entry b all.items) }
{
    let own = only(alloc, b)?;
    match number_below(state, b) {
        Some(c) => with_bound(own, c),
        None => Ok(own),
    }
}

/// Bounds that are at least the number of a bound.
pub(crate) fn highs_of(
    alloc: Global,
    state: AbstractState,
    b: Bound,
) -> Result<Vec<Bound>, AllocError>
    ensures { IfOk result (λ all. HighsOf state.entry b all.items) }
{
    let mut all = first_highs(alloc, state, b)?;
    for fact in state.facts {
        if let Some(c) = above_by(state, *fact, b) {
            all.push(c)?;
        }
    }
    Ok(all)
}

/// Bounds that are at most the number of a bound.
pub(crate) fn lows_of(
    alloc: Global,
    state: AbstractState,
    b: Bound,
) -> Result<Vec<Bound>, AllocError>
    ensures { IfOk result (λ all. LowsOf state.entry b all.items) }
{
    let mut all = first_lows(alloc, state, b)?;
    for fact in state.facts {
        if let Some(c) = below_by(state, *fact, b) {
            all.push(c)?;
        }
    }
    Ok(all)
}
