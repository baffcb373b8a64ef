//! What is known of a value.

ghost use Rattle.std.specs.Prelude.{◌≡◌, true, IfSome};
ghost use Rattle.ctd_elements.specs.calls.Limits.{Differ, IsLimitedFrom, IsLimitedTo};
ghost use Rattle.ctd_elements.specs.inner.Limits.{IsAbove, IsLimitedAs, IsLimitedBelow, IsSureFrom};

use crate::fact::{AbstractState, Bound, Fact, Index, Source};
use crate::follow::follows;
use crate::order::is_at_most;
use crate::part::{is_before, is_behind, next, number_of};

/// What is known of a value: an index that it is, bounds that it is at least, and at most, and an element that has it. The bounds have numbers.
#[derive(Clone, Copy)]
pub struct Limits<'l> {
    pub exact: Option<Index>,
    pub lows: &'l [Bound],
    pub highs: &'l [Bound],
    pub source: Option<Source>,
}

/// Whether a value is at least a bound.
pub fn is_from(state: AbstractState, limits: Limits, b: Bound) -> bool
    ensures { result ≡ true → IsLimitedFrom state.entry limits.entry b }
{
    for low in limits.lows {
        if is_at_most(state, b, *low) {
            return true;
        }
    }
    false
}

/// Whether a value is at most a bound.
pub fn is_up_to(state: AbstractState, limits: Limits, b: Bound) -> bool
    ensures { result ≡ true → IsLimitedTo state.entry limits.entry b }
{
    for high in limits.highs {
        if is_at_most(state, *high, b) {
            return true;
        }
    }
    false
}

/// Whether a value is at least a bound, which has a number.
pub(crate) fn is_surely_from(state: AbstractState, limits: Limits, b: Bound) -> bool
    ensures { result ≡ true → IsSureFrom state.entry limits.entry b }
{
    for low in limits.lows {
        if is_before(state, b, *low) {
            return true;
        }
    }
    false
}

/// Whether a bound has a number that is above another.
fn is_above(state: AbstractState, b: Bound, high: Bound) -> bool
    ensures { result ≡ true → IsAbove state.entry b high }
{
    match next(high) {
        Some(above) => is_behind(state, b, above),
        None => false,
    }
}

/// Whether a value is below a bound, which has a number.
pub(crate) fn is_surely_below(state: AbstractState, limits: Limits, b: Bound) -> bool
    ensures { result ≡ true → IsLimitedBelow state.entry limits.entry b }
{
    for high in limits.highs {
        if is_above(state, b, *high) {
            return true;
        }
    }
    false
}

/// The bound whose number a value is, if it is known.
fn number_by(state: AbstractState, limits: Limits) -> Option<Bound>
    ensures { IfSome result (λ b. IsLimitedAs state.entry limits.entry b) }
{
    match limits.exact {
        Some(index) => number_of(state, index),
        None => None,
    }
}

/// Whether two numbers surely differ.
pub fn differ(state: AbstractState, a: Limits, b: Limits) -> bool
    ensures { result ≡ true → Differ state.entry a.entry b.entry }
{
    match number_by(state, a) {
        Some(p) => match number_by(state, b) {
            Some(q) => follows(state, Fact::Unequal(p, q)),
            None => false,
        },
        None => false,
    }
}
