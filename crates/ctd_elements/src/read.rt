//! Whether an element surely has a value.

ghost use Rattle.std.specs.Prelude.{◌≡◌, true, None};
ghost use Rattle.ctd_elements.specs.calls.Reading.{HasElement, AreLimitedIn, HasKey};
ghost use Rattle.ctd_elements.specs.inner.Reading.{HasElementBy, IsLimitedOn};
ghost use Rattle.ctd_elements.specs.declared.fact.Fact.TheVariants as facts;
ghost use Rattle.ctd_elements.specs.declared.fact.Side.TheVariants as sides;

use crate::fact::{AbstractState, Block, Fact, Filling, Interval, Keys, Side};
use crate::limits::{Limits, is_surely_below, is_surely_from};
use crate::names::is_same_name;
use crate::part::is_part;

/// Whether an index lies in an interval.
fn is_in_interval(state: AbstractState, limits: Limits, s: Interval) -> bool
    ensures { result ≡ true → IsLimitedOn state.entry limits.entry (sides.Between s) }
{
    if !is_surely_from(state, limits, s.low) {
        return false;
    }
    is_surely_below(state, limits, s.high)
}

/// Whether an index is on a side by what it is.
fn is_exactly_on(state: AbstractState, limits: Limits, side: Side) -> bool
    ensures { result ≡ true → IsLimitedOn state.entry limits.entry side }
{
    match limits.exact {
        Some(index) => is_part(state, Side::At(index), side),
        None => false,
    }
}

/// Whether an index is on a side.
fn is_on(state: AbstractState, limits: Limits, side: Side) -> bool
    ensures { result ≡ true → IsLimitedOn state.entry limits.entry side }
{
    if is_exactly_on(state, limits, side) {
        return true;
    }
    match side {
        Side::Between(s) => is_in_interval(state, limits, s),
        Side::At(_) => false,
    }
}

/// Whether indices are in a block.
pub fn are_in(state: AbstractState, first: Limits, second: Option<Limits>, block: Block) -> bool
    ensures { result ≡ true → AreLimitedIn state.entry first.entry second.entry block }
{
    if !is_on(state, first, block.first) {
        return false;
    }
    match block.second {
        Some(side) => match second {
            Some(limits) => is_on(state, limits, side),
            None => false,
        },
        None => second.is_none(),
    }
}

/// Whether an element is one of those that have values.
fn is_in_filling(
    state: AbstractState,
    f: Filling,
    array: usize,
    first: Limits,
    second: Option<Limits>,
) -> bool
    ensures { result ≡ true → HasElementBy state.entry (facts.Filled f) array first.entry second.entry }
{
    if !is_same_name(state.names, f.array, array) {
        return false;
    }
    are_in(state, first, second, f.block)
}

/// Whether an index is a key of an array because it is an element of another.
fn is_key_by(state: AbstractState, k: Keys, array: usize, limits: Limits) -> bool
    ensures { result ≡ true → HasElementBy state.entry (facts.ValuesAreKeys k) array limits.entry None }
{
    match limits.source {
        Some(source) => {
            if k.except.is_some() {
                return false;
            }
            if !is_same_name(state.names, k.array, source.array) {
                return false;
            }
            is_same_name(state.names, k.other, array)
        }
        None => false,
    }
}

/// Whether an element has a value by one fact.
fn is_filled_by(
    state: AbstractState,
    fact: Fact,
    array: usize,
    first: Limits,
    second: Option<Limits>,
) -> bool
    ensures { result ≡ true → HasElementBy state.entry fact array first.entry second.entry }
{
    match fact {
        Fact::Filled(f) => is_in_filling(state, f, array, first, second),
        Fact::ValuesAreKeys(k) => match second {
            None => is_key_by(state, k, array, first),
            Some(_) => false,
        },
        _ => false,
    }
}

/// Whether an array surely has a value at one index or two of which something is known.
pub fn is_filled(state: AbstractState, array: usize, first: Limits, second: Option<Limits>) -> bool
    ensures { result ≡ true → HasElement state.entry array first.entry second.entry }
{
    for fact in state.facts {
        if is_filled_by(state, *fact, array, first, second) {
            return true;
        }
    }
    false
}

/// Whether an array surely has a value at one index of which something is known.
pub fn has_key(state: AbstractState, array: usize, limits: Limits) -> bool
    ensures { result ≡ true → HasKey state.entry array limits.entry }
{
    is_filled(state, array, limits, None)
}
