//! What is known of the value of an element.

ghost use Rattle.std.specs.Prelude.{◌≡◌, None, IfOk, IfSome};
ghost use Rattle.ctd_elements.specs.declared.fact.Fact.TheVariants as facts;
ghost use Rattle.ctd_limits.specs.calls.Known.{IsCellAt, KnowsAt};
ghost use Rattle.ctd_limits.specs.inner.Elements.{HighsOfElement, IsLeastElement, IsMostOf, IsNumberAbove, IsNumberBelow, KnowsElement, LowsOfElement};

use crate::bounds::{bound_of_number, with_bound};
use crate::known::{ValueLimits, anything};
use ctd_elements::{
    AbstractState, Bound, Cell, Fact, Filling, Limits, Source, are_in, greatest_element,
    is_same_name, is_sure,
};
use ctd_states::{AbstractValue, index_of};
use std::alloc::{AllocError, Global};

/// The least number that an element may be, if it can only be a number.
fn least_element(value: AbstractValue) -> Option<i128>
    ensures { IfSome result (λ g. IsLeastElement value g) }
{
    if value.elements.text.is_some() {
        return None;
    }
    match value.elements.number {
        Some(range) => Some(range.low),
        None => None,
    }
}

/// The greatest number of the elements of an array, as a bound.
fn number_above(state: AbstractState, array: usize) -> Option<Bound>
    ensures { IfSome result (λ b. IsNumberAbove state.entry array b) }
{
    match state.entries.get(array) {
        Some(value) => bound_of_number(greatest_element(*value)?),
        None => None,
    }
}

/// The least number of the elements of an array, as a bound.
fn number_below(state: AbstractState, array: usize) -> Option<Bound>
    ensures { IfSome result (λ b. IsNumberBelow state.entry array b) }
{
    match state.entries.get(array) {
        Some(value) => bound_of_number(least_element(*value)?),
        None => None,
    }
}

/// The greatest value of elements, if it has a number, and if they have those at some indices among them.
fn most_of_filling(
    state: AbstractState,
    f: Filling,
    array: usize,
    first: Limits,
    second: Option<Limits>,
) -> Option<Bound>
    ensures { IfSome result (λ m. IsMostOf state.entry (facts.Filled f) array first.entry second.entry m) }
{
    let most = f.most?;
    if !is_same_name(state.names, f.array, array) {
        return None;
    }
    if !are_in(state, first, second, f.block) {
        return None;
    }
    if !is_sure(state, most) {
        return None;
    }
    Some(most)
}

/// The greatest value of the element at some indices, by one fact.
fn most_of(
    state: AbstractState,
    fact: Fact,
    array: usize,
    first: Limits,
    second: Option<Limits>,
) -> Option<Bound>
    ensures { IfSome result (λ m. IsMostOf state.entry fact array first.entry second.entry m) }
{
    match fact {
        Fact::Filled(f) => most_of_filling(state, f, array, first, second),
        _ => None,
    }
}

/// Bounds that are at least the element at some indices.
fn highs_of_element(
    alloc: Global,
    state: AbstractState,
    array: usize,
    first: Limits,
    second: Option<Limits>,
) -> Result<Vec<Bound>, AllocError>
    ensures { IfOk result (λ all. HighsOfElement state.entry array first.entry second.entry all.items) }
{
    let mut all = Vec::new(alloc);
    for fact in state.facts {
        if let Some(m) = most_of(state, *fact, array, first, second) {
            all.push(m)?;
        }
    }
    Ok(all)
}

/// The same with their greatest number.
fn all_highs(
    alloc: Global,
    state: AbstractState,
    array: usize,
    first: Limits,
    second: Option<Limits>,
) -> Result<Vec<Bound>, AllocError>
    ensures { IfOk result (λ all. HighsOfElement state.entry array first.entry second.entry all.items) }
{
    let all = highs_of_element(alloc, state, array, first, second)?;
    match number_above(state, array) {
        Some(b) => with_bound(all, b),
        None => Ok(all),
    }
}

/// Bounds that are at most an element.
fn all_lows(alloc: Global, state: AbstractState, array: usize) -> Result<Vec<Bound>, AllocError>
    ensures { IfOk result (λ all. LowsOfElement state.entry array all.items) }
{
    match number_below(state, array) {
        Some(b) => with_bound(Vec::new(alloc), b),
        None => Ok(Vec::new(alloc)),
    }
}

/// The cell at some indices, if it can be said.
pub fn cell_at(first: Limits, second: Option<Limits>) -> Option<Cell>
    ensures { IsCellAt first.entry second.entry result }
{
    let index = first.exact?;
    match second {
        Some(limits) => Some(Cell {
            first: index,
            second: Some(limits.exact?),
        }),
        None => Some(Cell {
            first: index,
            second: None,
        }),
    }
}

/// What is known of the element at some indices, by the index of its array.
fn of_element(
    alloc: Global,
    state: AbstractState,
    array: usize,
    first: Limits,
    second: Option<Limits>,
) -> Result<ValueLimits, AllocError>
    ensures { IfOk result (λ l. KnowsElement state.entry array first.entry second.entry l) }
{
    let lows = all_lows(alloc, state, array)?;
    let highs = all_highs(alloc, state, array, first, second)?;
    Ok(ValueLimits {
        exact: None,
        lows,
        highs,
        source: Some(Source {
            array,
            cell: cell_at(first, second),
        }),
    })
}

/// What is known of the value of a name at one index or two of which something is known.
pub fn limits_of_element(
    alloc: Global,
    state: AbstractState,
    name: &[u8],
    first: Limits,
    second: Option<Limits>,
) -> Result<ValueLimits, AllocError>
    ensures { IfOk result (λ l. KnowsAt state.entry name.now first.entry second.entry l) }
{
    match index_of(state.names, state.entries, name) {
        Some(i) => of_element(alloc, state, i, first, second),
        None => Ok(anything(alloc)),
    }
}
