//! The facts once a name without indices got a value.

ghost use Rattle.std.specs.Prelude.{◌≡◌, ◌-ℤ◌, true, IfOk, IfSome};
ghost use Rattle.ctd_elements.specs.declared.fact.Fact.TheVariants as facts;
ghost use Rattle.ctd_element_changes.specs.calls.Changes.{GivesName};
ghost use Rattle.ctd_element_changes.specs.inner.Assigning.{IsOnce, StandsGiven, WasLess};
ghost use Rattle.ctd_states.specs.calls.States.{name_at};

use crate::before::{bound_before, fact_before};
use ctd_elements::{
    AbstractState, Bound, Fact, Index, Limits, follows, is_from, is_name, is_up_to,
};
use std::alloc::{AllocError, Global};

/// The bound that is so much less.
fn less(b: Bound, by: Bound) -> Option<Bound>
    ensures { IfSome result (λ c. (c.term ≡ b.term) × (c.add ≡ b.add -ℤ by.add)) }
{
    let add = b.add.checked_sub(by.add)?;
    Some(Bound { term: b.term, add })
}

/// What a bound was, less a number.
fn less_before(
    names: &[&[u8]],
    b: Bound,
    name: &[u8],
    exact: Option<Index>,
    by: Bound,
) -> Option<Bound>
    ensures { IfSome result (λ old. WasLess names.now name.now exact b by.add old) }
{
    less(bound_before(names, b, name, exact)?, by)
}

/// Whether a bound is a name, taken once, with a number added.
fn is_once(names: &[&[u8]], b: Bound, name: &[u8]) -> bool
    ensures { result ≡ true → IsOnce names.now name.now b }
{
    match b.term {
        Some(term) => term.times == 1 && is_name(names, term.name, name),
        None => false,
    }
}

/// Whether a name with a number added is at most a bound once the name got a value.
fn is_below_given(state: AbstractState, a: Bound, b: Bound, name: &[u8], limits: Limits) -> bool
    ensures { result ≡ true → StandsGiven state.entry name.now limits.entry (facts.AtMost a b) }
{
    if !is_once(state.names, a, name) {
        return false;
    }
    match less_before(state.names, b, name, limits.exact, a) {
        Some(most) => is_up_to(state, limits, most),
        None => false,
    }
}

/// Whether a name with a number added is at least a bound once the name got a value.
fn is_above_given(state: AbstractState, a: Bound, b: Bound, name: &[u8], limits: Limits) -> bool
    ensures { result ≡ true → StandsGiven state.entry name.now limits.entry (facts.AtMost a b) }
{
    if !is_once(state.names, b, name) {
        return false;
    }
    match less_before(state.names, a, name, limits.exact, b) {
        Some(least) => is_from(state, limits, least),
        None => false,
    }
}

/// Whether a fact is so by what is known of the value that a name got.
fn stands_by_limits(state: AbstractState, fact: Fact, name: &[u8], limits: Limits) -> bool
    ensures { result ≡ true → StandsGiven state.entry name.now limits.entry fact }
{
    match fact {
        Fact::AtMost(a, b) => {
            if is_below_given(state, a, b, name, limits) {
                return true;
            }
            is_above_given(state, a, b, name, limits)
        }
        _ => false,
    }
}

/// Whether a fact is so once a name got a value, because of what was so before.
fn stands_by_facts(state: AbstractState, fact: Fact, name: &[u8], limits: Limits) -> bool
    ensures { result ≡ true → StandsGiven state.entry name.now limits.entry fact }
{
    match fact_before(state.names, fact, name, limits.exact) {
        Some(old) => follows(state, old),
        None => false,
    }
}

/// Whether a fact is so once a name got a value.
fn stands_given(state: AbstractState, fact: Fact, name: &[u8], limits: Limits) -> bool
    ensures { result ≡ true → StandsGiven state.entry name.now limits.entry fact }
{
    if stands_by_limits(state, fact, name, limits) {
        return true;
    }
    stands_by_facts(state, fact, name, limits)
}

/// Those of some candidates that are so once a name without indices, which no preset pins, got a value.
pub fn facts_with_name(
    alloc: Global,
    state: AbstractState,
    candidates: &[Fact],
    name: &[u8],
    limits: Limits,
) -> Result<Vec<Fact>, AllocError>
    ensures { IfOk result (λ after. GivesName state.entry name.now limits.entry after.items) }
{
    let mut after = Vec::new(alloc);
    for fact in candidates {
        if stands_given(state, *fact, name, limits) {
            after.push(*fact)?;
        }
    }
    Ok(after)
}
