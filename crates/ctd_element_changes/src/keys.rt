//! What UNIQUE and INARRAY say of arrays whose keys are those of others.

ghost use Rattle.std.specs.Prelude.{◌≡◌, true, None, Some, IfOk};
ghost use Rattle.ctd_elements.specs.declared.fact.Fact.TheVariants as facts;
ghost use Rattle.ctd_element_changes.specs.calls.Tests.{HaveOneShape, IsHit};
ghost use Rattle.ctd_element_changes.specs.inner.Keys.{AreKeysWithin, AreValuesKeys, IsExactlySide, IsHitBy, LacksAlone};

use ctd_elements::{AbstractState, Fact, Filling, Keys, Limits, Side, follows, is_part};
use ctd_states::PossibleValues;
use std::alloc::{AllocError, Global};

/// Whether no value is possible.
fn is_none(possible: PossibleValues) -> bool
    ensures { result ≡ true → (possible.text ≡ None) × (possible.number ≡ None) }
{
    if possible.text.is_some() {
        return false;
    }
    possible.number.is_none()
}

/// Whether a name surely has no value without indices.
fn lacks_alone(state: AbstractState, name: usize) -> bool
    ensures { result ≡ true → LacksAlone state.entry name }
{
    match state.entries.get(name) {
        Some(value) => is_none(value.alone),
        None => false,
    }
}

/// All keys of an array, with none excepted.
fn all_keys(array: usize, other: usize) -> Keys
    ensures { result ≡ record { array = array; other = other; except = None } }
{
    Keys {
        array,
        other,
        except: None,
    }
}

/// Whether an array has values wherever another has some.
fn are_keys_within(state: AbstractState, array: usize, other: usize) -> bool
    ensures { result ≡ true → AreKeysWithin state.entry array other }
{
    if !lacks_alone(state, array) {
        return false;
    }
    follows(state, Fact::KeysWithin(all_keys(array, other)))
}

/// Whether two arrays have values at the same indices: then UNIQUE of them has no fault.
pub fn have_one_shape(state: AbstractState, array: usize, other: usize) -> bool
    ensures { result ≡ true → HaveOneShape state.entry array other }
{
    if !are_keys_within(state, array, other) {
        return false;
    }
    are_keys_within(state, other, array)
}

/// Whether each value of an array is an index at which another has a value.
fn are_values_keys(state: AbstractState, array: usize, other: usize) -> bool
    ensures { result ≡ true → AreValuesKeys state.entry array other }
{
    if !lacks_alone(state, array) {
        return false;
    }
    follows(state, Fact::ValuesAreKeys(all_keys(array, other)))
}

/// Whether a side has no other index than a value of which something is known.
fn is_exactly(state: AbstractState, side: Side, limits: Limits) -> bool
    ensures { result ≡ true → IsExactlySide state.entry side limits.entry }
{
    match limits.exact {
        Some(index) => is_part(state, side, Side::At(index)),
        None => false,
    }
}

/// Whether an element has a value where its index is one of the values of an array.
fn is_hit(state: AbstractState, f: Filling, limits: Limits, array: usize) -> bool
    ensures { result ≡ true → IsHitBy state.entry limits.entry array (facts.Filled f) }
{
    if f.most.is_some() {
        return false;
    }
    if f.block.second.is_some() {
        return false;
    }
    if !is_exactly(state, f.block.first, limits) {
        return false;
    }
    are_values_keys(state, array, f.array)
}

/// Whether a fact is so where a value is one of an array.
fn stands_hit(state: AbstractState, fact: Fact, limits: Limits, array: usize) -> bool
    ensures { result ≡ true → IsHitBy state.entry limits.entry array fact }
{
    if follows(state, fact) {
        return true;
    }
    match fact {
        Fact::Filled(f) => is_hit(state, f, limits, array),
        _ => false,
    }
}

/// Those of some candidates that are so where INARRAY is true of a value and an array.
pub fn facts_hit(
    alloc: Global,
    state: AbstractState,
    candidates: &[Fact],
    limits: Limits,
    array: usize,
) -> Result<Vec<Fact>, AllocError>
    ensures { IfOk result (λ after. IsHit state.entry limits.entry array after.items) }
{
    let mut after = Vec::new(alloc);
    for fact in candidates {
        if stands_hit(state, *fact, limits, array) {
            after.push(*fact)?;
        }
    }
    Ok(after)
}
