//! The facts that do not speak of a name: they stay so whatever becomes of it.

ghost use Rattle.std.specs.Prelude.{◌≡◌, ◌≢◌, true, IfOk};
ghost use Rattle.ctd_states.specs.calls.States.{name_at};
ghost use Rattle.ctd_elements.specs.declared.fact.Fact.TheVariants as facts;
ghost use Rattle.ctd_element_changes.specs.calls.Changes.{KeepsBeside};
ghost use Rattle.ctd_element_changes.specs.inner.Beside.{StaysBeside};

use crate::free::{block_is_free, bound_is_free, exception_is_free, most_is_free};
use ctd_elements::{Bound, Fact, Filling, Keys, is_name};
use std::alloc::{AllocError, Global};

/// Whether two bounds do not speak of a name.
fn bounds_are_free(names: &[&[u8]], a: Bound, b: Bound, name: &[u8]) -> bool
    ensures ordered { result ≡ true → StaysBeside names.now name.now (facts.AtMost a b) }
    ensures unequal { result ≡ true → StaysBeside names.now name.now (facts.Unequal a b) }
{
    if !bound_is_free(names, a, name) {
        return false;
    }
    bound_is_free(names, b, name)
}

/// Whether elements that have values are not those of a name, and their block does not speak of it.
fn filling_is_free(names: &[&[u8]], f: Filling, name: &[u8]) -> bool
    ensures { result ≡ true → StaysBeside names.now name.now (facts.Filled f) }
{
    if is_name(names, f.array, name) {
        return false;
    }
    if !block_is_free(names, f.block, name) {
        return false;
    }
    most_is_free(names, f.most, name)
}

/// Whether keys are not those of a name, nor of another that lie within them.
fn keys_are_free(names: &[&[u8]], k: Keys, name: &[u8]) -> bool
    ensures within { result ≡ true → StaysBeside names.now name.now (facts.KeysWithin k) }
    ensures values { result ≡ true → StaysBeside names.now name.now (facts.ValuesAreKeys k) }
{
    if is_name(names, k.array, name) {
        return false;
    }
    if is_name(names, k.other, name) {
        return false;
    }
    exception_is_free(names, k.except, name)
}

/// Whether a fact does not speak of a name, nor of its elements.
fn is_free(names: &[&[u8]], fact: Fact, name: &[u8]) -> bool
    ensures { result ≡ true → StaysBeside names.now name.now fact }
{
    match fact {
        Fact::AtMost(a, b) => bounds_are_free(names, a, b, name),
        Fact::Unequal(a, b) => bounds_are_free(names, a, b, name),
        Fact::Filled(f) => filling_is_free(names, f, name),
        Fact::KeysWithin(k) => keys_are_free(names, k, name),
        Fact::ValuesAreKeys(k) => keys_are_free(names, k, name),
    }
}

/// The facts that do not speak of a name, nor of its elements.
pub fn facts_beside(
    alloc: Global,
    names: &[&[u8]],
    facts: &[Fact],
    name: &[u8],
) -> Result<Vec<Fact>, AllocError>
    ensures { IfOk result (λ after. KeepsBeside names.now facts.now name.now after.items) }
{
    let mut after = Vec::new(alloc);
    for fact in facts {
        if is_free(names, *fact, name) {
            after.push(*fact)?;
        }
    }
    Ok(after)
}
