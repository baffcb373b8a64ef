//! What a comparison says of numbers.

ghost use Rattle.std.specs.Prelude.{◌≡◌, true, Some, IfOk};
ghost use Rattle.ctd_elements.specs.declared.fact.AbstractState.{AbstractState};
ghost use Rattle.ctd_elements.specs.declared.fact.Fact.TheVariants as facts;
ghost use Rattle.ctd_elements.specs.declared.fact.Index.TheVariants as indices;
ghost use Rattle.ctd_element_changes.specs.calls.Tests.{Compares};
ghost use Rattle.ctd_element_changes.specs.inner.Compared.{AreNumbers, IsCompared, IsLess, IsNoMore};

use ctd_elements::{
    AbstractState, Bound, Fact, Index, Limits, follows, is_from, is_same, is_up_to, next,
};
use ctd_program::Compare;
use std::alloc::{AllocError, Global};

/// Whether one bound is at most another where one value is at most another.
fn is_no_more(state: AbstractState, p: Bound, q: Bound, a: Limits, b: Limits) -> bool
    ensures { result ≡ true → IsNoMore state.entry p q a.entry b.entry }
{
    if !is_from(state, a, p) {
        return false;
    }
    is_up_to(state, b, q)
}

/// Whether one bound is at most another where one value is less than another.
fn is_less(state: AbstractState, p: Bound, q: Bound, a: Limits, b: Limits) -> bool
    ensures { result ≡ true → IsLess state.entry p q a.entry b.entry }
{
    if !is_from(state, a, p) {
        return false;
    }
    match next(q) {
        Some(above) => is_up_to(state, b, above),
        None => false,
    }
}

/// Whether one bound is at most another where two values compare so.
fn is_compared(state: AbstractState, p: Bound, q: Bound, by: Compare, a: Limits, b: Limits) -> bool
    ensures { result ≡ true → IsCompared state.entry by a.entry b.entry (facts.AtMost p q) }
{
    match by {
        Compare::Less => is_less(state, p, q, a, b),
        Compare::Greater => is_less(state, p, q, b, a),
        Compare::AtMost => is_no_more(state, p, q, a, b),
        Compare::AtLeast => is_no_more(state, p, q, b, a),
        Compare::Equal => {
            if is_no_more(state, p, q, a, b) {
                return true;
            }
            is_no_more(state, p, q, b, a)
        }
        Compare::Unequal => false,
    }
}

/// Whether a value is the number of a bound.
fn is_number(limits: Limits, b: Bound) -> bool
    ensures { result ≡ true → limits.entry.exact ≡ Some (indices.Number b) }
{
    match limits.exact {
        Some(Index::Number(own)) => is_same(own, b),
        _ => false,
    }
}

/// Whether two values are the numbers of two bounds.
fn are_numbers(p: Bound, q: Bound, a: Limits, b: Limits) -> bool
    ensures { result ≡ true → AreNumbers p q a.entry b.entry }
{
    if !is_number(a, p) {
        return false;
    }
    is_number(b, q)
}

/// Whether two bounds differ where two values compare so, which are their numbers.
fn are_unequal(p: Bound, q: Bound, by: Compare, a: Limits, b: Limits) -> bool
    ensures { result ≡ true → (s : AbstractState) → IsCompared s by a.entry b.entry (facts.Unequal p q) }
{
    match by {
        Compare::Unequal => are_numbers(p, q, a, b),
        Compare::Less | Compare::Greater | Compare::AtMost | Compare::AtLeast | Compare::Equal =>
            false,
    }
}

/// Whether a fact is so where two values compare so.
fn stands_compared(state: AbstractState, fact: Fact, by: Compare, a: Limits, b: Limits) -> bool
    ensures { result ≡ true → IsCompared state.entry by a.entry b.entry fact }
{
    if follows(state, fact) {
        return true;
    }
    match fact {
        Fact::AtMost(p, q) => is_compared(state, p, q, by, a, b),
        Fact::Unequal(p, q) => are_unequal(p, q, by, a, b),
        _ => false,
    }
}

/// Those of some candidates that are so where two values compare so.
pub fn facts_compared(
    alloc: Global,
    state: AbstractState,
    candidates: &[Fact],
    by: Compare,
    a: Limits,
    b: Limits,
) -> Result<Vec<Fact>, AllocError>
    ensures { IfOk result (λ after. Compares state.entry by a.entry b.entry after.items) }
{
    let mut after = Vec::new(alloc);
    for fact in candidates {
        if stands_compared(state, *fact, by, a, b) {
            after.push(*fact)?;
        }
    }
    Ok(after)
}
