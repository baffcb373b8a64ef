//! Whether one bound is at most another.

ghost use Rattle.std.specs.Prelude.{◌≡◌, ◌+◌, ◌≤ℤ◌, ◌+ℤ◌, ◌*ℤ◌, pos, true, Some, IfSome};
ghost use Rattle.ctd_states.specs.calls.States.{named_values};
ghost use Rattle.ctd_elements.specs.calls.States.{Orders};
ghost use Rattle.ctd_elements.specs.declared.fact.Fact.TheVariants as facts;
ghost use Rattle.ctd_elements.specs.inner.Bounds.{IsGreatestOf, IsLeastOf, IsNoNumber, IsSureOf, LacksNumber, OrdersBy};
ghost use Rattle.ctd_elements.specs.calls.Orders.{IsGreatest, IsLeast, IsMoved, IsSure};

use crate::fact::{AbstractState, Bound, Fact, Term};
use ctd_states::AbstractValue;

/// The greatest number that a name may have.
fn greatest_of(value: AbstractValue) -> Option<i128>
    ensures { IfSome result (λ g. IsGreatestOf value g) }
{
    match value.alone.number {
        Some(range) => Some(range.high),
        None => None,
    }
}

/// The least number that a name may have.
fn least_of(value: AbstractValue) -> Option<i128>
    ensures { IfSome result (λ g. IsLeastOf value g) }
{
    match value.alone.number {
        Some(range) => Some(range.low),
        None => None,
    }
}

/// A multiple of a number, with another added, if it is not too large.
fn multiple_of(x: i128, times: u32, add: i64) -> Option<i128>
    ensures { IfSome result (λ g. g ≡ (pos times *ℤ x) +ℤ add) }
{
    i128::from(times)
        .checked_mul(x)?
        .checked_add(i128::from(add))
}

/// Whether a number is at most another.
fn is_no_more(a: i128, b: i128) -> bool
    ensures { result ≡ true → a ≤ℤ b }
{
    a <= b
}

/// The greatest number that a bound may have.
pub fn greatest(state: AbstractState, b: Bound) -> Option<i128>
    ensures { IfSome result (λ g. IsGreatest state.entry b g) }
{
    match b.term {
        None => Some(i128::from(b.add)),
        Some(term) => match state.entries.get(term.name) {
            Some(value) => multiple_of(greatest_of(*value)?, term.times, b.add),
            None => None,
        },
    }
}

/// The least number that a bound may have.
pub fn least(state: AbstractState, b: Bound) -> Option<i128>
    ensures { IfSome result (λ g. IsLeast state.entry b g) }
{
    match b.term {
        None => Some(i128::from(b.add)),
        Some(term) => match state.entries.get(term.name) {
            Some(value) => multiple_of(least_of(*value)?, term.times, b.add),
            None => None,
        },
    }
}

/// Whether a bound is at least so large.
pub(crate) fn reaches(state: AbstractState, most: i128, b: Bound) -> bool
    ensures { result ≡ true → IsLeast state.entry b most }
{
    match least(state, b) {
        Some(least) => is_no_more(most, least),
        None => false,
    }
}

/// Whether one bound is at most another, by the ranges of names.
fn is_at_most_by_ranges(state: AbstractState, a: Bound, b: Bound) -> bool
    ensures { result ≡ true → Orders state.entry a b }
{
    match greatest(state, a) {
        Some(most) => reaches(state, most, b),
        None => false,
    }
}

/// Whether two terms are one.
fn is_same_term(a: Term, b: Term) -> bool
    ensures { result ≡ true → a ≡ b }
{
    if a.name != b.name {
        return false;
    }
    a.times == b.times
}

/// Whether two bounds have one term, or none.
pub(crate) fn have_same_term(a: Bound, b: Bound) -> bool
    ensures { result ≡ true → a.term ≡ b.term }
{
    match a.term {
        Some(x) => match b.term {
            Some(y) => is_same_term(x, y),
            None => false,
        },
        None => b.term.is_none(),
    }
}

/// Whether one bound is at most another, by what is added to one term.
fn is_at_most_by_term(state: AbstractState, a: Bound, b: Bound) -> bool
    ensures { result ≡ true → Orders state.entry a b }
{
    if !have_same_term(a, b) {
        return false;
    }
    a.add <= b.add
}

/// How often more one term takes the name of another.
fn times_more(s: Term, t: Term) -> Option<Term>
    ensures { IfSome result (λ u. (s.name ≡ t.name) × (u.name ≡ t.name) × (u.times + s.times ≡ t.times)) }
{
    if s.name != t.name {
        return None;
    }
    let times = t.times.checked_sub(s.times)?;
    Some(Term {
        name: t.name,
        times,
    })
}

/// Whether one bound is at most another that takes the same name at least as often.
fn is_at_most_by_multiples(state: AbstractState, a: Bound, b: Bound, s: Term, t: Term) -> bool
    ensures { result ≡ true → a.term ≡ Some s → b.term ≡ Some t → Orders state.entry a b }
{
    match times_more(s, t) {
        Some(more) => {
            let rest = Bound {
                term: Some(more),
                add: b.add,
            };
            reaches(state, i128::from(a.add), rest)
        }
        None => false,
    }
}

/// Whether one bound is at most another, by the name of both.
fn is_at_most_by_name(state: AbstractState, a: Bound, b: Bound) -> bool
    ensures { result ≡ true → Orders state.entry a b }
{
    match (a.term, b.term) {
        (Some(s), Some(t)) => is_at_most_by_multiples(state, a, b, s, t),
        _ => false,
    }
}

/// Whether one bound is at most another, without facts of two names.
fn is_plainly_at_most(state: AbstractState, a: Bound, b: Bound) -> bool
    ensures { result ≡ true → Orders state.entry a b }
{
    if is_at_most_by_term(state, a, b) {
        return true;
    }
    if is_at_most_by_ranges(state, a, b) {
        return true;
    }
    is_at_most_by_name(state, a, b)
}

/// A bound that is moved as far as one bound lies above another of its term.
pub fn moved(by: Bound, from: Bound, to: Bound) -> Option<Bound>
    ensures { IfSome result (λ c. IsMoved by from to c) }
{
    if !have_same_term(by, from) {
        return None;
    }
    let add = by.add.checked_sub(from.add)?.checked_add(to.add)?;
    Some(Bound { term: to.term, add })
}

/// Whether a name surely has a number.
fn is_sure_number(value: AbstractValue) -> bool
    ensures { result ≡ true → IsSureOf value }
{
    if value.may_lack {
        return false;
    }
    value.alone.text.is_none()
}

/// Whether a bound surely has a number.
pub fn is_sure(state: AbstractState, b: Bound) -> bool
    ensures { result ≡ true → IsSure state.entry b }
{
    match b.term {
        None => true,
        Some(term) => match state.entries.get(term.name) {
            Some(value) => is_sure_number(*value),
            None => false,
        },
    }
}

/// Whether a name surely has no number.
fn is_no_number(value: AbstractValue) -> bool
    ensures { result ≡ true → IsNoNumber value }
{
    value.alone.number.is_none()
}

/// Whether a bound surely has no number.
pub(crate) fn lacks_number(state: AbstractState, b: Bound) -> bool
    ensures { result ≡ true → LacksNumber state.entry b }
{
    match b.term {
        None => false,
        Some(term) => match state.entries.get(term.name) {
            Some(value) => is_no_number(*value),
            None => false,
        },
    }
}

/// Whether one bound is at most another because it is at most one that is at most the other.
fn is_at_most_from(state: AbstractState, low: Bound, high: Bound, a: Bound, b: Bound) -> bool
    ensures { result ≡ true → OrdersBy state.entry (facts.AtMost low high) a b }
{
    match moved(a, low, high) {
        Some(c) => is_sure(state, c) && is_plainly_at_most(state, c, b),
        None => false,
    }
}

/// Whether one bound is at most another because the other is at least one that it is at most.
fn is_at_most_up_to(state: AbstractState, low: Bound, high: Bound, a: Bound, b: Bound) -> bool
    ensures { result ≡ true → OrdersBy state.entry (facts.AtMost low high) a b }
{
    match moved(b, high, low) {
        Some(c) => is_sure(state, c) && is_plainly_at_most(state, a, c),
        None => false,
    }
}

/// Whether one bound is at most another, by one fact.
fn is_at_most_by(state: AbstractState, fact: Fact, a: Bound, b: Bound) -> bool
    ensures { result ≡ true → OrdersBy state.entry fact a b }
{
    match fact {
        Fact::AtMost(low, high) => {
            if is_at_most_from(state, low, high, a, b) {
                return true;
            }
            is_at_most_up_to(state, low, high, a, b)
        }
        _ => false,
    }
}

/// Whether one bound is at most another.
pub fn is_at_most(state: AbstractState, a: Bound, b: Bound) -> bool
    ensures { result ≡ true → Orders state.entry a b }
{
    if is_plainly_at_most(state, a, b) {
        return true;
    }
    for fact in state.facts {
        if is_at_most_by(state, *fact, a, b) {
            return true;
        }
    }
    false
}
