//! Sums and differences of bounds, where they are bounds.

ghost use Rattle.std.specs.Prelude.{Some, IfSome};
ghost use Rattle.ctd_limits.specs.inner.Adding.{Adds, AddsTerms, Subtracts, SubtractsTerms};

use ctd_elements::{Bound, Term};

/// So often the name of a term more.
fn more_often(s: Term, t: Term) -> Option<Option<Term>>
    ensures { IfSome result (λ u. AddsTerms (Some s) (Some t) u) }
{
    if s.name != t.name {
        return None;
    }
    let times = s.times.checked_add(t.times)?;
    Some(Some(Term {
        name: s.name,
        times,
    }))
}

/// The sum of two terms, if there are any.
fn sum_of_terms(a: Option<Term>, b: Option<Term>) -> Option<Option<Term>>
    ensures { IfSome result (λ t. AddsTerms a b t) }
{
    match a {
        None => Some(b),
        Some(s) => match b {
            None => Some(a),
            Some(t) => more_often(s, t),
        },
    }
}

/// The sum of two bounds.
pub(crate) fn sum_of_bounds(a: Bound, b: Bound) -> Option<Bound>
    ensures { IfSome result (λ c. Adds a b c) }
{
    let term = sum_of_terms(a.term, b.term)?;
    let add = a.add.checked_add(b.add)?;
    Some(Bound { term, add })
}

/// So often the name of a term less.
fn less_often(s: Term, t: Term) -> Option<Option<Term>>
    ensures { IfSome result (λ u. SubtractsTerms (Some s) (Some t) u) }
{
    if s.name != t.name {
        return None;
    }
    let times = s.times.checked_sub(t.times)?;
    if times == 0 {
        return Some(None);
    }
    Some(Some(Term {
        name: s.name,
        times,
    }))
}

/// The difference of two terms, if there are any.
fn difference_of_terms(a: Option<Term>, b: Option<Term>) -> Option<Option<Term>>
    ensures { IfSome result (λ t. SubtractsTerms a b t) }
{
    match b {
        None => Some(a),
        Some(t) => match a {
            None => None,
            Some(s) => less_often(s, t),
        },
    }
}

/// The difference of two bounds.
pub(crate) fn difference_of_bounds(a: Bound, b: Bound) -> Option<Bound>
    ensures { IfSome result (λ c. Subtracts a b c) }
{
    let term = difference_of_terms(a.term, b.term)?;
    let add = a.add.checked_sub(b.add)?;
    Some(Bound { term, add })
}
