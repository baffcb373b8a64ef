//! Comparisons that are so of no two numbers, by what is known of both.

ghost use Rattle.std.specs.Prelude.{◌≡◌, true, Some, IfSome};
ghost use Rattle.ctd_elements.specs.declared.fact.Index.TheVariants as indices;
ghost use Rattle.ctd_partitions.specs.inner.Denied.{Denies, IsAboveBy, IsAtLeastBy};

use ctd_elements::{AbstractState, Bound, Index, Limits, differ, is_from, is_up_to, next};
use ctd_program::Compare;

/// The bound whose number a value is, if it is known.
fn exact_number(limits: Limits) -> Option<Bound>
    ensures { IfSome result (λ b. limits.entry.exact ≡ Some (indices.Number b)) }
{
    match limits.exact {
        Some(Index::Number(b)) => Some(b),
        _ => None,
    }
}

/// Whether one number is surely at least another.
fn is_at_least(state: AbstractState, a: Limits, b: Limits) -> bool
    ensures { result ≡ true → IsAtLeastBy state.entry a.entry b.entry }
{
    if let Some(least) = exact_number(b) {
        return is_from(state, a, least);
    }
    match exact_number(a) {
        Some(most) => is_up_to(state, b, most),
        None => false,
    }
}

/// Whether one number is surely above another.
fn is_above(state: AbstractState, a: Limits, b: Limits) -> bool
    ensures { result ≡ true → IsAboveBy state.entry a.entry b.entry }
{
    match exact_number(b) {
        Some(below) => match next(below) {
            Some(least) => is_from(state, a, least),
            None => false,
        },
        None => false,
    }
}

/// Whether two numbers surely do not compare so.
pub(crate) fn is_denied(state: AbstractState, by: Compare, a: Limits, b: Limits) -> bool
    ensures { result ≡ true → Denies state.entry by a.entry b.entry }
{
    match by {
        Compare::Less => is_at_least(state, a, b),
        Compare::Greater => is_at_least(state, b, a),
        Compare::AtMost => is_above(state, a, b),
        Compare::AtLeast => is_above(state, b, a),
        Compare::Equal => {
            if is_above(state, a, b) {
                return true;
            }
            if is_above(state, b, a) {
                return true;
            }
            differ(state, a, b)
        }
        Compare::Unequal => {
            if !is_at_least(state, a, b) {
                return false;
            }
            is_at_least(state, b, a)
        }
    }
}
