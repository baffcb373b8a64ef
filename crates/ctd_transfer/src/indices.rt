//! Indices of elements, and what is known of them.

ghost use Rattle.std.specs.Prelude.{◌≡◌, ◌∷◌, ℕ, true, List, IfOk};
ghost use Rattle.ctd_store.specs.declared.value.Value.{Value};
ghost use Rattle.ctd_store.specs.Store.{Bindings};
ghost use Rattle.ctd_outcome.specs.declared.reason.Fault.{Fault};
ghost use Rattle.ctd_states.specs.calls.Faults.{IsAmong};
ghost use Rattle.ctd_states.specs.declared.assign.Context.{Context};
ghost use Rattle.ctd_partitions.specs.calls.States.{AreAtPosition};
ghost use Rattle.ctd_transfer.specs.inner.Indices.{AreIndices, IsFaultOf, IsSureAt, KnowsElement};

use crate::expression::Evaluation;
use ctd_elements::{AbstractState, is_filled};
use ctd_limits::{ValueLimits, anything, as_limits, cell_at, limits_of_element};
use ctd_partitions::Position;
use ctd_states::{Faults, PossibleValues, union};
use std::alloc::{AllocError, Global};

/// What is known of the indices of an element: of one, of two, or of more of them by which faults they may fail.
#[derive(Drop)]
pub(crate) enum Indices {
    One(Evaluation),
    Two(Evaluation, Evaluation),
    More(Faults),
}

/// By which faults indices may fail.
pub(crate) fn faults_of(indices: &Indices) -> Faults
    ensures { (f : Fault) → IsFaultOf indices.now f → IsAmong result f }
{
    match indices {
        Indices::One(index) => index.found.faults,
        Indices::Two(index, other) => union(index.found.faults, other.found.faults),
        Indices::More(faults) => *faults,
    }
}

/// The number that a value can only be, if there is one and it is not too large.
fn only_number(possible: PossibleValues) -> Option<i64> {
    let range = possible.number?;
    if range.low != range.high {
        return None;
    }
    i64::try_from(range.low).ok()
}

/// Where the element at some indices stands.
pub(crate) fn position_of(indices: &Indices) -> Position
    ensures { (g : Context) (n : ℕ) (h : Bindings) (i : Value) (is : List Value) → AreIndices g indices.now n h (i ∷ is) → AreAtPosition g h result (i ∷ is) }
{
    match indices {
        Indices::One(index) => Position {
            cell: cell_at(as_limits(&index.limits), None),
            source: index.limits.source,
            number: only_number(index.found.values),
        },
        Indices::Two(index, other) => Position {
            cell: cell_at(as_limits(&index.limits), Some(as_limits(&other.limits))),
            source: None,
            number: only_number(other.found.values),
        },
        Indices::More(_) => Position {
            cell: None,
            source: None,
            number: None,
        },
    }
}

/// Whether an array, by the index of its name, surely has a value at some indices.
pub(crate) fn is_sure_at(state: AbstractState, index: Option<usize>, indices: &Indices) -> bool
    ensures { result ≡ true → IsSureAt state.entry index indices.now }
{
    match index {
        Some(array) => match indices {
            Indices::One(index) => is_filled(state, array, as_limits(&index.limits), None),
            Indices::Two(index, other) => is_filled(
                state,
                array,
                as_limits(&index.limits),
                Some(as_limits(&other.limits)),
            ),
            Indices::More(_) => false,
        },
        None => false,
    }
}

/// What is known of the value of an element.
pub(crate) fn element_limits(
    alloc: Global,
    state: AbstractState,
    name: &[u8],
    indices: &Indices,
) -> Result<ValueLimits, AllocError>
    ensures { IfOk result (λ l. KnowsElement state.entry name.now indices.now l) }
{
    match indices {
        Indices::One(index) => {
            limits_of_element(alloc, state, name, as_limits(&index.limits), None)
        }
        Indices::Two(index, other) => limits_of_element(
            alloc,
            state,
            name,
            as_limits(&index.limits),
            Some(as_limits(&other.limits)),
        ),
        Indices::More(_) => Ok(anything(alloc)),
    }
}
