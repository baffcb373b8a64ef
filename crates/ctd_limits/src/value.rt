//! What is known of literals, names and elements.

ghost use Rattle.std.specs.Prelude.{◌≡◌, None, IfOk};
ghost use Rattle.ctd_limits.specs.calls.Known.{KnowsName, KnowsNumber, KnowsText};
ghost use Rattle.ctd_limits.specs.inner.Values.{KnowsBound, KnowsIndex, KnowsValue};

use crate::bounds::{bound_of_number, only};
use crate::known::{ValueLimits, anything};
use crate::name::{highs_of, lows_of};
use ctd_elements::{AbstractState, Bound, Index, number_of};
use ctd_states::index_of;
use std::alloc::{AllocError, Global};

/// What is known of the number of a bound without a term.
fn of_bound(alloc: Global, b: Bound) -> Result<ValueLimits, AllocError>
    ensures { IfOk result (λ l. b.term ≡ None → KnowsNumber b.add l) }
{
    let lows = only(alloc, b)?;
    let highs = only(alloc, b)?;
    Ok(ValueLimits {
        exact: Some(Index::Number(b)),
        lows,
        highs,
        source: None,
    })
}

/// What is known of a number.
pub fn limits_of_number(alloc: Global, n: i128) -> Result<ValueLimits, AllocError>
    ensures { IfOk result (λ l. KnowsNumber n l) }
{
    match bound_of_number(n) {
        Some(b) => of_bound(alloc, b),
        None => Ok(anything(alloc)),
    }
}

/// What is known of a string: where it stands among the names.
pub fn limits_of_text(alloc: Global, state: AbstractState, bytes: &[u8]) -> ValueLimits
    ensures { KnowsText state.entry bytes.now result }
{
    match index_of(state.names, state.entries, bytes) {
        Some(i) => ValueLimits {
            exact: Some(Index::Text(i)),
            ..anything(alloc)
        },
        None => anything(alloc),
    }
}

/// What is known of the value of a name that can only be a number.
fn of_number_name(alloc: Global, state: AbstractState, b: Bound) -> Result<ValueLimits, AllocError>
    ensures { IfOk result (λ l. KnowsBound state.entry b l) }
{
    let lows = lows_of(alloc, state, b)?;
    let highs = highs_of(alloc, state, b)?;
    Ok(ValueLimits {
        exact: Some(Index::Number(b)),
        lows,
        highs,
        source: None,
    })
}

/// What is known of the value of a name that may be a string.
fn of_any_name(alloc: Global, i: usize) -> ValueLimits
    ensures { KnowsIndex i result }
{
    ValueLimits {
        exact: Some(Index::Value(i)),
        ..anything(alloc)
    }
}

/// What is known of the value of a name, by its index.
pub(crate) fn of_index(
    alloc: Global,
    state: AbstractState,
    i: usize,
) -> Result<ValueLimits, AllocError>
    ensures { IfOk result (λ l. KnowsValue state.entry i l) }
{
    match number_of(state, Index::Value(i)) {
        Some(b) => of_number_name(alloc, state, b),
        None => Ok(of_any_name(alloc, i)),
    }
}

/// What is known of the value of a name.
pub fn limits_of_name(
    alloc: Global,
    state: AbstractState,
    name: &[u8],
) -> Result<ValueLimits, AllocError>
    ensures { IfOk result (λ l. KnowsName state.entry name.now l) }
{
    match index_of(state.names, state.entries, name) {
        Some(i) => of_index(alloc, state, i),
        None => Ok(anything(alloc)),
    }
}
