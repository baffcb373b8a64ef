//! What is known of a value that a command reads, and of the counter of a loop.

ghost use Rattle.std.specs.Prelude.{IfOk};
ghost use Rattle.ctd_limits.specs.calls.Known.{CountsOn, LiesBetween};

use crate::bounds::copy_of;
use crate::known::ValueLimits;
use crate::operators::sum;
use crate::value::{limits_of_number, of_index};
use ctd_elements::AbstractState;
use std::alloc::{AllocError, Global};

/// What is known of a number from one value to another, as INT reads it.
pub fn between(
    alloc: Global,
    low: &ValueLimits,
    high: &ValueLimits,
) -> Result<ValueLimits, AllocError>
    ensures { IfOk result (λ l. LiesBetween low.now high.now l) }
{
    let lows = copy_of(alloc, low.lows.as_slice())?;
    let highs = copy_of(alloc, high.highs.as_slice())?;
    Ok(ValueLimits {
        exact: None,
        lows,
        highs,
        source: None,
    })
}

/// What is known of the counter in a later turn, where it still has the number of the last one: it is one more.
pub fn next_turn(
    alloc: Global,
    state: AbstractState,
    counter: usize,
) -> Result<ValueLimits, AllocError>
    ensures { IfOk result (λ l. CountsOn state.entry counter l) }
{
    let last = of_index(alloc, state, counter)?;
    let one = limits_of_number(alloc, 1)?;
    sum(alloc, &last, &one)
}
