//! What is known of the count of a loop all through the loop.

ghost use Rattle.std.specs.Prelude.{◌≡◌, true, IfOk};
ghost use Rattle.ctd_traps.specs.inner.Turns.{AreLasting, BoundLasts, IndexLasts, IsLasting, KnowsLasting};

use crate::spare::loop_spares;
use ctd_elements::{Bound, Index};
use ctd_limits::ValueLimits;
use ctd_program::Loop;
use ctd_states::{Context, Stop};

/// Whether a bound stays the same in a loop.
fn stays(names: &[&[u8]], repeated: &Loop, b: Bound) -> bool
    ensures { result ≡ true → BoundLasts names.now repeated.now b }
{
    match b.term {
        Some(term) => match names.get(term.name) {
            Some(name) => loop_spares(name, repeated),
            None => false,
        },
        None => true,
    }
}

/// The bounds that stay the same in a loop.
fn lasting_bounds(context: Context, repeated: &Loop, bounds: &[Bound]) -> Result<Vec<Bound>, Stop>
    ensures { IfOk result (λ kept. AreLasting context.entry.names.now repeated.now bounds.now kept.items) }
{
    let mut after = Vec::new(context.alloc);
    for b in bounds {
        if stays(context.names, repeated, *b) {
            after.push(*b)?;
        }
    }
    Ok(after)
}

/// Whether an index is a number that stays the same in a loop.
fn index_stays(names: &[&[u8]], repeated: &Loop, index: Index) -> bool
    ensures { result ≡ true → IndexLasts names.now repeated.now index }
{
    match index {
        Index::Number(b) => stays(names, repeated, b),
        Index::Value(_) | Index::Text(_) => false,
    }
}

/// An index, if it is a number that stays the same in a loop.
fn lasting_index(context: Context, repeated: &Loop, exact: Option<Index>) -> Option<Index>
    ensures { IsLasting context.entry.names.now repeated.now exact result }
{
    match exact {
        Some(index) => {
            if index_stays(context.names, repeated, index) {
                exact
            } else {
                None
            }
        }
        None => None,
    }
}

/// What is known of a count all through the loop.
pub(crate) fn lasting_limits(
    context: Context,
    repeated: &Loop,
    count: &ValueLimits,
) -> Result<ValueLimits, Stop>
    ensures { IfOk result (λ kept. KnowsLasting context.entry.names.now repeated.now count.now kept) }
{
    let lows = lasting_bounds(context, repeated, count.lows.as_slice())?;
    let highs = lasting_bounds(context, repeated, count.highs.as_slice())?;
    Ok(ValueLimits {
        exact: lasting_index(context, repeated, count.exact),
        lows,
        highs,
        source: None,
    })
}
