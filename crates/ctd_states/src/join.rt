//! The join of two states. It fails where memory ran out, and where they cannot be joined.

ghost use Rattle.std.specs.Prelude.{List, ℕ, IfOk};
ghost use Rattle.std.specs.Borrow.{Bor};
ghost use Rattle.ctd_states.specs.calls.States.{StateIsWithin, named_values};

use crate::stop::Stop;
use crate::value::{AbstractValue, is_within};
use crate::widen::merge;
use std::alloc::Global;

/// The join of two states, checked.
pub fn join_entries(
    alloc: Global,
    a: &[AbstractValue],
    b: &[AbstractValue],
) -> Result<Vec<AbstractValue>, Stop>
    ensures left { IfOk result (λ all. (names : List (Bor (List ℕ))) → StateIsWithin (named_values names a.now) (named_values names all.items)) }
    ensures right { IfOk result (λ all. (names : List (Bor (List ℕ))) → StateIsWithin (named_values names b.now) (named_values names all.items)) }
{
    let all = merge(alloc, a, b)?;
    if !is_within(a, all.as_slice()) {
        return Err(Stop::GaveUp);
    }
    if !is_within(b, all.as_slice()) {
        return Err(Stop::GaveUp);
    }
    Ok(all)
}
