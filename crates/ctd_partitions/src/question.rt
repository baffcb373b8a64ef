//! The state where tests are true.

ghost use Rattle.std.specs.Prelude.{◌++◌, IfOk};
ghost use Rattle.ctd_program.specs.declared.tree.Compare.TheVariants.{Equal};
ghost use Rattle.ctd_partitions.specs.calls.Tests.{ComparesState, HitsState};
ghost use Rattle.ctd_partitions.specs.calls.States.{IsStateWithin};
ghost use Rattle.ctd_partitions.specs.inner.States.{IsTidied};

use crate::change::{Facts, tidied};
use crate::denied::is_denied;
use crate::state::{State, copy_of_facts, make_unreachable, view_of};
use ctd_candidates::{candidates_compared, candidates_equal, candidates_hit};
use ctd_element_changes::{facts_compared, facts_hit, facts_that_follow};
use ctd_elements::{Fact, Limits};
use ctd_program::Compare;
use ctd_states::{Context, Stop, copy_of};

/// The state with what it says of two numbers, of which something is known, that they compare so.
fn with_comparison(
    context: Context,
    state: &State,
    by: Compare,
    a: Limits,
    b: Limits,
) -> Result<State, Stop>
    ensures { IfOk result (λ after. ComparesState context.entry state.now by a.entry b.entry after) }
{
    let view = view_of(context, state);
    let candidates = candidates_compared(context.alloc, a, b)?;
    let changed = facts_compared(context.alloc, view, candidates.as_slice(), by, a, b)?;
    with_changed(context, state, changed)
}

/// The state where two numbers, of which something is known, compare so: where that denies it, the state is unreachable.
pub fn compared(
    context: Context,
    state: &State,
    by: Compare,
    a: Limits,
    b: Limits,
) -> Result<State, Stop>
    ensures { IfOk result (λ after. ComparesState context.entry state.now by a.entry b.entry after) }
{
    let mut after = with_comparison(context, state, by, a, b)?;
    if is_denied(view_of(context, state), by, a, b) {
        make_unreachable(&mut after);
    }
    Ok(after)
}

/// A state with more facts, of which none but these change.
fn with_changed(context: Context, state: &State, changed: Vec<Fact>) -> Result<State, Stop>
    ensures { IfOk result (λ after. IsTidied state.now.entries.items (state.now.facts.items ++ changed.items) after) }
{
    let entries = copy_of(context.alloc, state.entries.as_slice())?;
    let staying = copy_of_facts(context.alloc, state.facts.as_slice())?;
    tidied(context, entries, Facts { staying, changed })
}

/// The facts of a state, and those that are the same in other words: so some may go.
fn in_other_words(context: Context, state: &State, candidates: Vec<Fact>) -> Result<State, Stop>
    ensures { IfOk result (λ after. IsStateWithin context.entry state.now after) }
{
    let alloc = context.alloc;
    let entries = copy_of(alloc, state.entries.as_slice())?;
    let staying = Vec::new(alloc);
    let changed = facts_that_follow(alloc, view_of(context, state), candidates.as_slice())?;
    tidied(context, entries, Facts { staying, changed })
}

/// The state where two numbers, of which something is known, are the same: its facts speak of the second where they spoke of the first.
pub fn equal(context: Context, state: &State, a: Limits, b: Limits) -> Result<State, Stop>
    ensures { IfOk result (λ after. ComparesState context.entry state.now Equal a.entry b.entry after) }
{
    let same = compared(context, state, Compare::Equal, a, b)?;
    let candidates = candidates_equal(context.alloc, same.facts.as_slice(), a, b)?;
    in_other_words(context, &same, candidates)
}

/// The state where INARRAY is true of a value, of which something is known, and an array.
pub fn hit(context: Context, state: &State, limits: Limits, array: usize) -> Result<State, Stop>
    ensures { IfOk result (λ after. HitsState context.entry state.now limits.entry array after) }
{
    let view = view_of(context, state);
    let candidates = candidates_hit(context.alloc, view.facts, limits, array)?;
    let changed = facts_hit(context.alloc, view, candidates.as_slice(), limits, array)?;
    with_changed(context, state, changed)
}
