//! Whether a state is within another, and the join of two.

ghost use Rattle.std.specs.Prelude.{◌≡◌, ◌++◌, true, IfOk};
ghost use Rattle.ctd_partitions.specs.calls.States.{IsStateWithin};
ghost use Rattle.ctd_partitions.specs.inner.States.{FactsLead, IsNever};

use crate::change::{Facts, same_facts, tidied};
use crate::state::{State, view_of};
use ctd_candidates::candidates_of_both;
use ctd_element_changes::{all_follow, facts_of_both};
use ctd_states::{Context, Stop, is_unreachable, join_entries};

/// Whether no run comes to a state.
pub(crate) fn is_never(state: &State) -> bool
    ensures { result ≡ true → IsNever state.now }
{
    is_unreachable(state.entries.as_slice())
}

/// Whether a state is within another, or unreachable.
pub fn is_within(context: Context, state: &State, other: &State) -> bool
    ensures { result ≡ true → IsStateWithin context.entry state.now other.now }
{
    if is_never(state) {
        return true;
    }
    if !ctd_states::is_within(state.entries.as_slice(), other.entries.as_slice()) {
        return false;
    }
    all_follow(view_of(context, state), other.facts.as_slice())
}

/// The facts of both of two states; of the other one, if no run comes to the first. Those of the first that the other has too stay as they are.
pub(crate) fn joined_facts(context: Context, a: &State, b: &State) -> Result<Facts, Stop>
    ensures left { IfOk result (λ all. FactsLead context.entry a.now (all.staying.items ++ all.changed.items)) }
    ensures right { IfOk result (λ all. FactsLead context.entry b.now (all.staying.items ++ all.changed.items)) }
{
    if is_never(a) {
        return same_facts(context, b);
    }
    if is_never(b) {
        return same_facts(context, a);
    }
    let alloc = context.alloc;
    let view = view_of(context, a);
    let other = view_of(context, b);
    let staying = facts_of_both(alloc, view, other, view.facts)?;
    let candidates = candidates_of_both(alloc, view.facts, other.facts)?;
    let changed = facts_of_both(alloc, view, other, candidates.as_slice())?;
    Ok(Facts { staying, changed })
}

/// The join of two states, checked. `Stop::GaveUp` where their values cannot be joined.
pub fn join(context: Context, a: &State, b: &State) -> Result<State, Stop>
    ensures left { IfOk result (λ all. IsStateWithin context.entry a.now all) }
    ensures right { IfOk result (λ all. IsStateWithin context.entry b.now all) }
{
    let entries = join_entries(context.alloc, a.entries.as_slice(), b.entries.as_slice())?;
    let facts = joined_facts(context, a, b)?;
    tidied(context, entries, facts)
}
