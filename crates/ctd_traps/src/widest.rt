//! What is left of what is known, once a walk costs too much: the widest candidate of a loop, and states without facts.

ghost use Rattle.std.specs.Prelude.{IfOk};
ghost use Rattle.ctd_partitions.specs.calls.Partitions.{PartitionIsWithin};

use crate::block::commands_in_loop;
use crate::mentions::all_mentions;
use crate::roles::{Role, has_role, names_in_role};
use ctd_partitions::{State, join_all, join_state};
use ctd_program::Loop;
use ctd_range::Range;
use ctd_states::{AbstractValue, Context, Lengths, PossibleValues, Stop, copy_of};
use std::alloc::{AllocError, Global};
use std::collections::BTreeSet;

/// All values.
const ALL: PossibleValues = PossibleValues {
    text: Some(Lengths {
        least: 0,
        most: u64::MAX,
    }),
    number: Some(Range {
        low: i128::MIN,
        high: i128::MAX,
        rise: 0,
        fall: 0,
    }),
};

/// The names that a loop gives values, or whose values it forgets.
fn changed_names(alloc: Global, repeated: &Loop) -> Result<BTreeSet<&[u8]>, AllocError> {
    let commands = commands_in_loop(alloc, repeated)?;
    let mentions = all_mentions(alloc, commands.as_slice())?;
    let mut changed = names_in_role(alloc, Role::Gives, mentions.as_slice(), &[])?;
    for mention in mentions.as_slice() {
        if has_role(Role::Forgets, mention) {
            changed.insert(mention.name.as_slice())?;
        }
    }
    if let Some(counter) = &repeated.counter {
        changed.insert(counter.name.as_slice())?;
    }
    Ok(changed)
}

/// Any value of a name, or none; the pin where a preset pins it without indices.
fn any_value(pinned: AbstractValue) -> AbstractValue {
    AbstractValue {
        may_lack: pinned.may_lack,
        alone: if pinned.may_lack { ALL } else { pinned.alone },
        elements: ALL,
    }
}

/// The widest candidate for the states before the turns of a loop but the first: one state, in which each name that the loop changes may have any value
/// or none, and the others have what they have before the first turn. No fact is known of it. No contract speaks of it: it is checked where it is used.
pub(crate) fn widest_candidate(
    context: Context,
    repeated: &Loop,
    first: &[State],
) -> Result<Vec<State>, Stop> {
    let changed = changed_names(context.alloc, repeated)?;
    let before = join_all(context, first)?;
    let mut entries = Vec::new(context.alloc);
    for (i, pinned) in context.pinned.iter().enumerate() {
        let value = match (context.names.get(i), before.entries.as_slice().get(i)) {
            (Some(name), Some(value)) if !changed.contains(name) => *value,
            _ => any_value(*pinned),
        };
        entries.push(value)?;
    }
    let facts = Vec::new(context.alloc);
    let mut candidate = Vec::new(context.alloc);
    candidate.push(State { entries, facts })?;
    Ok(candidate)
}

/// States without their facts.
pub(crate) fn without_facts(context: Context, states: &[State]) -> Result<Vec<State>, Stop>
    ensures { IfOk result (λ wider. PartitionIsWithin context.entry states.now wider.items) }
{
    let mut wider = Vec::new(context.alloc);
    for state in states {
        let entries = copy_of(context.alloc, state.entries.as_slice())?;
        let facts = Vec::new(context.alloc);
        wider = join_state(context, wider, State { entries, facts })?;
    }
    Ok(wider)
}
