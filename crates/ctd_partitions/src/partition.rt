//! A partition: states side by side, of which one describes the variables of a run. Each call fails where memory ran out, and where two states
//! cannot be joined.

ghost use Rattle.std.specs.Prelude.{◌<◌, true, ◌≡◌, length, IfOk, IfSome};
ghost use Rattle.ctd_states.specs.declared.assign.Context.{Context};
ghost use Rattle.ctd_partitions.specs.calls.Partitions.{IsInPartition, IsUpperBound, PartitionIsWithin};
ghost use Rattle.ctd_partitions.specs.calls.States.{IsCopyOf};

use crate::change::{Facts, tidied};
use crate::compare::{is_never, is_within, join, joined_facts};
use crate::state::{State, copy_of_facts, view_of};
use ctd_candidates::candidates_of_both;
use ctd_element_changes::facts_that_follow;
use ctd_states::{AbstractValue, Context, Stop, copy_of, widen_entries};
use std::alloc::Global;

/// How many states a partition has at most.
const MOST: usize = 8;

/// Whether the same names are sure to have a value.
fn have_same_values(a: &[AbstractValue], b: &[AbstractValue]) -> bool {
    a.iter()
        .zip(b)
        .all(|(one, other)| one.may_lack == other.may_lack)
}

/// The index of the state in which the same names are sure to have a value.
fn matching_state(states: &[State], state: &State) -> Option<usize>
    ensures inside { IfSome result (λ i. i < length states.now) }
{
    for (i, other) in states.iter().enumerate() {
        if have_same_values(other.entries.as_slice(), state.entries.as_slice()) {
            return Some(i);
        }
    }
    None
}

/// Of how many names only one of two states says that they are sure to have a value.
fn count_differing(a: &[AbstractValue], b: &[AbstractValue]) -> usize {
    a.iter()
        .zip(b)
        .filter(|(one, other)| one.may_lack != other.may_lack)
        .count()
}

/// The index of the state that says so of the most names, as another does.
fn nearest_state(states: &[State], state: &State) -> Option<usize>
    ensures inside { IfSome result (λ i. i < length states.now) }
{
    let mut nearest = None;
    let mut least = usize::MAX;
    for (i, other) in states.iter().enumerate() {
        let differing = count_differing(other.entries.as_slice(), state.entries.as_slice());
        if differing < least {
            least = differing;
            nearest = Some(i);
        }
    }
    nearest
}

/// The index of the state with which another is joined: the one in which the same names are sure to have a value, or the nearest one, if there is no
/// room for another.
fn state_to_join(states: &[State], state: &State) -> Option<usize>
    ensures inside { IfSome result (λ i. i < length states.now) }
{
    let same = matching_state(states, state);
    if same.is_none() && states.len() >= MOST {
        return nearest_state(states, state);
    }
    same
}

/// A copy of a state.
pub fn copy_of_state(alloc: Global, state: &State) -> Result<State, Stop>
    ensures { IfOk result (λ copy. IsCopyOf state.now copy) }
{
    let entries = copy_of(alloc, state.entries.as_slice())?;
    let facts = copy_of_facts(alloc, state.facts.as_slice())?;
    Ok(State { entries, facts })
}

/// The join of the states of a partition: of none, a state of which nothing is known.
pub fn join_all(context: Context, states: &[State]) -> Result<State, Stop>
    ensures { IfOk result (λ all. IsUpperBound context.entry states.now all) }
{
    let mut all = match states.first() {
        Some(state) => copy_of_state(context.alloc, state)?,
        None => State {
            entries: Vec::new(context.alloc),
            facts: Vec::new(context.alloc),
        },
    };
    for state in states {
        all = join(context, &all, state)?;
    }
    Ok(all)
}

/// A partition and one more state.
fn with_pushed(mut states: Vec<State>, state: State) -> Result<Vec<State>, Stop>
    ensures others { IfOk result (λ all. (g : Context) → PartitionIsWithin g states.items all.items) }
    ensures added { IfOk result (λ all. (g : Context) → IsInPartition g state all.items) }
{
    states.push(state)?;
    Ok(states)
}

/// A partition and one more state, which is joined with that in which the same names are sure to have a value, and with the nearest one where there is
/// no room for it. Unreachable states are dropped.
pub fn join_state(
    context: Context,
    mut states: Vec<State>,
    state: State,
) -> Result<Vec<State>, Stop>
    ensures others { IfOk result (λ all. PartitionIsWithin context.entry states.items all.items) }
    ensures added { IfOk result (λ all. IsInPartition context.entry state all.items) }
{
    let is_dropped = is_never(&state);
    if is_dropped {
        return Ok(states);
    }
    match state_to_join(states.as_slice(), &state) {
        Some(i) => {
            let same = states.remove(i);
            let joined = join(context, &same, &state)?;
            with_pushed(states, joined)
        }
        None => with_pushed(states, state),
    }
}

/// The join of two partitions.
pub fn join_partitions(
    context: Context,
    states: Vec<State>,
    others: &[State],
) -> Result<Vec<State>, Stop>
    ensures first { IfOk result (λ all. PartitionIsWithin context.entry states.items all.items) }
    ensures second { IfOk result (λ all. PartitionIsWithin context.entry others.now all.items) }
{
    let mut all = states;
    for other in others {
        let copy = copy_of_state(context.alloc, other)?;
        all = join_state(context, all, copy)?;
    }
    Ok(all)
}

/// Whether a state is within one of others.
fn is_within_one(context: Context, state: &State, others: &[State]) -> bool
    ensures { result ≡ true → IsInPartition context.entry state.now others.now }
{
    for other in others {
        if is_within(context, state, other) {
            return true;
        }
    }
    false
}

/// Whether each state is within one of others.
pub fn are_within(context: Context, states: &[State], others: &[State]) -> bool
    ensures { result ≡ true → PartitionIsWithin context.entry states.now others.now }
{
    for state in states {
        if !is_within_one(context, state, others) {
            return false;
        }
    }
    true
}

/// In how many rounds a candidate may get new facts.
const OPEN_ROUNDS: usize = 3;

/// The facts of a state of a candidate, widened by those at the end of a turn: in the first rounds those of both, later the old ones that still follow,
/// with their greatest values or without.
fn widen_facts(context: Context, old: &State, end: &State, round: usize) -> Result<Facts, Stop> {
    if round < OPEN_ROUNDS {
        return joined_facts(context, old, end);
    }
    let alloc = context.alloc;
    let view = view_of(context, end);
    let staying = facts_that_follow(alloc, view, old.facts.as_slice())?;
    let looser = candidates_of_both(alloc, old.facts.as_slice(), &[])?;
    let changed = facts_that_follow(alloc, view, looser.as_slice())?;
    Ok(Facts { staying, changed })
}

/// A state, widened by that of the last candidate in which the same names are sure to have a value, and later by the nearest one.
fn widen_state(
    context: Context,
    candidate: &[State],
    state: &State,
    round: usize,
) -> Result<State, Stop> {
    let found = if round < OPEN_ROUNDS {
        matching_state(candidate, state)
    } else {
        nearest_state(candidate, state)
    };
    match found {
        Some(i) => {
            let old = &candidate[i];
            let entries = widen_entries(
                context.alloc,
                old.entries.as_slice(),
                state.entries.as_slice(),
                round,
            )?;
            let facts = widen_facts(context, old, state, round)?;
            tidied(context, entries, facts)
        }
        None => copy_of_state(context.alloc, state),
    }
}

/// The next candidate for an invariant: the states at the end of a turn, widened where they are not within the last one. No contract speaks of it: it
/// is checked where it is used.
pub fn widen_partition(
    context: Context,
    candidate: &[State],
    end: &[State],
    round: usize,
) -> Result<Vec<State>, Stop> {
    let mut next = Vec::new(context.alloc);
    for state in end {
        let wider = widen_state(context, candidate, state, round)?;
        next = join_state(context, next, wider)?;
    }
    Ok(next)
}
