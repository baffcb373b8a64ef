//! The state once variables got values, or lost them, and once a step is paid. `Stop::GaveUp` where a name is not listed.

ghost use Rattle.std.specs.Prelude.{◌≡◌, ◌++◌, true, false, List, [], ◌∷◌, IfOk};
ghost use Rattle.ctd_store.specs.declared.value.Value.{Value};
ghost use Rattle.ctd_states.specs.calls.Changed.{AssignsAlone, AssignsElements, Clears};
ghost use Rattle.ctd_states.specs.calls.States.{entries_in, pins_in};
ghost use Rattle.ctd_partitions.specs.calls.States.{AssignsAt, AssignsName, ClearsName, IsPinnedBy, PaysOne};
ghost use Rattle.ctd_partitions.specs.inner.States.{AssignsFacts, AssignsFactsAt, IsNone, IsTidied};

use crate::state::{State, copy_of_facts, view_of, with_facts};
use ctd_candidates::{candidates_with_element, candidates_with_name};
use ctd_element_changes::{Target, facts_beside, facts_with_element, facts_with_name, fewest};
use ctd_elements::{AbstractState, Cell, Fact, Limits, Source};
use ctd_states::{AbstractValue, Context, PossibleValues, Stop, copy_of, index_of, listed};

/// Whether no value is possible.
fn is_none(possible: PossibleValues) -> bool
    ensures { result ≡ true → IsNone possible }
{
    possible.text.is_none() && possible.number.is_none()
}

/// Whether a preset pins a name without indices. `Stop::GaveUp` where that is open.
pub fn is_pinned(context: Context, name: &[u8]) -> Result<bool, Stop>
    ensures { IfOk result (λ b. IsPinnedBy context.entry name.now [] b) }
{
    let pin = listed(context.names, context.pinned, name)?;
    if !pin.may_lack {
        return Ok(true);
    }
    if !is_none(pin.alone) {
        return Err(Stop::GaveUp);
    }
    Ok(false)
}

/// Whether surely no preset pins an element of a name.
fn has_no_pins(context: Context, name: &[u8]) -> Result<bool, Stop>
    ensures { IfOk result (λ b. b ≡ true → (i : Value) (is : List Value) → IsPinnedBy context.entry name.now (i ∷ is) false) }
{
    let pin = listed(context.names, context.pinned, name)?;
    Ok(is_none(pin.elements))
}

/// Facts that stay as they are, and others.
#[derive(Drop)]
pub(crate) struct Facts {
    pub(crate) staying: Vec<Fact>,
    pub(crate) changed: Vec<Fact>,
}

/// The state with some values and facts, without changed ones that follow from others.
pub(crate) fn tidied(
    context: Context,
    entries: Vec<AbstractValue>,
    facts: Facts,
) -> Result<State, Stop>
    ensures { IfOk result (λ after. IsTidied entries.items (facts.staying.items ++ facts.changed.items) after) }
{
    let Facts { staying, changed } = facts;
    let state = AbstractState {
        names: context.names,
        entries: entries.as_slice(),
        facts: &[],
    };
    let few = fewest(context.alloc, state, staying.as_slice(), changed.as_slice())?;
    let facts = with_facts(staying, few.as_slice())?;
    Ok(State { entries, facts })
}

/// The values once a name without indices got one of some values.
fn entries_assigned(
    context: Context,
    entries: &[AbstractValue],
    name: &[u8],
    possible: PossibleValues,
) -> Result<Vec<AbstractValue>, Stop>
    ensures { IfOk result (λ after. AssignsAlone (pins_in context.entry) (entries_in context.entry entries.now) name.now possible (entries_in context.entry after.items)) }
{
    let mut after = copy_of(context.alloc, entries)?;
    ctd_states::assign_alone(context, name, possible, after.as_mut_slice())?;
    Ok(after)
}

/// The values once an element got one of some values.
fn entries_assigned_at(
    context: Context,
    entries: &[AbstractValue],
    name: &[u8],
    possible: PossibleValues,
) -> Result<Vec<AbstractValue>, Stop>
    ensures { IfOk result (λ after. AssignsElements (entries_in context.entry entries.now) name.now possible (entries_in context.entry after.items)) }
{
    let mut after = copy_of(context.alloc, entries)?;
    ctd_states::assign_element(context, name, possible, after.as_mut_slice())?;
    Ok(after)
}

/// The values once a name lost what was assigned to it.
fn entries_cleared(
    context: Context,
    entries: &[AbstractValue],
    name: &[u8],
) -> Result<Vec<AbstractValue>, Stop>
    ensures { IfOk result (λ after. Clears (pins_in context.entry) (entries_in context.entry entries.now) name.now (entries_in context.entry after.items)) }
{
    let mut after = copy_of(context.alloc, entries)?;
    ctd_states::clear(context, name, after.as_mut_slice())?;
    Ok(after)
}

/// The facts once a name that no preset pins got a value of which something is known.
fn facts_given(context: Context, state: &State, name: &[u8], limits: Limits) -> Result<Facts, Stop>
    ensures { IfOk result (λ after. IsPinnedBy context.entry name.now [] false → AssignsFacts context.entry state.now name.now limits.entry (after.staying.items ++ after.changed.items)) }
{
    let alloc = context.alloc;
    let view = view_of(context, state);
    match index_of(context.names, view.entries, name) {
        Some(i) => {
            let staying = facts_beside(alloc, view.names, view.facts, name)?;
            let candidates = candidates_with_name(alloc, view, i, limits)?;
            let changed = facts_with_name(alloc, view, candidates.as_slice(), name, limits)?;
            Ok(Facts { staying, changed })
        }
        None => Err(Stop::GaveUp),
    }
}

/// All facts of a state, of which none changes.
pub(crate) fn same_facts(context: Context, state: &State) -> Result<Facts, Stop>
    ensures { IfOk result (λ same. same.staying.items ++ same.changed.items ≡ state.now.facts.items) }
{
    let staying = copy_of_facts(context.alloc, state.facts.as_slice())?;
    let changed = Vec::new(context.alloc);
    Ok(Facts { staying, changed })
}

/// The facts once a name got a value of which something is known.
fn facts_assigned(
    context: Context,
    state: &State,
    name: &[u8],
    limits: Limits,
) -> Result<Facts, Stop>
    ensures { IfOk result (λ after. AssignsFacts context.entry state.now name.now limits.entry (after.staying.items ++ after.changed.items)) }
{
    if is_pinned(context, name)? {
        return same_facts(context, state);
    }
    facts_given(context, state, name, limits)
}

/// Gives a name without indices one of some values, of which something is known.
pub fn assign_alone(
    context: Context,
    state: &State,
    name: &[u8],
    possible: PossibleValues,
    limits: Limits,
) -> Result<State, Stop>
    ensures { IfOk result (λ after. AssignsName context.entry state.now name.now possible limits.entry after) }
{
    let facts = facts_assigned(context, state, name, limits)?;
    let entries = entries_assigned(context, state.entries.as_slice(), name, possible)?;
    tidied(context, entries, facts)
}

/// Where an element stands: its cell, if it can be said; the element that has its one index as a value, if there is such; and the number of its last
/// index, if this can only be one.
#[derive(Clone, Copy)]
pub struct Position {
    pub cell: Option<Cell>,
    pub source: Option<Source>,
    pub number: Option<i64>,
}

/// The facts once an element got a value of which something is known.
fn facts_assigned_at(
    context: Context,
    state: &State,
    name: &[u8],
    at: Position,
    limits: Limits,
) -> Result<Facts, Stop>
    ensures { IfOk result (λ after. AssignsFactsAt context.entry state.now name.now at limits.entry (after.staying.items ++ after.changed.items)) }
{
    let alloc = context.alloc;
    let view = view_of(context, state);
    let is_free = has_no_pins(context, name)?;
    match index_of(context.names, view.entries, name) {
        Some(array) => {
            let target = Target {
                array,
                cell: at.cell,
                source: at.source,
                is_free,
            };
            let staying = facts_beside(alloc, view.names, view.facts, name)?;
            let candidates = candidates_with_element(
                alloc,
                view.facts,
                target,
                at.number,
                limits,
                context.pairs,
            )?;
            let changed = facts_with_element(alloc, view, candidates.as_slice(), target, limits)?;
            Ok(Facts { staying, changed })
        }
        None => Err(Stop::GaveUp),
    }
}

/// Gives an element one of some values, of which something is known.
pub fn assign_element(
    context: Context,
    state: &State,
    name: &[u8],
    at: Position,
    possible: PossibleValues,
    limits: Limits,
) -> Result<State, Stop>
    ensures { IfOk result (λ after. AssignsAt context.entry state.now name.now at possible limits.entry after) }
{
    let facts = facts_assigned_at(context, state, name, at, limits)?;
    let entries = entries_assigned_at(context, state.entries.as_slice(), name, possible)?;
    tidied(context, entries, facts)
}

/// Takes from a name what was assigned to it, and leaves its presets.
pub fn clear(context: Context, state: &State, name: &[u8]) -> Result<State, Stop>
    ensures { IfOk result (λ after. ClearsName context.entry state.now name.now after) }
{
    let facts = facts_beside(context.alloc, context.names, state.facts.as_slice(), name)?;
    let entries = entries_cleared(context, state.entries.as_slice(), name)?;
    Ok(State { entries, facts })
}

/// The state once a step is paid.
pub fn after_step(context: Context, state: &State) -> Result<State, Stop>
    ensures { IfOk result (λ after. PaysOne context.entry state.now after) }
{
    let entries = ctd_states::after_step(context.alloc, state.entries.as_slice())?;
    let facts = copy_of_facts(context.alloc, state.facts.as_slice())?;
    Ok(State { entries, facts })
}
