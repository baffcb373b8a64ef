//! What a walk notes: where a run may stop, and which other events it may have where.

ghost use Rattle.std.specs.Prelude.{◌≡◌, ℕ, suc, OnOk};
ghost use Rattle.ctd_states.specs.declared.assign.Context.{Context};
ghost use Rattle.ctd_traps.specs.calls.Events.{answers, event_of_kind, goes_on};
ghost use Rattle.ctd_traps.specs.inner.Noted.{AreNoted, BegunIn, FoundIn, IsPart, NotedIn};
ghost use Rattle.ctd_traps.specs.declared.joined.Moment.TheVariants as moments;
ghost use Rattle.std.specs.Prelude.{true, false};

use crate::joined::{Asked, JoinedStates, Moment, add_part, add_partition, no_states};
use crate::trap::{Trap, add_traps, report};
use ctd_partitions::State;
use ctd_states::{Context, Faults, Stop};
use ctd_token::Place;
use std::alloc::{AllocError, Global};

/// What may happen at a command besides a fault.
#[derive(Clone, Copy, PartialEq, Eq)]
pub enum EventKind {
    /// The command begins.
    Begins,
    /// A run goes on behind it, or with its parts.
    GoesOn,
    /// The test of ASSERT or IF is true, or a turn of a loop begins.
    IsTrue,
    /// The test of ASSERT or IF is false, or a loop is over.
    IsFalse,
}

/// An event at the place of a command.
#[derive(Clone, Copy)]
pub struct Note {
    pub place: Place,
    pub kind: EventKind,
}

/// Where a run may stop, which other events it may have where, in which states it may be there, if joined states are kept, and the first loop of which
/// less is known, since it was walked with the widest candidate.
#[derive(Drop)]
pub(crate) struct Noted {
    pub(crate) traps: Vec<Trap>,
    pub(crate) events: Vec<Note>,
    pub(crate) joined: JoinedStates,
    pub(crate) less_known: Option<Place>,
}

/// Nothing is noted.
pub(crate) fn nothing_noted(alloc: Global, asked: Asked) -> Noted {
    Noted {
        traps: Vec::new(alloc),
        events: Vec::new(alloc),
        joined: no_states(alloc, asked),
        less_known: None,
    }
}

/// Notes each of some faults at a place.
pub(crate) fn note_faults(place: Place, faults: Faults, noted: &mut Noted) -> Result<(), AllocError>
    ensures more { OnOk result ((g : Context) → IsPart g noted.old noted.new) }
    ensures faults { OnOk result (AreNoted noted.new place faults) }
{
    report(place, faults, &mut noted.traps)?;
    Ok(())
}

/// Notes an event at a place, unless it is unreachable.
pub(crate) fn note_event(
    place: Place,
    kind: EventKind,
    states: &[State],
    noted: &mut Noted,
) -> Result<(), AllocError>
    ensures more { OnOk result ((g : Context) → IsPart g noted.old noted.new) }
    ensures event { OnOk result ((g : Context) → NotedIn g noted.new place (event_of_kind kind) states.now) }
{
    if states.is_empty() {
        return Ok(());
    }
    noted.events.push(Note { place, kind })?;
    Ok(())
}

/// Notes the states in which a run may be at a place and a moment.
pub(crate) fn note_states(
    place: Place,
    moment: Moment,
    context: Context,
    states: &[State],
    noted: &mut Noted,
) -> Result<(), Stop>
    ensures more { OnOk result (IsPart context.entry noted.old noted.new) }
    ensures found { OnOk result (FoundIn context.entry noted.new place moment states.now) }
{
    add_partition(place, moment, context, states, &mut noted.joined)?;
    Ok(())
}

/// Notes the states in which a turn has ended, before the turn of a number: before the first one none has.
pub(crate) fn note_turn(
    place: Place,
    context: Context,
    k: u64,
    states: &[State],
    noted: &mut Noted,
) -> Result<(), Stop>
    ensures more { OnOk result (IsPart context.entry noted.old noted.new) }
    ensures ended { OnOk result ((j : ℕ) → k ≡ suc j → FoundIn context.entry noted.new place moments.TurnEnded states.now) }
{
    if k == 0 {
        return Ok(());
    }
    note_states(place, Moment::TurnEnded, context, states, noted)?;
    Ok(())
}

/// Notes that a command begins in some states.
pub(crate) fn note_begin(
    place: Place,
    context: Context,
    states: &[State],
    noted: &mut Noted,
) -> Result<(), Stop>
    ensures more { OnOk result (IsPart context.entry noted.old noted.new) }
    ensures begun { OnOk result (BegunIn context.entry noted.new place states.now) }
{
    note_event(place, EventKind::Begins, states, noted)?;
    note_states(place, Moment::Begins, context, states, noted)?;
    Ok(())
}

/// Notes that a command begins in some states, and that a run goes on in others.
pub(crate) fn note_run(
    place: Place,
    context: Context,
    before: &[State],
    after: &[State],
    noted: &mut Noted,
) -> Result<(), Stop>
    ensures more { OnOk result (IsPart context.entry noted.old noted.new) }
    ensures begun { OnOk result (BegunIn context.entry noted.new place before.now) }
    ensures gone { OnOk result ((g : Context) → NotedIn g noted.new place goes_on after.now) }
{
    note_begin(place, context, before, noted)?;
    note_event(place, EventKind::GoesOn, after, noted)?;
    Ok(())
}

/// Notes the answers of a test, or of the begin of a turn, by the states in which it is true and in which it is false.
pub(crate) fn note_answers(
    place: Place,
    if_true: &[State],
    if_false: &[State],
    noted: &mut Noted,
) -> Result<(), AllocError>
    ensures more { OnOk result ((g : Context) → IsPart g noted.old noted.new) }
    ensures on_true { OnOk result ((g : Context) → NotedIn g noted.new place (answers true) if_true.now) }
    ensures on_false { OnOk result ((g : Context) → NotedIn g noted.new place (answers false) if_false.now) }
{
    note_event(place, EventKind::IsTrue, if_true, noted)?;
    note_event(place, EventKind::IsFalse, if_false, noted)?;
    Ok(())
}

/// The first of two places, as far as there are such.
fn first_place(one: Option<Place>, other: Option<Place>) -> Option<Place> {
    one.or(other)
}

/// Adds all that was noted in a part of a walk.
pub(crate) fn note_all(context: Context, part: Noted, noted: &mut Noted) -> Result<(), Stop>
    ensures more { OnOk result (IsPart context.entry noted.old noted.new) }
    ensures all { OnOk result (IsPart context.entry part noted.new) }
{
    add_traps(part.traps.as_slice(), &mut noted.traps)?;
    noted.events.extend_from_slice(part.events.as_slice())?;
    add_part(context, part.joined, &mut noted.joined)?;
    noted.less_known = first_place(noted.less_known, part.less_known);
    Ok(())
}
