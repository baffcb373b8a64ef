//! How a loop starts and turns of it begin, and passages through it.

ghost use Rattle.std.specs.Prelude.{◌≡◌, true, OnOk, IfOk};
ghost use Rattle.ctd_check.specs.Loops.{Guard};
ghost use Rattle.ctd_partitions.specs.calls.Partitions.{PartitionIsWithin};
ghost use Rattle.ctd_program.specs.calls.View.{guard_tree};
ghost use Rattle.ctd_states.specs.declared.assign.Context.{Context};
ghost use Rattle.ctd_store.specs.Store.{Bindings};
ghost use Rattle.ctd_traps.specs.calls.Events.{goes_on};
ghost use Rattle.ctd_traps.specs.inner.Noted.{BegunIn, IsPart, NotedIn};
ghost use Rattle.ctd_traps.specs.inner.Passages.{IsEither, IsJoined, IsOneOf, IsSameOrNone};
ghost use Rattle.ctd_traps.specs.inner.Walk.{BeginsLater, IsGuard};

use crate::joined::Moment;
use crate::note::{
    EventKind, Noted, note_answers, note_begin, note_event, note_faults, note_states,
};
use crate::start::{Turns, may_start};
use crate::turn::{LoopEntry, LoopStart, Phase, enter};
use ctd_partitions::{State, are_within, join_partitions, widen_partition};
use ctd_program::{Loop, LoopGuard};
use ctd_states::{Context, Stop, union};
use ctd_token::Place;

/// Notes that a loop begins in some states, and that a run goes on there, if the loop may start.
pub(crate) fn note_start(
    guard: &LoopGuard,
    place: Place,
    context: Context,
    turns: &Turns,
    states: &[State],
    noted: &mut Noted,
) -> Result<(), Stop>
    ensures more { OnOk result (IsPart context.entry noted.old noted.new) }
    ensures begun { OnOk result (BegunIn context.entry noted.new place states.now) }
    ensures gone { OnOk result ((g : Context) (h : Bindings) (started : Guard) → IsGuard g (guard_tree guard.now) turns.now h started → NotedIn g noted.new place goes_on states.now) }
{
    note_begin(place, context, states, noted)?;
    if !may_start(guard, turns) {
        return Ok(());
    }
    note_event(place, EventKind::GoesOn, states, noted)?;
    Ok(())
}

/// How a turn of a loop but the first begins, by a candidate for the states before it. What may happen where a turn begins is noted.
pub(crate) fn begin_later(
    repeated: &Loop,
    place: Place,
    context: Context,
    begun: &LoopStart,
    candidate: &[State],
    noted: &mut Noted,
) -> Result<LoopEntry, Stop>
    ensures more { OnOk result (IsPart context.entry noted.old noted.new) }
    ensures begins { IfOk result (λ e. BeginsLater context.entry candidate.now begun.now.counting begun.now.first.inside.items begun.now.first.outside.items begun.now.first.faults e.inside.items e.outside.items e.faults noted.new place repeated.now) }
{
    let later = enter(repeated, Phase::Later, &begun.counting, context, candidate)?;
    let faults = union(
        begun.counting.turns.faults,
        union(begun.first.faults, later.faults),
    );
    let first = &begun.first;
    note_states(place, Moment::TurnEnded, context, candidate, noted)?;
    note_faults(place, faults, noted)?;
    note_answers(
        place,
        first.inside.as_slice(),
        first.outside.as_slice(),
        noted,
    )?;
    note_answers(
        place,
        later.inside.as_slice(),
        later.outside.as_slice(),
        noted,
    )?;
    Ok(later)
}

/// States leaving the loop, and at the end of a turn.
#[derive(Drop)]
pub(crate) struct Round {
    pub(crate) outside: Vec<State>,
    pub(crate) end: Vec<State>,
}

/// Whether a candidate for the states before each turn but the first is inductive: whether the states at the end of a turn are within it.
pub(crate) fn is_inductive(context: Context, candidate: &[State], passed: &Round) -> bool
    ensures { result ≡ true → PartitionIsWithin context.entry passed.now.end.items candidate.now }
{
    are_within(context, passed.end.as_slice(), candidate)
}

/// A candidate that was tried: the passage by it, if it is inductive, and the states at the end of a turn.
#[derive(Drop)]
pub(crate) struct Tried {
    pub(crate) passage: Option<Passage>,
    pub(crate) end: Vec<State>,
}

/// The states behind a loop, and what was noted in it.
#[derive(Drop)]
pub(crate) struct Passage {
    pub(crate) after: Vec<State>,
    pub(crate) inside: Noted,
}

/// A passage by a candidate: behind the loop are the states leaving it before the first turn, and before later ones.
pub(crate) fn join_outside(
    context: Context,
    first: &[State],
    later: Vec<State>,
    inside: Noted,
) -> Result<Passage, Stop>
    ensures { IfOk result (λ p. IsJoined context.entry first.now later.items inside p) }
{
    let after = join_partitions(context, later, first)?;
    Ok(Passage { after, inside })
}

/// Of two passages through a loop the one that tells fewer traps; the first, if both tell as many.
pub(crate) fn with_fewer_traps(one: Passage, other: Option<Passage>) -> Passage
    ensures { IsOneOf one other result }
{
    match other {
        Some(other) if other.inside.traps.len() < one.inside.traps.len() => other,
        _ => one,
    }
}

/// A passage that was searched; none where the search gave up.
pub(crate) fn none_if_given_up(
    found: Result<Option<Passage>, Stop>,
) -> Result<Option<Passage>, Stop>
    ensures { IsSameOrNone found result }
{
    match found {
        Err(Stop::GaveUp) => Ok(None),
        _ => found,
    }
}

/// The later of two passages, if there are any.
pub(crate) fn later_of(found: Option<Passage>, passage: Option<Passage>) -> Option<Passage>
    ensures { IsEither found passage result }
{
    if passage.is_some() { passage } else { found }
}

/// From which round on a candidate was widened. Once it is inductive, it is narrowed to the states at the end of a turn.
const WIDENED: usize = 3;

/// Whether a candidate that was tried is the last one: an inductive one that was not widened, or narrowed after another was found.
pub(crate) fn is_enough(tried: &Tried, found: &Option<Passage>, round: usize) -> bool {
    tried.passage.is_some() && (found.is_some() || round < WIDENED)
}

/// The next candidate: the states at the end of a turn where the last one was inductive, and else a wider one. No contract speaks of it: it is checked
/// where it is used.
pub(crate) fn next_candidate(
    context: Context,
    candidate: &[State],
    tried: &Tried,
    round: usize,
) -> Result<Vec<State>, Stop> {
    let end = tried.end.as_slice();
    if tried.passage.is_some() {
        return join_partitions(context, Vec::new(context.alloc), end);
    }
    widen_partition(context, candidate, end, round)
}
