//! What is known of the variables of a run.

ghost use Rattle.std.specs.Prelude.{ℕ, IfOk, IfSome, OnOk, List};
ghost use Rattle.std.specs.Borrow.{Bor};
ghost use Rattle.ctd_store.specs.Store.{Bindings};
ghost use Rattle.ctd_states.specs.calls.States.{NameStands, name_at};
ghost use Rattle.ctd_states.specs.declared.assign.Context.{Context};
ghost use Rattle.ctd_partitions.specs.calls.States.{StateStands};
ghost use Rattle.ctd_traps.specs.calls.Known.{AreSo, IsKnownOf, IsSo};
ghost use Rattle.ctd_traps.specs.inner.Joined.{OneDescribes};
ghost use Rattle.ctd_traps.specs.inner.Knowing.{AreKnown, IsJoinOf, IsKnowledge, SomeStands, TellsAll};

use crate::block::all_commands;
use crate::joined::{JoinedState, JoinedStates, Moment, is_asked, is_of};
use ctd_elements::Fact;
use ctd_partitions::{State, copy_of_state, join};
use ctd_program::Command;
use ctd_states::{AbstractValue, Context, PossibleValues, Stop};
use ctd_token::Place;
use std::alloc::{AllocError, Global};

/// What is known of a variable, or of one beside another. A name is given by its index in a list of names.
#[derive(Clone, Copy)]
pub enum Known {
    /// A name without indices has one of these values.
    Has(usize, PossibleValues),
    /// It has one of these values, or none.
    MayHave(usize, PossibleValues),
    /// Each element of an array has one of these values.
    Elements(usize, PossibleValues),
    /// One number beside another, or which elements have values.
    Beside(Fact),
}

/// Whether all that is said is that there is no value.
fn says_none(one: Known) -> bool {
    match one {
        Known::MayHave(_, possible) | Known::Elements(_, possible) => {
            possible.text.is_none() && possible.number.is_none()
        }
        Known::Has(..) | Known::Beside(_) => false,
    }
}

/// Adds something that is known, unless all that it says is that there is no value.
fn add_known(known: &mut Vec<Known>, one: Known) -> Result<(), AllocError>
    ensures { OnOk result ((names : List (Bor (List ℕ))) (h : Bindings) → IsSo names h one → AreSo names h known.old.items → AreSo names h known.new.items) }
{
    if says_none(one) {
        return Ok(());
    }
    known.push(one)?;
    Ok(())
}

/// What an abstract value says of a name without indices.
fn known_alone(i: usize, value: AbstractValue) -> Known
    ensures { (names : List (Bor (List ℕ))) (n : ℕ) (h : Bindings) → NameStands (name_at names i) value n h → IsSo names h result }
{
    if value.may_lack {
        Known::MayHave(i, value.alone)
    } else {
        Known::Has(i, value.alone)
    }
}

/// Adds what an abstract value says of a name.
fn add_value(i: usize, value: AbstractValue, known: &mut Vec<Known>) -> Result<(), AllocError>
    ensures { OnOk result ((names : List (Bor (List ℕ))) (n : ℕ) (h : Bindings) → NameStands (name_at names i) value n h → AreSo names h known.old.items → AreSo names h known.new.items) }
{
    add_known(known, known_alone(i, value))?;
    add_known(known, Known::Elements(i, value.elements))?;
    Ok(())
}

/// What the abstract values of a state say.
fn known_values(alloc: Global, state: &State) -> Result<Vec<Known>, AllocError>
    ensures { IfOk result (λ known. TellsAll state.now known.items) }
{
    let mut known = Vec::new(alloc);
    let entries = state.entries.as_slice();
    for i in 0..entries.len() {
        add_value(i, entries[i], &mut known)?;
    }
    Ok(known)
}

/// What a state says.
pub(crate) fn known_in(alloc: Global, state: &State) -> Result<Vec<Known>, AllocError>
    ensures { IfOk result (λ known. TellsAll state.now known.items) }
{
    let mut known = known_values(alloc, state)?;
    let facts = state.facts.as_slice();
    for k in 0..facts.len() {
        add_known(&mut known, Known::Beside(facts[k]))?;
    }
    Ok(known)
}

/// The join of a state and another, if there is one.
fn join_to(context: Context, all: Option<State>, state: &State) -> Result<State, Stop>
    ensures { IfOk result (λ both. IsJoinOf context.entry all state.now both) }
{
    match all {
        Some(other) => join(context, &other, state),
        None => copy_of_state(context.alloc, state),
    }
}

/// The join of the states of a place and a moment, if there are any.
fn state_at(
    context: Context,
    place: Place,
    moment: Moment,
    states: &[JoinedState],
) -> Result<Option<State>, Stop>
    ensures { IfOk result (λ all. (h : Bindings) → OneDescribes context.entry states.now place moment h → SomeStands context.entry all h) }
{
    let mut all = None;
    for joined in states {
        if is_of(joined, place, moment) {
            let both = join_to(context, all, &joined.state)?;
            all = Some(both);
        }
    }
    Ok(all)
}

/// What is known at a place and a moment; none where no run comes to it.
fn known_at(
    context: Context,
    place: Place,
    moment: Moment,
    states: &[JoinedState],
) -> Result<Option<Vec<Known>>, Stop>
    ensures { IfOk result (λ known. (h : Bindings) → OneDescribes context.entry states.now place moment h → IsKnownOf context.entry.names.now h known) }
{
    let all = state_at(context, place, moment, states)?;
    match all {
        Some(state) => {
            let known = known_in(context.alloc, &state)?;
            Ok(Some(known))
        }
        None => Ok(None),
    }
}

/// What is known of the variables that runs have at a place and a moment.
#[derive(Drop)]
pub struct KnownAt {
    pub place: Place,
    pub moment: Moment,
    pub known: Vec<Known>,
}

/// Adds what is known at a place and a moment, if that is asked and a run comes to it.
fn add_place(
    context: Context,
    place: Place,
    moment: Moment,
    joined: &JoinedStates,
    found: &mut Vec<KnownAt>,
) -> Result<(), Stop>
    ensures { OnOk result (AreKnown context.entry joined.now found.old.items → AreKnown context.entry joined.now found.new.items) }
{
    if !is_asked(joined.asked, moment) {
        return Ok(());
    }
    let all = known_at(context, place, moment, joined.states.as_slice())?;
    match all {
        Some(known) => {
            found.push(KnownAt {
                place,
                moment,
                known,
            })?;
            Ok(())
        }
        None => Ok(()),
    }
}

/// What is known where each of some commands begins, and where a turn of it has ended, as far as that is asked, in the order of the text.
fn known_at_places(
    context: Context,
    commands: &[Command],
    joined: &JoinedStates,
) -> Result<Vec<KnownAt>, Stop>
    ensures { IfOk result (λ found. AreKnown context.entry joined.now found.items) }
{
    let entries = all_commands(context.alloc, commands)?;
    let mut found = Vec::new(context.alloc);
    for entry in entries.as_slice() {
        let place = entry.command.place;
        add_place(context, place, Moment::Begins, joined, &mut found)?;
        add_place(context, place, Moment::TurnEnded, joined, &mut found)?;
    }
    Ok(found)
}

/// What is known of the variables of runs, whatever the data, the mode and the limit of steps are.
#[derive(Drop)]
pub struct Knowledge {
    /// In the end of each file that is accepted: none where no file is accepted.
    pub at_end: Option<Vec<Known>>,
    /// Where runs come to places, in the order of the text.
    pub at_places: Vec<KnownAt>,
}

/// The place of the end of a program, where no command stands.
pub(crate) const END: Place = Place { line: 0, column: 0 };

/// What is known by joined states, if that is asked.
pub(crate) fn knowledge_of(
    context: Context,
    commands: &[Command],
    joined: &JoinedStates,
) -> Result<Option<Knowledge>, Stop>
    ensures { IfOk result (λ answer. IfSome answer (λ k. IsKnowledge context.entry joined.now k)) }
{
    if !is_asked(joined.asked, Moment::Done) {
        return Ok(None);
    }
    let at_end = known_at(context, END, Moment::Done, joined.states.as_slice())?;
    let at_places = known_at_places(context, commands, joined)?;
    Ok(Some(Knowledge { at_end, at_places }))
}
