//! The states in which runs may be at the places of a program, joined as a walk comes there.

ghost use Rattle.std.specs.Prelude.{◌≡◌, ◌<◌, ℕ, true, length, get_or, IfSome, OnOk};
ghost use Rattle.ctd_partitions.specs.calls.Partitions.{OneStands};
ghost use Rattle.ctd_states.specs.declared.assign.Context.{Context};
ghost use Rattle.ctd_store.specs.Store.{Bindings};
ghost use Rattle.ctd_traps.specs.inner.Joined.{AreWithin, IsAdded, IsFound, IsOf, IsWithin, is_asked};

use ctd_partitions::{State, join, join_all};
use ctd_states::{Context, Stop};
use ctd_token::Place;
use std::alloc::{AllocError, Global};

/// When a run has variables at a place.
#[derive(Clone, Copy, PartialEq, Eq)]
pub enum Moment {
    /// A command there begins.
    Begins,
    /// A turn of the loop there has ended.
    TurnEnded,
    /// All commands of the program are done.
    Done,
}

/// At which moments it is asked what is known of the variables.
#[derive(Clone, Copy, PartialEq, Eq)]
pub enum Asked {
    /// At none.
    Nothing,
    /// Where a turn has ended, and where all commands are done.
    Ends,
    /// Also where a command begins.
    All,
}

/// Whether it is asked what is known at a moment.
pub(crate) fn is_asked(asked: Asked, moment: Moment) -> bool
    ensures { result ≡ is_asked asked moment }
{
    match asked {
        Asked::Nothing => false,
        Asked::Ends => match moment {
            Moment::Begins => false,
            Moment::TurnEnded | Moment::Done => true,
        },
        Asked::All => true,
    }
}

/// At which moments it is asked what is known, where this is so in a part too.
fn asked_in_both(asked: Asked, in_part: Asked) -> Asked
    ensures whole { (m : Moment) → is_asked result m ≡ true → is_asked asked m ≡ true }
    ensures part { (m : Moment) → is_asked result m ≡ true → is_asked in_part m ≡ true }
{
    if asked == in_part {
        asked
    } else {
        Asked::Nothing
    }
}

/// The join of the states in which runs may be at a place and a moment.
#[derive(Drop)]
pub(crate) struct JoinedState {
    pub(crate) place: Place,
    pub(crate) moment: Moment,
    pub(crate) state: State,
}

/// A joined state of each place, at the moments of which it is asked.
#[derive(Drop)]
pub(crate) struct JoinedStates {
    pub(crate) asked: Asked,
    pub(crate) states: Vec<JoinedState>,
}

/// No joined states so far.
pub(crate) fn no_states(alloc: Global, asked: Asked) -> JoinedStates {
    JoinedStates {
        asked,
        states: Vec::new(alloc),
    }
}

/// Whether a joined state is the one of a place and a moment.
pub(crate) fn is_of(joined: &JoinedState, place: Place, moment: Moment) -> bool
    ensures yes { result ≡ true → IsOf joined.now place moment }
    ensures no { IsOf joined.now place moment → result ≡ true }
{
    joined.place.line == place.line
        && joined.place.column == place.column
        && joined.moment == moment
}

/// The index of the joined state of a place and a moment, if there is one.
fn index_of_place(states: &[JoinedState], place: Place, moment: Moment) -> Option<usize>
    ensures inside { IfSome result (λ i. i < length states.now) }
    ensures at { IfSome result (λ i. (x : JoinedState) → x ≡ get_or states.now i x → IsOf x place moment) }
{
    for i in 0..states.len() {
        if is_of(&states[i], place, moment) {
            return Some(i);
        }
    }
    None
}

/// Adds a joined state at the end.
fn push_state(more: JoinedState, states: &mut Vec<JoinedState>) -> Result<(), AllocError>
    ensures others { OnOk result ((g : Context) → AreWithin g states.old.items states.new.items) }
    ensures added { OnOk result ((g : Context) → IsAdded g more states.new.items) }
{
    states.push(more)?;
    Ok(())
}

/// Adds a joined state. One of the same place and moment is joined with it.
fn add_state(context: Context, more: JoinedState, states: &mut Vec<JoinedState>) -> Result<(), Stop>
    ensures others { OnOk result (AreWithin context.entry states.old.items states.new.items) }
    ensures added { OnOk result (IsAdded context.entry more states.new.items) }
{
    match index_of_place(states.as_slice(), more.place, more.moment) {
        Some(i) => {
            let old = states.remove(i);
            let state = join(context, &old.state, &more.state)?;
            let both = JoinedState {
                place: old.place,
                moment: old.moment,
                state,
            };
            push_state(both, states)?;
            Ok(())
        }
        None => {
            push_state(more, states)?;
            Ok(())
        }
    }
}

/// Adds each of some joined states.
fn add_each(
    context: Context,
    mut more: Vec<JoinedState>,
    states: &mut Vec<JoinedState>,
) -> Result<(), Stop>
    ensures others { OnOk result (AreWithin context.entry states.old.items states.new.items) }
    ensures added { OnOk result (AreWithin context.entry more.items states.new.items) }
{
    while let Some(one) = more.pop() {
        add_state(context, one, states)?;
    }
    Ok(())
}

/// Adds the joined states of a part of a walk. Of what is not asked in it, nothing is asked of the whole.
pub(crate) fn add_part(
    context: Context,
    part: JoinedStates,
    joined: &mut JoinedStates,
) -> Result<(), Stop>
    ensures others { OnOk result (IsWithin context.entry joined.old joined.new) }
    ensures added { OnOk result (IsWithin context.entry part joined.new) }
{
    joined.asked = asked_in_both(joined.asked, part.asked);
    add_each(context, part.states, &mut joined.states)?;
    Ok(())
}

/// Adds the states in which a run may be at a place and a moment, if it is asked what is known then.
pub(crate) fn add_partition(
    place: Place,
    moment: Moment,
    context: Context,
    states: &[State],
    joined: &mut JoinedStates,
) -> Result<(), Stop>
    ensures others { OnOk result (IsWithin context.entry joined.old joined.new) }
    ensures found { OnOk result ((n : ℕ) (h : Bindings) → OneStands context.entry states.now n h → IsFound context.entry joined.new place moment h) }
{
    if !is_asked(joined.asked, moment) {
        return Ok(());
    }
    if states.is_empty() {
        return Ok(());
    }
    let state = join_all(context, states)?;
    let more = JoinedState {
        place,
        moment,
        state,
    };
    add_state(context, more, &mut joined.states)?;
    Ok(())
}
