//! Turns of a loop that are taken one by one.

ghost use Rattle.std.specs.Prelude.{OnOk, IfOk};
ghost use Rattle.ctd_traps.specs.inner.Noted.{IsPart};
ghost use Rattle.ctd_traps.specs.inner.Unrolled.{BeginsAt};

use crate::block::{CommandInBlock, all_commands};
use crate::mentions::{MentionedName, Use, all_mentions, mentions_of};
use crate::note::{Noted, note_answers, note_faults, note_turn};
use crate::start::Turns;
use crate::turn::{Counting, LoopEntry, Phase, enter};
use ctd_partitions::State;
use ctd_program::{Action, Command, Loop, LoopGuard, Var};
use ctd_states::{Context, Stop};
use ctd_token::Place;
use std::alloc::{AllocError, Global};

/// How many turns of a loop are taken one by one at most.
pub(crate) const TURNS: u64 = 128;

/// How many commands are taken in them at most.
const COMMANDS: u64 = 1_000;

/// How many facts a state may get in turns that are taken one by one.
const FACTS: usize = 8;

/// How many facts a state has at most.
fn most_facts(states: &[State]) -> usize {
    let mut most = 0;
    for state in states {
        most = state.facts.len().max(most);
    }
    most
}

/// How many facts states may have in turns that are taken one by one: some more than before the loop.
pub(crate) fn facts_allowed(before: &[State]) -> usize {
    most_facts(before).saturating_add(FACTS)
}

/// Whether states have no more facts than so many.
pub(crate) fn have_few_facts(states: &[State], facts: usize) -> bool {
    most_facts(states) <= facts
}

/// Whether a name in a turn is one without indices, which has one value.
fn has_one_value(place: &MentionedName) -> bool {
    place.indices.is_empty() && !matches!(place.used_as, Use::LooksAtAll)
}

/// Whether names in turns have one value each.
fn have_one_value(places: &[MentionedName]) -> bool {
    for place in places {
        if !has_one_value(place) {
            return false;
        }
    }
    true
}

/// Whether a counter, if there is one, is a name without indices, and the count is known. Else candidates know more of numbers beside the count.
fn counts_to_number(counter: &Option<Box<Var>>, turns: &Turns) -> bool {
    match counter {
        Some(variable) => variable.indices.as_slice().is_empty() && turns.least == turns.most,
        None => true,
    }
}

/// Whether a separator, if there is one, has no block, and the names in it have one value each.
fn is_plain_separator(alloc: Global, between: &Option<Box<Command>>) -> Result<bool, AllocError> {
    match between {
        Some(command) => {
            let places = mentions_of(alloc, command)?;
            Ok(!has_block(command) && have_one_value(places.as_slice()))
        }
        None => Ok(true),
    }
}

/// Whether a command has a block of its own.
fn has_block(command: &Command) -> bool {
    matches!(&command.action, Action::Loop(_) | Action::If(_))
}

/// Whether one of some commands is a loop.
fn has_loop(commands: &[CommandInBlock]) -> bool {
    for entry in commands {
        if matches!(&entry.command.action, Action::Loop(_)) {
            return true;
        }
    }
    false
}

/// Whether a loop stands in the block of another.
pub(crate) fn has_inner_loop(alloc: Global, repeated: &Loop) -> Result<bool, AllocError> {
    let body = all_commands(alloc, repeated.body.as_slice())?;
    Ok(has_loop(body.as_slice()))
}

/// Whether a loop surely has so few turns, of few commands, that they can be taken one by one.
pub(crate) fn has_few_turns(
    alloc: Global,
    repeated: &Loop,
    turns: &Turns,
) -> Result<bool, AllocError> {
    if matches!(&repeated.guard, LoopGuard::While(_)) || turns.most > TURNS {
        return Ok(false);
    }
    let body = all_commands(alloc, repeated.body.as_slice())?;
    let each = (body.len() as u64).saturating_add(2);
    Ok(turns.most.saturating_mul(each) <= COMMANDS)
}

/// Whether turns that are taken one by one know no less than a candidate. Names with indices and other loops are left to candidates, since these
/// know more of elements.
pub(crate) fn is_plain(alloc: Global, repeated: &Loop, turns: &Turns) -> Result<bool, AllocError> {
    if !counts_to_number(&repeated.counter, turns)
        || !is_plain_separator(alloc, &repeated.between)?
    {
        return Ok(false);
    }
    let body = all_commands(alloc, repeated.body.as_slice())?;
    let places = all_mentions(alloc, body.as_slice())?;
    Ok(!has_loop(body.as_slice()) && have_one_value(places.as_slice()))
}

/// How one turn of a loop begins in some states. What may happen there is noted.
pub(crate) fn begin_turn(
    repeated: &Loop,
    place: Place,
    context: Context,
    counting: &Counting,
    k: u64,
    states: &[State],
    noted: &mut Noted,
) -> Result<LoopEntry, Stop>
    ensures more { OnOk result (IsPart context.entry noted.old noted.new) }
    ensures begins { IfOk result (λ e. BeginsAt context.entry states.now counting.now e.inside.items e.outside.items e.faults noted.new place repeated.now k) }
{
    let begun = enter(repeated, Phase::At(k), counting, context, states)?;
    note_turn(place, context, k, states, noted)?;
    note_faults(place, begun.faults, noted)?;
    note_answers(
        place,
        begun.inside.as_slice(),
        begun.outside.as_slice(),
        noted,
    )?;
    Ok(begun)
}
