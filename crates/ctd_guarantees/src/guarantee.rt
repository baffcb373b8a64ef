//! What every accepted file has.

ghost use Rattle.std.specs.Prelude.{◌≡◌, ◌≤◌, true, length, All, IfOk, IfSome, IsNone, IsSome, OnOk};
ghost use Rattle.ctd_program.specs.calls.View.{command_trees};
ghost use Rattle.ctd_traps.specs.calls.Known.{EachAcceptedHas, EachFinds};
ghost use Rattle.ctd_guarantees.specs.calls.Guarantees.{IsGuaranteed};
ghost use Rattle.ctd_guarantees.specs.inner.Parts.{EndsTurns, IsGroupOf, IsKnownIn, SaysInTurns};

use crate::part::{Guarantee, lines_of};
use crate::plan::plan_of;
use crate::scope::{Scope, scopes_of};
use crate::told::{ToldNames, told_names};
use ctd_program::{Command, Presets};
use ctd_token::Place;
use ctd_traps::{Knowledge, Known, KnownAt, Moment, all_commands};
use std::alloc::{AllocError, Global};

/// Lines of what is so at the end of each turn of the loop at a place; without a place, in the end of each file that is accepted.
#[derive(Drop)]
pub struct GuaranteeGroup {
    pub place: Option<Place>,
    pub lines: Vec<Guarantee>,
}

/// Of what is known at places in the order of the text, how much is known before a place.
fn count_before(places: &[KnownAt], place: Place) -> usize
    ensures { result ≤ length places.now }
{
    places.partition_point(|at: &KnownAt| -> bool {
        (at.place.line, at.place.column) < (place.line, place.column)
    })
}

/// Whether something is known at the end of each turn of the loop at a place.
fn ends_turns(at: &KnownAt, place: Place) -> bool
    ensures { result ≡ true → EndsTurns place at.now }
{
    at.place.line == place.line && at.place.column == place.column && at.moment == Moment::TurnEnded
}

/// What is known at the end of each turn of the loop at a place.
fn known_in_turns(places: &[KnownAt], place: Place) -> Option<&[Known]>
    ensures { IfSome result (λ known. SaysInTurns places.now place known.now) }
{
    for i in count_before(places, place)..places.len() {
        let at = &places[i];
        if ends_turns(at, place) {
            return Some(at.known.as_slice());
        }
        if at.place != place {
            return None;
        }
    }
    None
}

/// What is known at the end of each turn of the loop at a place; without a place, in the end of each file that is accepted.
fn known_in(knowledge: &Knowledge, place: Option<Place>) -> Option<&[Known]>
    ensures { IfSome result (λ known. IsKnownIn knowledge.now place known.now) }
{
    match place {
        Some(place) => known_in_turns(knowledge.at_places.as_slice(), place),
        None => match &knowledge.at_end {
            Some(known) => Some(known.as_slice()),
            None => None,
        },
    }
}

/// Adds the group of the scope at an index, unless nothing is known there, or no line says anything.
fn add_group(
    alloc: Global,
    names: &ToldNames,
    count: usize,
    scopes: &[Scope],
    index: usize,
    knowledge: &Knowledge,
    groups: &mut Vec<GuaranteeGroup>,
) -> Result<(), AllocError>
    ensures { OnOk result (All (IsGroupOf knowledge.now) groups.old.items → All (IsGroupOf knowledge.now) groups.new.items) }
{
    let Some(scope) = scopes.get(index) else {
        return Ok(());
    };
    let Some(known) = known_in(knowledge, scope.place) else {
        return Ok(());
    };
    let plan = plan_of(alloc, names, count, scopes, index, known)?;
    let lines = lines_of(alloc, known, plan.as_slice())?;
    if lines.is_empty() {
        return Ok(());
    }
    groups.push(GuaranteeGroup {
        place: scope.place,
        lines,
    })?;
    Ok(())
}

/// What every file has that a program accepts, by what is known of its variables: loop by loop in the order of the text, and last what is so in the
/// end. Names are given by their indices among the names of the program, which stand in order. Which lines are told is not promised.
pub fn guarantees(
    alloc: Global,
    commands: &[Command],
    presets: &Presets,
    names: &[&[u8]],
    knowledge: &Knowledge,
) -> Result<Vec<GuaranteeGroup>, AllocError>
    ensures guaranteed { EachFinds (command_trees commands.now) presets.now names.now knowledge.now.at_places.items
        → EachAcceptedHas (command_trees commands.now) presets.now names.now knowledge.now.at_end
        → IfOk result (λ groups. All (IsGuaranteed (command_trees commands.now) presets.now names.now) groups.items) }

    // where no file is accepted, nothing is told of the end
    ensures none_at_end { IsNone knowledge.now.at_end → IfOk result (λ groups. All (λ group. IsSome group.place) groups.items) }
{
    let entries = all_commands(alloc, commands)?;
    let told = told_names(alloc, names, entries.as_slice(), presets.pins())?;
    let scopes = scopes_of(alloc, names, commands)?;
    let scopes = scopes.as_slice();
    let mut groups = Vec::new(alloc);
    for i in 1..scopes.len() {
        add_group(alloc, &told, names.len(), scopes, i, knowledge, &mut groups)?;
    }
    add_group(alloc, &told, names.len(), scopes, 0, knowledge, &mut groups)?;
    Ok(groups)
}
