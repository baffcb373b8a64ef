//! The remarks on tests with one answer, and on commands that no run reaches or passes. `is_backed` of `never` has the last word on each.

use crate::command::remark_if;
use crate::condition::test_of;
use crate::finding::Remark;
use crate::kind::Kind;
use crate::loops::loop_of;
use crate::never::NeverAt;
use crate::parameter::asks_for_parameters;
use crate::same::has_variable;
use crate::sides::has_same_sides;
use ctd_program::{Action, Command, Test};
use ctd_states::TrapKind;
use ctd_token::Place;
use ctd_traps::{Collector, CommandInBlock, EventKind, Note, Trap, TrapList};
use std::alloc::{AllocError, Global};
use std::collections::BTreeSet;

/// The line and the column of a place.
fn key(place: Place) -> (u32, u32) {
    (place.line, place.column)
}

/// What the analysis tells of the places of a program, by their lines and columns.
#[derive(Drop)]
pub(crate) struct Outcomes {
    /// Loops that start and that no run leaves.
    endless: BTreeSet<(u32, u32)>,
    /// Commands at which a run may stop by a value, but for an element without one and arrays in UNIQUE, of which most are listed for nothing.
    stopping: BTreeSet<(u32, u32)>,
    /// Commands at which a run may stop by a wrong type.
    mistyped: BTreeSet<(u32, u32)>,
}

/// The places at which nothing but the answer `false` never happens: a loop there starts, and no run leaves it.
fn endless_places(alloc: Global, never: &[Note]) -> Result<BTreeSet<(u32, u32)>, AllocError> {
    let mut others = BTreeSet::new(alloc);
    for note in never {
        if note.kind != EventKind::IsFalse {
            others.insert(key(note.place))?;
        }
    }
    let mut endless = BTreeSet::new(alloc);
    for note in never {
        if !others.contains(&key(note.place)) {
            endless.insert(key(note.place))?;
        }
    }
    Ok(endless)
}

/// Adds the place of a trap to those of its kind.
fn add_trap(trap: &Trap, outcomes: &mut Outcomes) -> Result<(), AllocError> {
    if matches!(trap.kind, TrapKind::WrongType) {
        outcomes.mistyped.insert(key(trap.place))?;
    }
    if !matches!(trap.kind, TrapKind::NoElement | TrapKind::OtherShape) {
        outcomes.stopping.insert(key(trap.place))?;
    }
    Ok(())
}

/// What the analysis tells of the places of a program.
pub(crate) fn outcomes_of(
    alloc: Global,
    traps: &TrapList<'_>,
    never: &[Note],
) -> Result<Outcomes, AllocError> {
    let mut outcomes = Outcomes {
        endless: endless_places(alloc, never)?,
        stopping: BTreeSet::new(alloc),
        mistyped: BTreeSet::new(alloc),
    };
    for trap in traps.traps.as_slice() {
        add_trap(trap, &mut outcomes)?;
    }
    Ok(outcomes)
}

/// Adds a remark where no run comes, since none leaves the loop before.
pub(crate) fn list_unreachable(
    entry: &CommandInBlock,
    at: NeverAt,
    outcomes: &Outcomes,
    found: &mut Collector<Remark>,
) {
    let Some(previous) = entry.previous else {
        return;
    };
    let is_behind_endless = loop_of(previous).is_some()
        && outcomes.endless.contains(&key(previous.place));
    remark_if(at.begins && is_behind_endless, Kind::Unreachable, found)
}

/// Whether a command is ASSERT.
fn is_assert(command: &Command) -> bool {
    matches!(&command.action, Action::Assert(_))
}

/// Adds a remark where a wrong type lets no run pass: a test gives no answer, and any other command is never done.
pub(crate) fn list_mistyped(
    command: &Command,
    at: NeverAt,
    outcomes: &Outcomes,
    found: &mut Collector<Remark>,
) {
    let has_no_answer = at.is_true && at.is_false;
    let lets_none_pass = has_no_answer || (at.goes_on && !is_assert(command));
    let is_mistyped = lets_none_pass && outcomes.mistyped.contains(&key(command.place));
    remark_if(is_mistyped, Kind::WrongSort, found)
}

/// Whether a variable stands in a test.
fn has_variable_in(t: &Test) -> bool {
    match t {
        Test::Or(a, b) | Test::And(a, b) => has_variable_in(a) || has_variable_in(b),
        Test::Not(t) => has_variable_in(t),
        Test::Compare(_, a, b) => has_variable(a) || has_variable(b),
        Test::Match(e) => has_variable(e),
        Test::IsEof => false,
        Test::Unique(_) | Test::InArray(_, _) => true,
    }
}

/// The kinds of a test that is always true, and of one that is always false. An ASSERT that is always true only repeats what is known before it; an IF or
/// WHILE has commands that it always does.
fn answer_kinds(command: &Command, t: &Test) -> (Kind, Kind) {
    if !has_variable_in(t) {
        (Kind::AlwaysTrue, Kind::AlwaysFalse)
    } else if is_assert(command) {
        (Kind::RepeatsBounds, Kind::RangeFalse)
    } else {
        (Kind::RangeTrue, Kind::RangeFalse)
    }
}

/// Adds the remark on the test of a command that has one answer. Nothing is said where a run may stop at the test, nor where it compares something with
/// itself, which is told, nor where IF or ASSERT asks for parameters, to which presets may give another value.
pub(crate) fn list_one_answer<'p>(
    command: &'p Command,
    parameters: &BTreeSet<&'p [u8]>,
    at: NeverAt,
    outcomes: &Outcomes,
    found: &mut Collector<Remark>,
) {
    let Some(t) = test_of(command) else {
        return;
    };
    let is_loop = loop_of(command).is_some();
    if outcomes.stopping.contains(&key(command.place))
        || has_same_sides(t)
        || (!is_loop && asks_for_parameters(t, parameters))
    {
        return;
    }
    let (if_true, if_false) = answer_kinds(command, t);
    remark_if(at.is_false, if_true, found);
    remark_if(at.is_true, if_false, found)
}

/// Adds a remark on an INT that no run passes, and at which none stops by a value.
pub(crate) fn list_empty_range(
    place: Place,
    at: NeverAt,
    outcomes: &Outcomes,
    found: &mut Collector<Remark>,
) {
    let is_empty = at.goes_on && !outcomes.stopping.contains(&key(place));
    remark_if(is_empty, Kind::EmptyRange, found)
}
