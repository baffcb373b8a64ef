//! Commands in which no others stand, and the branches of IF.

ghost use Rattle.std.specs.Prelude.{OnOk, IfOk};
ghost use Rattle.ctd_program.specs.Tree;
ghost use Rattle.ctd_program.specs.calls.View.{command_tree, test_tree};
ghost use Rattle.ctd_traps.specs.calls.Events.{goes_on};
ghost use Rattle.ctd_traps.specs.inner.Noted.{IsPart, NotedIn};
ghost use Rattle.ctd_traps.specs.inner.Walk.{AreBranches, Asks, StepKeeps};

use crate::note::{EventKind, Noted, note_answers, note_begin, note_event, note_faults, note_run};
use ctd_partitions::{State, join_partitions};
use ctd_program::{Command, Test};
use ctd_states::{Context, Stop};
use ctd_token::Place;
use ctd_transfer::{SplitStates, divide, transfer_each};

/// The states behind a command in which no others stand.
pub(crate) fn take(
    command: &Command,
    context: Context,
    states: &[State],
    noted: &mut Noted,
) -> Result<Vec<State>, Stop>
    ensures more { OnOk result (IsPart context.entry noted.old noted.new) }
    ensures keeps { IfOk result (λ after. StepKeeps context.entry states.now after.items noted.new (command_tree command.now)) }
{
    let acted = transfer_each(command, context, states)?;
    note_faults(command.place, acted.faults, noted)?;
    note_run(
        command.place,
        context,
        states,
        acted.after.as_slice(),
        noted,
    )?;
    Ok(acted.after)
}

/// The states where a test of a command is true, and those where it is false. That the command begins, the answers and the faults are noted.
fn ask(
    t: &Test,
    place: Place,
    context: Context,
    states: &[State],
    noted: &mut Noted,
) -> Result<SplitStates, Stop>
    ensures more { OnOk result (IsPart context.entry noted.old noted.new) }
    ensures asks { IfOk result (λ s. Asks context.entry states.now s.if_true.items s.if_false.items (test_tree t.now) s.faults noted.new place) }
{
    let divided = divide(context, t, states)?;
    note_begin(place, context, states, noted)?;
    note_faults(place, divided.faults, noted)?;
    note_answers(
        place,
        divided.if_true.as_slice(),
        divided.if_false.as_slice(),
        noted,
    )?;
    Ok(divided)
}

/// The states behind ASSERT.
pub(crate) fn assert(
    t: &Test,
    place: Place,
    context: Context,
    states: &[State],
    noted: &mut Noted,
) -> Result<Vec<State>, Stop>
    ensures more { OnOk result (IsPart context.entry noted.old noted.new) }
    ensures keeps { IfOk result (λ after. StepKeeps context.entry states.now after.items noted.new (Tree.assert place (test_tree t.now))) }
{
    let asked = ask(t, place, context, states, noted)?;
    note_event(place, EventKind::GoesOn, asked.if_true.as_slice(), noted)?;
    Ok(asked.if_true)
}

/// The states where the test of IF is true, and those where it is false: a run goes on in both.
pub(crate) fn ask_branches(
    t: &Test,
    place: Place,
    context: Context,
    states: &[State],
    noted: &mut Noted,
) -> Result<SplitStates, Stop>
    ensures more { OnOk result (IsPart context.entry noted.old noted.new) }
    ensures asks { IfOk result (λ s. Asks context.entry states.now s.if_true.items s.if_false.items (test_tree t.now) s.faults noted.new place) }
    ensures on_true { IfOk result (λ s. NotedIn context.entry noted.new place goes_on s.if_true.items) }
    ensures on_false { IfOk result (λ s. NotedIn context.entry noted.new place goes_on s.if_false.items) }
{
    let asked = ask(t, place, context, states, noted)?;
    note_event(place, EventKind::GoesOn, asked.if_true.as_slice(), noted)?;
    note_event(place, EventKind::GoesOn, asked.if_false.as_slice(), noted)?;
    Ok(asked)
}

/// The states behind IF: the join of those behind its branches.
pub(crate) fn join_branches(
    context: Context,
    yes: Vec<State>,
    no: Vec<State>,
) -> Result<Vec<State>, Stop>
    ensures { IfOk result (λ after. AreBranches context.entry yes.items no.items after.items) }
{
    join_partitions(context, yes, no.as_slice())
}
