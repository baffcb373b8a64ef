//! IF and the loops: the frames that they leave to be done, and the turns of a loop.
ghost use Rattle.std.specs.Prelude.{◌≡◌, ◌≤◌, ◌∷◌, [], max, IfOk};
ghost use Rattle.ctd_program.specs.calls.Blocks.{list_blocks, separator_blocks};
ghost use Rattle.ctd_program.specs.inner.View.{boxed_separator};
ghost use Rattle.ctd_program.specs.calls.View.{boxed_target, command_list, guard_tree, test_tree};
ghost use Rattle.ctd_command.specs.calls.Performs.{IsSound, Performs};
ghost use Rattle.ctd_value.specs.calls.Lending.{map_ok};
ghost use Rattle.ctd_check.specs.Loops.{tasks, turn, take_turn, goes_on, guard_of, repeat, choice};
ghost use Rattle.ctd_check.specs.calls.Loops.{loop_of};
ghost use Rattle.ctd_check.specs.inner.Loops.{count_turn};
ghost use Rattle.ctd_check.specs.inner.FrameTasks.{frame_tasks, separator_in, frame_blocks, loop_turn, guard_in, counter_in, loop_in};

use crate::frame::{Frame, Guard, RunningLoop};
use ctd_command::{CommandFailure, Run};
use ctd_source::Source;
use ctd_syntax::{Command, Commands, LoopGuard, Place, Test, Var};

/// A separator, or none.
fn unbox(between: &Option<Box<Command>>) -> Option<&Command>
    ensures same { separator_in result ≡ boxed_separator between.now }
{
    match between {
        Some(command) => Some(&**command),
        None => None,
    }
}

/// A counter, or none.
fn unbox_counter(counter: &Option<Box<Var>>) -> Option<&Var>
    ensures same { counter_in result ≡ boxed_target counter.now }
{
    match counter {
        Some(var) => Some(&**var),
        None => None,
    }
}

/// The frame of a loop before its first turn.
#[inline(always)]
fn loop_frame<'p>(
    place: Place,
    guard: Guard<'p>,
    counter: &'p Option<Box<Var>>,
    between: &'p Option<Box<Command>>,
    body: &'p Commands,
) -> Frame<'p>
    ensures tasks { frame_tasks result ≡ turn (loop_of place (guard_in guard.entry) (boxed_target counter.now) (boxed_separator between.now) (command_list body.now)) 0 ∷ [] }
    ensures blocks { frame_blocks result ≡ max (separator_blocks (boxed_separator between.now)) (list_blocks (command_list body.now)) }
    ensures turn { loop_turn result.running_loop ≡ 0 }
    ensures list { result.rest.now ≡ [] }
{
    let counter = unbox_counter(counter);
    let between = unbox(between);
    let running_loop = RunningLoop {
        place,
        guard,
        counter,
        between,
        body: body.as_slice(),
        turn: 0,
    };
    Frame {
        rest: &[],
        running_loop: Some(running_loop),
    }
}

/// IF: one of two lists is left to be done.
#[inline(always)]
pub(crate) fn choose<'p, D: Source>(
    run: &mut Run<'_, D>,
    t: &Test,
    then_do: &'p Commands,
    else_do: &'p Commands,
) -> Result<&'p Commands, CommandFailure>
    requires sound { IsSound run.old }
    ensures performs { Performs run.old run.new (map_ok (λ list. tasks (command_list list.now)) result) (choice (test_tree t.now) (command_list then_do.now) (command_list else_do.now)) }
    ensures room { IfOk result (λ list. list_blocks (command_list list.now) ≤ max (list_blocks (command_list then_do.now)) (list_blocks (command_list else_do.now))) }
{
    if run.answer(t)? {
        return Ok(then_do);
    }
    Ok(else_do)
}

/// How long a loop goes on that starts: the number of its turns is evaluated once, its test in each turn.
#[inline(always)]
fn guard_of<'p, D: Source>(
    run: &Run<'_, D>,
    guard: &'p LoopGuard,
) -> Result<Guard<'p>, CommandFailure>
    requires sound { IsSound run.now }
    ensures performs { Performs run.now run.now (map_ok guard_in result) (guard_of (guard_tree guard.now)) }
{
    match guard {
        LoopGuard::Times(count) => {
            let turns = run.count(count)?;
            Ok(Guard::Times(turns))
        }
        LoopGuard::While(t) => Ok(Guard::While(t)),
    }
}

/// REP, REPI, WHILE and WHILEI: the loop is left to be done.
#[inline(always)]
pub(crate) fn repeat<'p, D: Source>(
    run: &mut Run<'_, D>,
    place: Place,
    guard: &'p LoopGuard,
    counter: &'p Option<Box<Var>>,
    between: &'p Option<Box<Command>>,
    body: &'p Commands,
) -> Result<Frame<'p>, CommandFailure>
    requires sound { IsSound run.old }
    ensures performs { Performs run.old run.new (map_ok frame_tasks result) (repeat place (guard_tree guard.now) (boxed_target counter.now) (boxed_separator between.now) (command_list body.now)) }
    ensures blocks { IfOk result (λ frame. frame_blocks frame ≡ max (separator_blocks (boxed_separator between.now)) (list_blocks (command_list body.now))) }
    ensures turn { IfOk result (λ frame. loop_turn frame.running_loop ≡ 0) }
    ensures list { IfOk result (λ frame. frame.rest.now ≡ []) }
{
    let guard = guard_of(run, guard)?;
    Ok(loop_frame(place, guard, counter, between, body))
}

/// Gives a counter, where there is one, the number of a turn.
fn count_turn<D: Source>(
    run: &mut Run<'_, D>,
    counter: Option<&Var>,
    turn: u64,
) -> Result<(), CommandFailure>
    requires sound { IsSound run.old }
    ensures performs { Performs run.old run.new result (count_turn (counter_in counter.entry) turn) }
{
    match counter {
        Some(v) => {
            run.set_to_number(v, i128::from(turn))?;
            Ok(())
        }
        None => Ok(()),
    }
}

/// Whether a loop goes on with a turn.
fn goes_on<D: Source>(
    run: &mut Run<'_, D>,
    guard: Guard<'_>,
    turn: u64,
) -> Result<bool, CommandFailure>
    requires sound { IsSound run.old }
    ensures performs { Performs run.old run.new result (goes_on (guard_in guard.entry) turn) }
{
    match guard {
        Guard::Times(turns) => Ok(turn < turns),
        Guard::While(t) => run.answer(t),
    }
}

/// First the counter of a turn, and then whether the loop goes on with it.
pub(crate) fn take_turn<D: Source>(
    run: &mut Run<'_, D>,
    running_loop: &RunningLoop<'_>,
) -> Result<bool, CommandFailure>
    requires sound { IsSound run.old }
    ensures performs { Performs run.old run.new result (take_turn (loop_in running_loop.now) running_loop.now.turn) }
{
    count_turn(run, running_loop.counter, running_loop.turn)?;
    goes_on(run, running_loop.guard, running_loop.turn)
}
