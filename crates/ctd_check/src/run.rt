//! The run of a program: its tasks one after the other, each for one step.
ghost use Rattle.std.specs.Prelude.{◌≡◌, ◌≤◌, ◌<◌, ◌+◌, ◌*◌, ◌^◌, ◌∷◌, ◌++◌, [], length, is_some, true, OnOk, IfSome, Some};
ghost use Rattle.ctd_source.specs.calls.SourceReads.{state_of};
ghost use Rattle.ctd_token.specs.declared.text.Place.{Place};
ghost use Rattle.ctd_program.specs.calls.Blocks.{blocks, list_blocks};
ghost use Rattle.ctd_program.specs.calls.View.{command_tree, command_trees};
ghost use Rattle.ctd_command.specs.calls.Performs.{IsSound, state};
ghost use Rattle.ctd_check.specs.Loops.{start, tasks, tasks_before_turn};
ghost use Rattle.ctd_check.specs.inner.FrameTasks.{most_frames, to_do, all_to_do, top_loop, loop_blocks, separator_in, separator_tasks, IsListDone, IsInHand};
ghost use Rattle.ctd_check.specs.inner.Advances.{Advances, RunsTo};
ghost use Rattle.ctd_check.specs.inner.Opening.{Opens, halt_result};
ghost use Rattle.ctd_check.specs.inner.Progress.{if_at, if_blocks, loop_at};
ghost use Rattle.ctd_check.specs.Run.{run as result_of, run_from};

use crate::command::{Progress, act};
use crate::frame::{Frame, RunningLoop};
use crate::halt::Halt;
use crate::loops::{choose, repeat, take_turn};
use crate::stack::FrameStack;
use ctd_command::{CommandFailure, Run};
use ctd_outcome::{Fault, Site};
use ctd_pattern::Matcher;
use ctd_source::Source;
use ctd_syntax::{Choice, Command, Loop, Place};

/// Pays for a command and starts it. Behind it comes the list in hand. Returns the small failure, so that it fits in registers.
#[inline(always)]
fn begin<'p, D: Source>(
    command: &'p Command,
    list: &mut &'p [Command],
    run: &mut Run<'_, D>,
    stack: &mut FrameStack<'p>,
    matchers: &mut [Matcher<'_>],
) -> Result<(), CommandFailure>
    requires sound { IsSound run.old }
    requires in_hand { IsInHand (command.now ∷ list.old.now) stack.old.frames.items }
    ensures spent { stack.new.left ≤ stack.old.left }
    ensures less { OnOk result (2 * stack.new.left + length stack.new.frames.items < 2 * stack.old.left + length stack.old.frames.items) }
    ensures in_hand { OnOk result (IsInHand list.new.now stack.new.frames.items) }
    ensures advances { Advances run.old run.new stack.old.left (start (command_tree command.now) ∷ all_to_do list.old.now stack.old.frames.items) stack.new.left (all_to_do list.new.now stack.new.frames.items) (halt_result (state_of run.old.cursor).spot (Site.At command.now.place) result) }
{
    stack.pay()?;
    match act(run, command, matchers) {
        Progress::Done(done) => done,
        Progress::If(parts) => open_if(parts, list, run, stack),
        Progress::Loop(parts) => {
            let rest = *list;
            *list = &[];
            open_loop(command.place, parts, rest, run, stack)
        }
    }
}

/// Starts an IF: the list that its test picks is in hand then. What was in hand is put on the stack, unless nothing is left of it.
#[inline(always)]
fn open_if<'p, D: Source>(
    parts: &'p Choice,
    list: &mut &'p [Command],
    run: &mut Run<'_, D>,
    stack: &mut FrameStack<'p>,
) -> Result<(), CommandFailure>
    requires sound { IsSound run.old }
    requires in_hand { IsInHand list.old.now stack.old.frames.items }
    requires some { 0 < length stack.old.frames.items }
    requires room { length stack.old.frames.items + if_blocks parts.now ≤ most_frames }
    requires bound { stack.old.left + 1 ≤ 2 ^ 64 }
    ensures left { stack.new.left ≡ stack.old.left }
    ensures len { length stack.new.frames.items ≤ length stack.old.frames.items + 1 }
    ensures in_hand { OnOk result (IsInHand list.new.now stack.new.frames.items) }
    ensures opens { (place : Place) → Opens run.old run.new (all_to_do list.old.now stack.old.frames.items) (all_to_do list.new.now stack.new.frames.items) (if_at place parts.now) result }
{
    let picked = choose(run, &parts.condition, &parts.then_do, &parts.else_do)?;
    take_up(picked.as_slice(), list, stack);
    Ok(())
}

/// Takes a list in hand. What was in hand is put on the stack, unless nothing is left of it.
#[inline(always)]
fn take_up<'p>(picked: &'p [Command], list: &mut &'p [Command], stack: &mut FrameStack<'p>)
    requires in_hand { IsInHand list.old.now stack.old.frames.items }
    requires some { 0 < length stack.old.frames.items }
    requires room { length stack.old.frames.items + 1 + list_blocks (command_trees picked.now) ≤ most_frames }
    requires bound { stack.old.left + 1 ≤ 2 ^ 64 }
    ensures left { stack.new.left ≡ stack.old.left }
    ensures len { length stack.new.frames.items ≤ length stack.old.frames.items + 1 }
    ensures in_hand { IsInHand list.new.now stack.new.frames.items }
    ensures to_do { all_to_do list.new.now stack.new.frames.items ≡ tasks (command_trees picked.now) ++ all_to_do list.old.now stack.old.frames.items }
{
    if picked.is_empty() {
        return;
    }
    if !list.is_empty() {
        stack.open(*list, Frame::of_list());
    }
    *list = picked;
}

/// Starts a loop that stands at this place, and puts its frame on top, above the list behind it. Out of line: keeps `begin` small.
#[inline(never)]
fn open_loop<'p, D: Source>(
    place: Place,
    parts: &'p Loop,
    list: &'p [Command],
    run: &mut Run<'_, D>,
    stack: &mut FrameStack<'p>,
) -> Result<(), CommandFailure>
    requires sound { IsSound run.old }
    requires in_hand { IsInHand list.now stack.old.frames.items }
    requires some { 0 < length stack.old.frames.items }
    requires room { length stack.old.frames.items + blocks (loop_at place parts.now) ≤ most_frames }
    requires bound { stack.old.left + 1 ≤ 2 ^ 64 }
    ensures left { stack.new.left ≡ stack.old.left }
    ensures len { length stack.new.frames.items ≤ length stack.old.frames.items + 1 }
    ensures in_hand { OnOk result (IsInHand [] stack.new.frames.items) }
    ensures opens { Opens run.old run.new (all_to_do list.now stack.old.frames.items) (to_do stack.new.frames.items) (loop_at place parts.now) result }
{
    let (guard, counter) = (&parts.guard, &parts.counter);
    let (between, body) = (&parts.between, &parts.body);
    let frame = repeat(run, place, guard, counter, between, body)?;
    stack.open(list, frame);
    Ok(())
}

/// The separator before a turn, which the first turn lacks.
fn separator_before<'p>(running_loop: &RunningLoop<'p>) -> Option<&'p Command>
    ensures tasks { tasks_before_turn running_loop.now.turn (separator_in running_loop.now.between) ≡ separator_tasks result }
    ensures blocks { IfSome result (λ c. blocks (command_tree c.now) ≤ loop_blocks (Some running_loop.now)) }
{
    if running_loop.turn == 0 {
        return None;
    }
    running_loop.between
}

/// The next turn of the loop of the topmost frame: its body is in hand then. The frame stays where it is as long as the loop goes on.
#[inline(always)]
fn begin_turn<'p, D: Source>(
    list: &mut &'p [Command],
    run: &mut Run<'_, D>,
    stack: &mut FrameStack<'p>,
    matchers: &mut [Matcher<'_>],
) -> Result<(), Halt>
    requires sound { IsSound run.old }
    requires done { IsListDone stack.old.frames.items }
    requires has_loop { is_some (top_loop stack.old.frames.items) ≡ true }
    ensures spent { stack.new.left ≤ stack.old.left }
    ensures less { OnOk result (2 * stack.new.left + length stack.new.frames.items < 2 * stack.old.left + length stack.old.frames.items) }
    ensures in_hand { OnOk result (IsInHand list.new.now stack.new.frames.items) }
    ensures advances { Advances run.old run.new stack.old.left (to_do stack.old.frames.items) stack.new.left (all_to_do list.new.now stack.new.frames.items) result }
{
    let Some(running_loop) = stack.running_loop() else {
        unreachable!();
    };
    if stack.left() == 0 {
        return Err(Halt::of(
            CommandFailure::stopped(Fault::StepLimit),
            run.cursor.spot(),
            Site::At(running_loop.place),
        ));
    }
    match take_turn(run, running_loop) {
        Ok(true) => {
            match separator_before(running_loop) {
                Some(command) => {
                    *list = stack.next_turn();
                    let spot = run.cursor.spot();
                    match begin(command, list, run, stack, matchers) {
                        Ok(()) => Ok(()),
                        Err(failure) => Err(Halt::of(failure, spot, Site::At(command.place))),
                    }
                }
                None => {
                    *list = stack.next_turn();
                    Ok(())
                }
            }
        }
        Ok(false) => {
            stack.end_loop();
            *list = stack.take_list();
            Ok(())
        }
        Err(failure) => {
            // A turn passes no byte, so it began here.
            let halt = Halt::of(failure, run.cursor.spot(), Site::At(running_loop.place));
            stack.end_loop();
            Err(halt)
        }
    }
}

/// The end of the data, which stands at the end of every program.
fn conclude<D: Source>(run: &mut Run<'_, D>, stack: &mut FrameStack<'_>) -> Result<(), Halt>
    requires sound { IsSound run.old }
    requires done { stack.old.frames.items ≡ [] }
    ensures spent { stack.new.left ≤ stack.old.left }
    ensures ends { RunsTo run.old run.new (λ d. result_of d stack.old.left (to_do stack.old.frames.items) (state run.old)) stack.new.left result }
{
    let spot = run.cursor.spot();
    if let Err(failure) = stack.pay() {
        return Err(Halt::of(failure, spot, Site::Finish));
    }
    match run.end() {
        Ok(()) => Ok(()),
        Err(failure) => Err(Halt::of(failure, spot, Site::Finish)),
    }
}

/// Runs what is to be done, to its end. The list of the topmost frame is in hand, and not on the stack.
fn run_tasks<D: Source>(
    run: &mut Run<'_, D>,
    stack: &mut FrameStack<'_>,
    matchers: &mut [Matcher<'_>],
) -> Result<(), Halt>
    requires sound { IsSound run.old }
    ensures spent { stack.new.left ≤ stack.old.left }
    ensures ends { RunsTo run.old run.new (λ d. result_of d stack.old.left (to_do stack.old.frames.items) (state run.old)) stack.new.left result }
{
    let mut list = stack.take_list();
    loop {
        if let Some((command, rest)) = list.split_first() {
            list = rest;
            let spot = run.cursor.spot();
            match begin(command, &mut list, run, stack, matchers) {
                Ok(()) => continue,
                Err(failure) => return Err(Halt::of(failure, spot, Site::At(command.place))),
            }
        }
        if stack.has_loop() {
            begin_turn(&mut list, run, stack, matchers)?;
            continue;
        }
        if !stack.leave_list() {
            return conclude(run, stack);
        }
        list = stack.take_list();
    }
}

/// Runs a whole program: what stands before its first command, and then its tasks.
pub(crate) fn run_program<D: Source>(
    run: &mut Run<'_, D>,
    stack: &mut FrameStack<'_>,
    matchers: &mut [Matcher<'_>],
) -> Result<(), Halt>
    requires sound { IsSound run.old }
    ensures spent { stack.new.left ≤ stack.old.left }
    ensures ends { RunsTo run.old run.new (λ d. run_from d stack.old.left (to_do stack.old.frames.items) (state run.old)) stack.new.left result }
{
    let spot = run.cursor.spot();
    match run.first_skip() {
        Ok(()) => run_tasks(run, stack, matchers),
        Err(failure) => Err(Halt::of(failure, spot, Site::Start)),
    }
}
