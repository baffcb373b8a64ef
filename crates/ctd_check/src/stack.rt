//! What a run has still to do: its frames, and the steps that are left.
ghost use Rattle.std.specs.Prelude.{◌≡◌, ℕ, ◌≤◌, ◌<◌, ◌+◌, ◌-◌, ◌^◌, ◌++◌, ◌∷◌, [], length, is_some, true, false, None, Some, OnOk, IfErr, IfSome};
ghost use Rattle.std.specs.Option.{option_copied};
ghost use Rattle.ctd_token.specs.declared.limits.TheConstants.{NESTING_LIMIT};
ghost use Rattle.ctd_program.specs.calls.Blocks.{list_blocks};
ghost use Rattle.ctd_program.specs.calls.View.{command_trees};
ghost use Rattle.ctd_check.specs.Loops.{tasks, finish};
ghost use Rattle.ctd_check.specs.declared.frame.RunningLoop.{RunningLoop};
ghost use Rattle.ctd_check.specs.inner.FrameTasks.{most_frames, Fits, fits_prop, to_do, all_to_do, top_loop, frame_tasks, body_tasks, loop_blocks, frame_blocks, loop_turn, IsAtTurn, IsListDone, IsInHand};

use crate::frame::{Frame, RunningLoop};
use arrayvec::ArrayVec;
use ctd_command::{CommandFailure, Failure};
use ctd_outcome::Fault;
use ctd_syntax::Command;
use ctd_token::NESTING_LIMIT;

/// The program's list, and blocks in one another.
const MOST_FRAMES: usize = NESTING_LIMIT as usize + 1;

/// The frames of the blocks that are open, and the steps that are left.
#[derive(Drop)]
pub(crate) struct FrameStack<'p> {
    frames: ArrayVec<Frame<'p>, MOST_FRAMES>,
    left: u64,
    ghost fits: { Fits left frames.items } by { fits_prop left frames.items },
}

/// Takes the list of the last frame, which is then done.
fn take_list_in<'p>(frames: &mut [Frame<'p>]) -> &'p [Command]
    ensures len { length frames.new ≡ length frames.old }
    ensures to_do { to_do frames.old ≡ all_to_do result.now frames.new }
    ensures fits { (left : ℕ) → Fits left frames.old → Fits left frames.new }
    ensures in_hand { (left : ℕ) → Fits left frames.old → IsInHand result.now frames.new }
{
    match frames.len().checked_sub(1) {
        Some(last) => frames[last].take_list(),
        None => &[],
    }
}

/// Puts a list into the last frame, whose list is done.
fn put_list_in<'p>(frames: &mut [Frame<'p>], list: &'p [Command])
    requires in_hand { IsInHand list.now frames.old }
    requires some { 0 < length frames.old }
    ensures len { length frames.new ≡ length frames.old }
    ensures to_do { to_do frames.new ≡ all_to_do list.now frames.old }
    ensures fits { (left : ℕ) → Fits left frames.old → Fits left frames.new }
{
    if let Some(last) = frames.len().checked_sub(1) {
        frames[last].rest = list;
    }
}

/// Goes on with the loop of the last frame, and gives its body.
fn next_turn_in<'p>(frames: &mut [Frame<'p>]) -> &'p [Command]
    requires turn { IfSome (top_loop frames.old) (λ running_loop. running_loop.turn + 1 < 2 ^ 64) }
    requires done { IsListDone frames.old }
    ensures len { length frames.new ≡ length frames.old }
    ensures to_do { (running_loop : RunningLoop) → (at : IsAtTurn frames.old running_loop) → all_to_do result.now frames.new ≡ body_tasks running_loop ++ to_do at.below }
    ensures body { IfSome (top_loop frames.old) (λ running_loop. result.now ≡ running_loop.body.now) }
    ensures done { IsListDone frames.new }
    ensures fits { (left : ℕ) → Fits (left + 1) frames.old → Fits left frames.new }
{
    match frames.len().checked_sub(1) {
        Some(last) => frames[last].next_turn(),
        None => &[],
    }
}

impl<'p> FrameStack<'p> {
    /// The commands of a program.
    pub(crate) fn new(commands: &'p [Command], steps: u64) -> FrameStack<'p>
        requires { list_blocks (command_trees commands.now) ≤ NESTING_LIMIT }
        ensures left { result.left ≡ steps }
        ensures len { length result.frames.items ≡ 1 }
        ensures to_do { to_do result.frames.items ≡ tasks (command_trees commands.now) ++ finish ∷ [] }
    {
        let mut frames = ArrayVec::<Frame, MOST_FRAMES>::new();
        let frame = Frame {
            rest: commands,
            running_loop: None,
        };
        frames.push(frame);
        FrameStack {
            frames,
            left: steps,
        }
    }

    /// The steps that are left.
    pub(crate) fn left(&self) -> u64
        ensures { result ≡ self.now.left }
    {
        self.left
    }

    /// Pays a step; where none is left, it is StepLimit.
    pub(crate) fn pay(&mut self) -> Result<(), CommandFailure>
        ensures frames { self.new.frames ≡ self.old.frames }
        ensures bound { self.new.left + 1 ≤ 2 ^ 64 }
        ensures spent { self.new.left ≤ self.old.left }
        ensures paid { OnOk result (self.old.left ≡ self.new.left + 1) }
        ensures limit { IfErr result (λ failure. failure ≡ Failure.Stopped Fault.StepLimit) }
        ensures none { IfErr result (λ _. (self.old.left ≡ 0) × (self.new.left ≡ 0)) }
    {
        match self.left.checked_sub(1) {
            Some(rest) => {
                self.left = rest;
                Ok(())
            }
            None => Err(CommandFailure::stopped(Fault::StepLimit)),
        }
    }

    /// Takes the list of the topmost frame, which is then done.
    pub(crate) fn take_list(&mut self) -> &'p [Command]
        ensures left { self.new.left ≡ self.old.left }
        ensures len { length self.new.frames.items ≡ length self.old.frames.items }
        ensures to_do { to_do self.old.frames.items ≡ all_to_do result.now self.new.frames.items }
        ensures in_hand { IsInHand result.now self.new.frames.items }
    {
        take_list_in(self.frames.as_mut_slice())
    }

    /// Whether the topmost frame is of a loop.
    pub(crate) fn has_loop(&self) -> bool
        ensures value { result ≡ is_some (top_loop self.now.frames.items) }
    {
        self.running_loop().is_some()
    }

    /// The loop of the topmost frame, before its next turn.
    pub(crate) fn running_loop(&self) -> Option<&RunningLoop<'p>>
        ensures value { option_copied result ≡ top_loop self.now.frames.items }
        ensures room { IfSome result (λ running_loop. length self.now.frames.items + loop_blocks (Some running_loop.now) ≤ most_frames) }
    {
        match self.frames.as_slice().last() {
            Some(frame) => frame.running_loop.as_ref(),
            None => None,
        }
    }

    /// Pays a step and goes on with the loop of the topmost frame. Gives its body, which comes before the turn after this one.
    pub(crate) fn next_turn(&mut self) -> &'p [Command]
        requires left { 0 < self.old.left }
        requires done { IsListDone self.old.frames.items }
        ensures paid { self.old.left ≡ self.new.left + 1 }
        ensures len { length self.new.frames.items ≡ length self.old.frames.items }
        ensures to_do { (running_loop : RunningLoop) → (at : IsAtTurn self.old.frames.items running_loop) → all_to_do result.now self.new.frames.items ≡ body_tasks running_loop ++ to_do at.below }
        ensures body { IfSome (top_loop self.old.frames.items) (λ running_loop. result.now ≡ running_loop.body.now) }
        ensures done { IsListDone self.new.frames.items }
    {
        self.left -= 1;
        next_turn_in(self.frames.as_mut_slice())
    }

    /// Pays a step and takes the topmost frame off, whose loop is over.
    pub(crate) fn end_loop(&mut self)
        requires left { 0 < self.old.left }
        ensures paid { self.old.left ≡ self.new.left + 1 }
        ensures frames { (running_loop : RunningLoop) → (at : IsAtTurn self.old.frames.items running_loop) → self.new.frames.items ≡ at.below }
        ensures len { length self.new.frames.items ≤ length self.old.frames.items }
    {
        self.left -= 1;
        self.frames.pop();
    }

    /// Takes the topmost frame off, whose list is done and which is of no loop, and tells whether there was one.
    pub(crate) fn leave_list(&mut self) -> bool
        requires done { IsListDone self.old.frames.items }
        requires no_loop { top_loop self.old.frames.items ≡ None }
        ensures left { self.new.left ≡ self.old.left }
        ensures len { result ≡ true → length self.old.frames.items ≡ length self.new.frames.items + 1 }
        ensures to_do { to_do self.new.frames.items ≡ to_do self.old.frames.items }
        ensures none { result ≡ false → self.new.frames.items ≡ [] }
    {
        self.frames.pop().is_some()
    }

    /// Puts the list in hand back into the topmost frame, and the frame of a block on top.
    pub(crate) fn open(&mut self, list: &'p [Command], frame: Frame<'p>)
        requires in_hand { IsInHand list.now self.old.frames.items }
        requires some { 0 < length self.old.frames.items }
        requires room { length self.old.frames.items + 1 + frame_blocks frame ≤ most_frames }
        requires turn { loop_turn frame.running_loop + self.old.left + 1 ≤ 2 ^ 64 }
        ensures left { self.new.left ≡ self.old.left }
        ensures len { length self.new.frames.items ≡ length self.old.frames.items + 1 }
        ensures to_do { to_do self.new.frames.items ≡ frame_tasks frame.entry ++ all_to_do list.now self.old.frames.items }
        ensures done { frame.entry.rest.now ≡ [] → IsListDone self.new.frames.items }
    {
        put_list_in(self.frames.as_mut_slice(), list);
        self.frames.push(frame);
    }
}
