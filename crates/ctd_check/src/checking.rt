//! The check of data against a program.
ghost use Rattle.std.specs.Prelude.{◌≡◌, ◌+◌, ◌≤◌, ◌^◌, Err, IfOk, OnErr};
ghost use Rattle.ctd_source.specs.SourceReads.{GaveAtMost};
ghost use Rattle.ctd_source.specs.declared.source.Seen.TheVariants.{Going};
ghost use Rattle.ctd_program.specs.calls.View.{command_trees};
ghost use Rattle.ctd_check.specs.Run.{meaning};
ghost use Rattle.ctd_check.specs.calls.Checks.{FindsMeaning, IsAhead};
ghost use Rattle.ctd_check.specs.inner.Halts.{Concludes};

use crate::halt::Halt;
use crate::run::run_program;
use crate::stack::FrameStack;
use ctd_command::Run;
use ctd_loader::Plan;
use ctd_outcome::{Checked, Outcome};
use ctd_program::{Limits, Mode, Presets};
use ctd_source::{Buffers, Cursor, Source};
use ctd_store::Store;
use std::alloc::{AllocError, Global};

/// The outcome of a run that came to its end; the error is for a run that ran out of memory, and for no other.
fn outcome_of(ended: Result<(), Halt>) -> Result<Outcome, AllocError>
    ensures outcome { IfOk result (λ outcome. Concludes ended outcome) }
    ensures memory { OnErr result (ended ≡ Err Halt.Memory) }
{
    match ended {
        Ok(()) => Ok(Outcome::Accepted),
        Err(Halt::Outcome(outcome)) => Ok(outcome),
        Err(Halt::Memory) => Err(AllocError),
    }
}

/// Checks what a source gives against the program of a plan, once and forward, with the presets pinned. The answer is the
/// program's meaning on all data that agree with what was read.
///
/// The source is read only as far as the program needs, at most a window ahead of what is consumed. Every program, data
/// and limits get an answer; the only error is that memory ran out.
pub fn check<D: Source>(
    alloc: Global,
    plan: &Plan,
    presets: &Presets,
    testdata: &mut D,
    limits: Limits,
    mode: Mode,
) -> Result<Checked, AllocError>
    requires going { D.seen testdata.old ≡ Going }
    requires bytes { limits.bytes ≤ 2 ^ 62 }
    ensures meaning { IfOk result (λ checked. FindsMeaning D.Source testdata.old testdata.new limits (λ d. meaning mode (command_trees plan.now) presets.now d limits.steps) checked) }
    ensures given { IfOk result (λ checked. D.given testdata.new ≡ D.given testdata.old + checked.taken) }
    ensures seen { IfOk result (λ checked. checked.seen ≡ D.seen testdata.new) }
    ensures ahead { IfOk result IsAhead }
    ensures within { IfOk result (λ checked. checked.taken ≤ limits.bytes + 1) }
    ensures bounded { IfOk result (λ checked. checked.steps ≤ limits.steps) }
    // whatever it answers
    ensures reads { GaveAtMost D.Source (limits.bytes + 1) testdata.old testdata.new }
{
    let mut matchers = plan.matchers(alloc)?;
    let store = Store::new(alloc, presets)?;
    let buffers = Buffers::new(alloc)?;
    // the source is borrowed once all of these are made
    let cursor = Cursor::with_buffers(buffers, testdata, limits.bytes);
    let mut run = Run::new(alloc, cursor, store, mode);
    let mut stack = FrameStack::new(plan.commands(), limits.steps);
    let ended = run_program(&mut run, &mut stack, &mut matchers);
    drop(matchers);
    let consumed = run.cursor.spot().offset;
    let taken = run.cursor.taken();
    let seen = run.cursor.seen();
    let _source = run.into_source();
    let outcome = outcome_of(ended)?;
    Ok(Checked {
        outcome,
        steps: limits.steps - stack.left(),
        consumed,
        taken,
        seen,
    })
}
