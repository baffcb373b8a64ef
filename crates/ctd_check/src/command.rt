//! Commands: each that holds no commands is done, and the others hand on what they take.
ghost use Rattle.std.specs.Prelude.{◌≡◌, []};
ghost use Rattle.ctd_program.specs.calls.View.{command_tree};
ghost use Rattle.ctd_command.specs.calls.Performs.{IsSound, Performs};
ghost use Rattle.ctd_value.specs.calls.Lending.{map_ok};
ghost use Rattle.ctd_check.specs.inner.Acts.{act_of};
ghost use Rattle.ctd_check.specs.inner.Progress.{IfDone, IsMadeOf, UnlessDone};

use ctd_command::{CommandFailure, Run};
use ctd_pattern::Matcher;
use ctd_source::Source;
use ctd_syntax::{Action, Choice, Command, IntArguments, Loop};

/// How far a command got whose step is paid.
pub(crate) enum Progress<'p> {
    /// It was done, and this is its answer.
    Done(Result<(), CommandFailure>),
    /// It is an IF, and nothing is done yet.
    If(&'p Choice),
    /// It is a loop, and nothing is done yet.
    Loop(&'p Loop),
}

/// Does a command whose step is paid, unless commands stand in it: then it hands on what the command takes, and all is as it was.
#[inline(always)]
pub(crate) fn act<'p, D: Source>(
    run: &mut Run<'_, D>,
    command: &'p Command,
    matchers: &mut [Matcher<'_>],
) -> Progress<'p>
    requires sound { IsSound run.old }
    ensures performs { IfDone result (λ done. Performs run.old run.new (map_ok (λ _. []) done) (act_of (command_tree command.now))) }
    ensures parts { IsMadeOf (command_tree command.now) command.now.place result }
    ensures stays { UnlessDone result (run.new ≡ run.old) }
{
    match &command.action {
        Action::Space => Progress::Done(run.space()),
        Action::Newline => Progress::Done(run.newline()),
        Action::Eof => Progress::Done(run.end()),
        Action::Int(arguments) => {
            let IntArguments { low, high, target } = &**arguments;
            Progress::Done(run.int(low, high, target))
        }
        Action::String(e) => Progress::Done(run.string(e)),
        Action::Regex(arguments) => Progress::Done(run.regex(&**arguments, matchers)),
        Action::Assert(t) => Progress::Done(run.assert(t)),
        Action::Set(assignments) => Progress::Done(run.set(assignments.as_slice())),
        Action::Unset(names) => {
            run.unset(names.as_slice());
            Progress::Done(Ok(()))
        }
        Action::If(parts) => Progress::If(&**parts),
        Action::Loop(parts) => Progress::Loop(&**parts),
    }
}
