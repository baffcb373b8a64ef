//! The process: what it gets from its host, and how it ends.

ghost use Rattle.std.specs.Prelude.{◌≡◌, false};
ghost use Rattle.ctd_process.specs.Process.{StartsOn};
ghost use Rattle.ctd_lint_report.specs.calls.Report.{AreRemarks};
ghost use Rattle.ctd_lint_tool.specs.calls.Opening.{AsksFor, OpensProgram};
ghost use Rattle.ctd_lint_tool.specs.calls.Run.{EndsArgs, EndsLint, EndsWords, stand};

use crate::command_line::{LintFault, settings};
use crate::files::lint_all;
use crate::programs::{ClosableFiles, Programs};
use crate::usage::{memory_status, usage_status};
use ctd_process::{Host, copy_words};
use ctd_report::{NO_VERDICT, Sink, ToWrite, ToolFault};
use ctd_source::{FromRead, Source};
use ctd_token::Bytes;
use std::alloc::Global;
use std::env::Args;
use std::io::{BufReader, ErrorKind};

/// How a process ended: its status, and its streams as it left them.
pub struct Answered<O, E> {
    pub status: u8,
    pub out: ToWrite<O>,
    pub err: ToWrite<E>,
}

impl<O: Drop, E: Drop> Drop for Answered<O, E> {
    fn drop(self) {
        let Answered {
            status: _,
            out: _,
            err: _,
        } = self;
    }
}

/// Answers the words of a command line: lints the programs that they name, or tells why not, and gives the status.
fn answer_words<P: Programs, O: Sink, E: Sink>(
    alloc: Global,
    words: &[Bytes],
    programs: &mut P,
    out: &mut O,
    err: &mut E,
) -> u8
    requires out_works { O.has_failed out.old ≡ false }
    requires err_works { E.has_failed err.old ≡ false }
    ensures { EndsWords
        (record { opens = P.opens_program; asks = P.asks_for; closes = P.closes_program; source = P.Program.Source; out = O.Sink; err = E.Sink; remarks = AreRemarks })
        words.now (stand programs.old out.old err.old) (stand programs.new out.new err.new) result }
{
    let setup = match settings(alloc, words) {
        Ok(setup) => setup,
        Err(fault) => return usage_status(alloc, &fault, out, err),
    };
    let names = setup.programs.as_slice();
    match lint_all(alloc, &setup.report, names, programs, out, err) {
        Ok(status) => status,
        Err(ToolFault::Write) => NO_VERDICT,
        Err(ToolFault::Memory) => memory_status(out, err),
    }
}

/// Answers the words that the system gave, or that it gave none, with a status.
fn answer_args<P: Programs, O: Sink, E: Sink>(
    alloc: Global,
    args: Result<Args, ErrorKind>,
    programs: &mut P,
    out: &mut O,
    err: &mut E,
) -> u8
    requires out_works { O.has_failed out.old ≡ false }
    requires err_works { E.has_failed err.old ≡ false }
    ensures { EndsArgs
        (record { opens = P.opens_program; asks = P.asks_for; closes = P.closes_program; source = P.Program.Source; out = O.Sink; err = E.Sink; remarks = AreRemarks })
        args (stand programs.old out.old err.old) (stand programs.new out.new err.new) result }
{
    let args = match args {
        Ok(args) => args,
        Err(kind) => {
            return match kind {
                ErrorKind::OutOfMemory => memory_status(out, err),
                _ => usage_status(alloc, &LintFault::Words, out, err),
            };
        }
    };
    let Ok(words) = copy_words(alloc, args) else {
        return memory_status(out, err);
    };
    answer_words(alloc, words.as_slice(), programs, out, err)
}

/// Answers the words of the process with a status.
pub fn answer<H: Host + ClosableFiles>(alloc: Global, host: &mut H) -> Answered<H::Out, H::Err>
    ensures { EndsLint {R = H.File}
        (record { gives_out = H.gives_out; gives_err = H.gives_err; gives_args = H.gives_args })
        (record { opens = OpensProgram H.opens (StartsOn H.File.remaining ⟦<FromRead<BufReader<H::File>> as Source>⟧); asks = AsksFor H.opens; closes = H.closes; source = ⟦<FromRead<BufReader<H::File>> as Source>⟧; out = ⟦<ToWrite<H::Out> as Sink>⟧; err = ⟦<ToWrite<H::Err> as Sink>⟧; remarks = AreRemarks })
        host.old host.new result }
{
    let mut out = ToWrite::new(host.out());
    let mut err = ToWrite::new(host.err());
    let args = host.args();
    let status = answer_args(alloc, args, host, &mut out, &mut err);
    Answered { status, out, err }
}
