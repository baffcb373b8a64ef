//! The process: what it gets from its host, and how it ends.

ghost use Rattle.std.specs.Prelude.{◌≡◌, false};
ghost use Rattle.ctd_tool.specs.Theorem.{EndsProcess, IsProcessReport};
ghost use Rattle.ctd_report.specs.Report.{usage_report};
ghost use Rattle.ctd_report.specs.Written.{EndsWithReport, before_after};

use crate::files::Sources;
use crate::run::{WordsRun, run_words, usage_status};
use ctd_arguments::UsageFault;
use ctd_check::{FromRead, Source};
use ctd_process::{Files, Host, copy_words};
use ctd_report::{Sink, ToWrite};
use std::alloc::Global;
use std::env::Args;
use std::io::{BufReader, ErrorKind, Read};

/// How a process ended: its status, and its streams and sources as it left them.
#[derive(Drop)]
pub struct Answered<R: Read, O, E> {
    pub status: u8,
    pub out: ToWrite<O>,
    pub err: ToWrite<E>,
    pub sources: Option<Sources<R>>,
}

/// Reports a fault for which no file was asked.
fn without_words<R: Read + Drop, O: Sink, E: Sink>(
    fault: &UsageFault,
    out: &mut O,
    err: &mut E,
) -> WordsRun<R>
    requires out_works { O.has_failed out.old ≡ false }
    requires err_works { E.has_failed err.old ≡ false }
    ensures { EndsWithReport (before_after O.Sink out.old out.new) (before_after E.Sink err.old err.new)
        (λ report. report ≡ usage_report fault.now) result.status }
{
    WordsRun {
        status: usage_status(fault, out, err),
        sources: None,
    }
}

/// Answers the words that the system gave, or that it gave none, with a status.
fn answer_args<H: Files, O: Sink, E: Sink>(
    alloc: Global,
    args: Result<Args, ErrorKind>,
    host: &mut H,
    out: &mut O,
    err: &mut E,
) -> WordsRun<H::File>
    requires out_works { O.has_failed out.old ≡ false }
    requires err_works { E.has_failed err.old ≡ false }
    ensures { EndsWithReport (before_after O.Sink out.old out.new) (before_after E.Sink err.old err.new)
        (IsProcessReport H.File.remaining ⟦<FromRead<BufReader<H::File>> as Source>⟧ args
        (before_after H.Files host.old host.new) result.sources) result.status }
{
    let args = match args {
        Ok(args) => args,
        Err(kind) => {
            return match kind {
                ErrorKind::OutOfMemory => without_words(&UsageFault::Memory, out, err),
                _ => without_words(&UsageFault::Words, out, err),
            };
        }
    };
    let Ok(words) = copy_words(alloc, args) else {
        return without_words(&UsageFault::Memory, out, err);
    };
    run_words(alloc, words.as_slice(), host, out, err)
}

/// Answers the words of the process with a status.
pub fn answer<H: Host>(alloc: Global, host: &mut H) -> Answered<H::File, H::Out, H::Err>
    ensures { EndsProcess
        (record { gives_out = H.gives_out; gives_err = H.gives_err; gives_args = H.gives_args }) H.Files
        H.File.remaining ⟦<FromRead<BufReader<H::File>> as Source>⟧ ⟦<ToWrite<H::Out> as Sink>⟧ ⟦<ToWrite<H::Err> as Sink>⟧ host.old host.new result }
{
    let mut out = ToWrite::new(host.out());
    let mut err = ToWrite::new(host.err());
    let args = host.args();
    let WordsRun { status, sources } = answer_args(alloc, args, host, &mut out, &mut err);
    Answered {
        status,
        out,
        err,
        sources,
    }
}
