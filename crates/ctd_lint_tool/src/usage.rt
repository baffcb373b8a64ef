//! What is written for words that ask for no program.

ghost use Rattle.std.specs.Prelude.{◌≡◌, ◌⊎◌, ◌++◌, codes, false, IfOk};
ghost use Rattle.ctd_report.specs.Report.{on_err};
ghost use Rattle.ctd_report.specs.calls.Written.{Leaves};
ghost use Rattle.ctd_report.specs.Written.{EndsWithReport, before_after};
ghost use Rattle.ctd_lint_tool.specs.calls.FileReport.{unknown_kind_text, usage_report};

use crate::command_line::LintFault;
use ctd_lint_report::NO_WARNINGS;
use ctd_report::{NO_VERDICT, Sink, ToolFault, write_report};
use ctd_token::Bytes;
use std::alloc::{AllocError, Global};

/// The text of the help.
const HELP: &str = "\
Usage: ctd-lint [OPTION]... PROGRAM...
Report likely mistakes in each PROGRAM, and where it may stop without a verdict.
  -D, --define=<name>=<value>[,...]  preset variables
      --ignore=<kind>[,...]          leave out findings of these kinds
      --verdicts                     tell whether every data file gets a verdict
      --guarantees                   tell what every accepted file has
      --json                         write an object of JSON a line
  -h, --help                         show this text
  -V, --version                      show the version
";

/// What is written for words that are not those of a command line of this program.
const BAD_WORDS: &str = "ctd-lint: bad arguments\nTry 'ctd-lint --help'.\n";

/// What is written for presets that cannot be read.
const BAD_PRESET: &str = "ctd-lint: bad preset\n";

/// What is written where the version is asked for.
const VERSION: &str = "ctd-lint 1.0 (whole-number profile)\n";

/// What is written where memory ran out.
const NO_MEMORY: &str = "ctd-lint: out of memory\n";

/// What is written for a kind that there is not.
fn unknown_kind_text(alloc: Global, name: &Bytes) -> Result<Vec<u8>, AllocError>
    ensures { IfOk result (λ text. text.items ≡ unknown_kind_text name.now) }
{
    let mut text = b"ctd-lint: unknown kind: ".to_vec(alloc)?;
    text.extend_from_slice(name.as_slice())?;
    text.push(b'\n')?;
    Ok(text)
}

/// Writes that there is no kind of this name, and returns the status.
fn report_unknown_kind<O: Sink, E: Sink>(
    alloc: Global,
    name: &Bytes,
    out: &mut O,
    err: &mut E,
) -> Result<u8, ToolFault>
    requires out_works { O.has_failed out.old ≡ false }
    requires err_works { E.has_failed err.old ≡ false }
    ensures written { Leaves (before_after O.Sink out.old out.new) (before_after E.Sink err.old err.new) (on_err (unknown_kind_text name.now)) result }
{
    let text = unknown_kind_text(alloc, name)?;
    write_report(&[], text.as_slice(), NO_VERDICT, out, err)
}

/// Writes what words that ask for no program ask for, or their fault, and returns the status.
fn report_usage<O: Sink, E: Sink>(
    alloc: Global,
    fault: &LintFault,
    out: &mut O,
    err: &mut E,
) -> Result<u8, ToolFault>
    requires out_works { O.has_failed out.old ≡ false }
    requires err_works { E.has_failed err.old ≡ false }
    ensures written { Leaves (before_after O.Sink out.old out.new) (before_after E.Sink err.old err.new) (usage_report fault.now) result }
{
    match fault {
        LintFault::Help => write_report(HELP.as_bytes(), &[], NO_WARNINGS, out, err),
        LintFault::Version => write_report(VERSION.as_bytes(), &[], NO_WARNINGS, out, err),
        LintFault::Words => write_report(&[], BAD_WORDS.as_bytes(), NO_VERDICT, out, err),
        LintFault::BadPreset => write_report(&[], BAD_PRESET.as_bytes(), NO_VERDICT, out, err),
        LintFault::UnknownKind(name) => report_unknown_kind(alloc, name, out, err),
        LintFault::Memory => write_report(&[], NO_MEMORY.as_bytes(), NO_VERDICT, out, err),
    }
}

/// The status where memory ran out, which is reported.
pub(crate) fn memory_status<O: Sink, E: Sink>(out: &mut O, err: &mut E) -> u8
    requires out_works { O.has_failed out.old ≡ false }
    requires err_works { E.has_failed err.old ≡ false }
    ensures { EndsWithReport (before_after O.Sink out.old out.new) (before_after E.Sink err.old err.new)
        (λ report. report ≡ usage_report LintFault.Memory) result }
{
    match write_report(&[], NO_MEMORY.as_bytes(), NO_VERDICT, out, err) {
        Ok(status) => status,
        Err(_) => NO_VERDICT,
    }
}

/// The status for words that ask for no program, which is reported. Memory may run out at that, which is reported then.
pub(crate) fn usage_status<O: Sink, E: Sink>(
    alloc: Global,
    fault: &LintFault,
    out: &mut O,
    err: &mut E,
) -> u8
    requires out_works { O.has_failed out.old ≡ false }
    requires err_works { E.has_failed err.old ≡ false }
    ensures { EndsWithReport (before_after O.Sink out.old out.new) (before_after E.Sink err.old err.new)
        (λ report. (report ≡ usage_report fault.now) ⊎ (report ≡ usage_report LintFault.Memory)) result }
{
    match report_usage(alloc, fault, out, err) {
        Ok(status) => status,
        Err(ToolFault::Write) => NO_VERDICT,
        Err(ToolFault::Memory) => memory_status(out, err),
    }
}
