//! What is written of a check, of a program that is not read and of the words, and the status.

ghost use Rattle.std.specs.Prelude.{◌≡◌, ◌≢◌, ◌++◌, codes, false, string_bytes, true, IfOk};
ghost use Rattle.ctd_token.specs.declared.fault.LoadKind.TheVariants.{Memory};
ghost use Rattle.ctd_report.specs.Report.{check_report, load_report, on_err, on_out, open_report, usage_report};
ghost use Rattle.ctd_report.specs.calls.Written.{Leaves};
ghost use Rattle.ctd_report.specs.Written.{before_after};
ghost use Rattle.ctd_report.specs.inner.Report.{outcome_line, usage_text};

use crate::load_line::load_line_of;
use crate::sink::Sink;
use crate::written::{ToolFault, write_report};
use ctd_arguments::UsageFault;
use ctd_outcome::Outcome;
use ctd_token::{Bytes, LoadFault, LoadKind};
use std::alloc::{AllocError, Global};

/// The status of data that match, and of a help or a version that was asked for.
const ACCEPTED: u8 = 0;

/// The status of data that do not match.
const REJECTED: u8 = 1;

/// The status of a run with no verdict.
pub const NO_VERDICT: u8 = 2;

/// The line of an outcome.
fn line_of(alloc: Global, outcome: &Outcome) -> Result<String, AllocError>
    ensures { IfOk result (λ line. string_bytes line ≡ outcome_line outcome.now) }
{
    match outcome {
        Outcome::Accepted => String::from_str(alloc, "testdata ok!\n"),
        Outcome::Rejected {
            spot,
            place,
            reason,
        } => format!(in alloc; "{spot}: {reason} ({place})\n"),
        Outcome::Stopped { spot, place, fault } => {
            format!(in alloc; "checktestdata: {spot}: {fault} ({place})\n")
        }
    }
}

/// Writes how a check ended, and answers the status. The verdict is left out where the run is quiet.
pub fn write_outcome<O: Sink, E: Sink>(
    alloc: Global,
    outcome: &Outcome,
    quiet: bool,
    out: &mut O,
    err: &mut E,
) -> Result<u8, ToolFault>
    requires out_works { O.has_failed out.old ≡ false }
    requires err_works { E.has_failed err.old ≡ false }
    ensures written { Leaves (before_after O.Sink out.old out.new) (before_after E.Sink err.old err.new)
        (check_report quiet outcome.now) result }
{
    let line = line_of(alloc, outcome)?;
    let verdict: &[u8] = if quiet { &[] } else { line.as_bytes() };
    match outcome {
        Outcome::Accepted => write_report(verdict, &[], ACCEPTED, out, err),
        Outcome::Rejected { .. } => write_report(verdict, &[], REJECTED, out, err),
        Outcome::Stopped { .. } => write_report(&[], line.as_bytes(), NO_VERDICT, out, err),
    }
}

/// Writes why a program was not read, and returns the status. It allocates nothing: `Memory` is returned, and not written, for a
/// fault of this kind alone.
pub fn write_load_fault<O: Sink, E: Sink>(
    fault: &LoadFault,
    out: &mut O,
    err: &mut E,
) -> Result<u8, ToolFault>
    requires out_works { O.has_failed out.old ≡ false }
    requires err_works { E.has_failed err.old ≡ false }
    ensures written { Leaves (before_after O.Sink out.old out.new) (before_after E.Sink err.old err.new)
        (load_report fault.now) result }
    ensures memory { fault.now.kind ≡ Memory → result ≡ Err ToolFault.Memory }
    ensures alone { result ≡ Err ToolFault.Memory → fault.now.kind ≡ Memory }
{
    if fault.kind == LoadKind::Memory {
        return Err(ToolFault::Memory);
    }
    let line = load_line_of(fault);
    write_report(&[], line.as_slice(), NO_VERDICT, out, err)
}

/// The line of a file that can't be opened.
fn open_line_of(alloc: Global, name: &[u8]) -> Result<Vec<u8>, AllocError>
    ensures { IfOk result (λ line. line.items ≡ codes "checktestdata: cannot open " ++ name.now ++ codes "\n") }
{
    let mut line = b"checktestdata: cannot open ".to_vec(alloc)?;
    line.extend_from_slice(name)?;
    line.push(b'\n')?;
    Ok(line)
}

/// Writes that a file of this name can't be opened, and answers the status.
pub fn write_cannot_open<O: Sink, E: Sink>(
    alloc: Global,
    name: &Bytes,
    out: &mut O,
    err: &mut E,
) -> Result<u8, ToolFault>
    requires out_works { O.has_failed out.old ≡ false }
    requires err_works { E.has_failed err.old ≡ false }
    ensures written { Leaves (before_after O.Sink out.old out.new) (before_after E.Sink err.old err.new)
        (open_report name.now) result }
{
    let line = open_line_of(alloc, name.as_slice())?;
    write_report(&[], line.as_slice(), NO_VERDICT, out, err)
}

/// The text of the help.
const HELP: &str = "\
Usage: checktestdata [OPTION]... PROGRAM [TESTDATA]
Check TESTDATA (or standard input) against PROGRAM.
  -g, --generate                     not supported
  -D, --define=<name>=<value>[,...]  preset variables
  -q, --quiet                        write nothing to standard output
  -w, --whitespace-ok                accept changes of whitespace
      --max-steps=N                  stop after N steps
      --help                         show this text
      --version                      show the version
";

/// The text of the version.
const VERSION: &str = "checktestdata 1.0 (whole-number profile)\n";

/// The text for words that give no settings.
fn usage_text_of(fault: &UsageFault) -> &'static str
    ensures { result.now ≡ usage_text fault.now }
{
    match fault {
        UsageFault::Words => "checktestdata: bad arguments\nTry 'checktestdata --help'.\n",
        UsageFault::BadSteps => "checktestdata: bad step limit\n",
        UsageFault::BadPreset => "checktestdata: bad preset\n",
        UsageFault::Generate => "checktestdata: generating test data is not supported\n",
        UsageFault::Help => HELP,
        UsageFault::Version => VERSION,
        UsageFault::Memory => "checktestdata: out of memory\n",
    }
}

/// Whether what the words ask for is no fault: the help or the version.
fn is_wanted(fault: &UsageFault) -> bool
    ensures wanted { result ≡ true → usage_report fault.now ≡ on_out (usage_text fault.now) 0 }
    ensures fault { result ≡ false → usage_report fault.now ≡ on_err (usage_text fault.now) }
{
    match fault {
        UsageFault::Help => true,
        UsageFault::Version => true,
        UsageFault::Words => false,
        UsageFault::BadSteps => false,
        UsageFault::BadPreset => false,
        UsageFault::Generate => false,
        UsageFault::Memory => false,
    }
}

/// Writes what words that give no settings ask for, or their fault, and answers the status. It allocates nothing.
pub fn report_usage<O: Sink, E: Sink>(
    fault: &UsageFault,
    out: &mut O,
    err: &mut E,
) -> Result<u8, ToolFault>
    requires out_works { O.has_failed out.old ≡ false }
    requires err_works { E.has_failed err.old ≡ false }
    ensures written { Leaves (before_after O.Sink out.old out.new) (before_after E.Sink err.old err.new)
        (usage_report fault.now) result }
    ensures no_memory { result ≢ Err ToolFault.Memory }
{
    let text = usage_text_of(fault).as_bytes();
    if is_wanted(fault) {
        write_report(text, &[], ACCEPTED, out, err)
    } else {
        write_report(&[], text, NO_VERDICT, out, err)
    }
}
