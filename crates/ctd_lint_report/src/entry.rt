//! What is written of one finding, of one trap, of verdicts and of an error, in the form that is asked for.

ghost use Rattle.std.specs.Prelude.{◌≡◌, ◌++◌, codes, false, IfOk, None, OnOk};
ghost use Rattle.ctd_report.specs.calls.Written.{Leaves};
ghost use Rattle.ctd_report.specs.Written.{before_after};
ghost use Rattle.ctd_token.specs.FaultText as faults;
ghost use Rattle.ctd_lint_report.specs.calls.Reasons.{reason_of};
ghost use Rattle.ctd_lint_report.specs.calls.Report.{error_report, less_known_lines};
ghost use Rattle.ctd_lint_report.specs.calls.Text.{error_entry, finding_entry, never_lines, trap_entry, verdict_entry};

use crate::json::{
    write_error_object, write_finding_object, write_less_known_object, write_never_objects,
    write_trap_object, write_verdict_object,
};
use crate::reason::reason_of;
use crate::setup::Form;
use crate::text::{
    write_error_lines, write_finding_line, write_less_known_line, write_trap_line,
    write_verdict_line,
};
use ctd_findings::Finding;
use ctd_report::{NO_VERDICT, Sink, ToolFault, write_report};
use ctd_token::{LoadFault, Place};
use ctd_traps::{Note, Trap};
use std::alloc::{AllocError, Global};

/// Appends what is written of a finding.
pub(crate) fn write_finding(
    form: Form,
    file: &[u8],
    finding: &Finding,
    text: &mut Vec<u8>,
) -> Result<(), AllocError>
    ensures { OnOk result (text.new.items ≡ text.old.items ++ finding_entry form file.now finding.now) }
{
    match form {
        Form::Text => write_finding_line(file, finding, text),
        Form::Json => write_finding_object(file, finding, text),
    }
}

/// Appends what is written of a trap, whose reason is told by these names.
pub(crate) fn write_trap(
    alloc: Global,
    form: Form,
    file: &[u8],
    names: &[&[u8]],
    trap: &Trap,
    text: &mut Vec<u8>,
) -> Result<(), AllocError>
    ensures { OnOk result (text.new.items ≡ text.old.items ++ trap_entry form file.now (reason_of names.now trap.now) trap.now) }
{
    let reason = reason_of(alloc, names, trap)?;
    match form {
        Form::Text => write_trap_line(file, trap, &reason, text),
        Form::Json => write_trap_object(file, trap, &reason, text),
    }
}

/// Appends what is written of the command from which on less is known, behind the lines of traps, if there are any.
pub(crate) fn write_less_known(
    form: Form,
    file: &[u8],
    less_known: Option<Place>,
    text: &mut Vec<u8>,
) -> Result<(), AllocError>
    ensures { OnOk result (text.new.items ≡ text.old.items ++ less_known_lines form file.now text.old.items less_known) }
{
    if text.is_empty() {
        return Ok(());
    }
    let Some(place) = less_known else {
        return Ok(());
    };
    match form {
        Form::Text => write_less_known_line(file, place, text),
        Form::Json => write_less_known_object(file, place, text),
    }
}

/// Appends what is written of what never happens.
pub(crate) fn write_never(
    form: Form,
    file: &[u8],
    notes: &[Note],
    text: &mut Vec<u8>,
) -> Result<(), AllocError>
    ensures { OnOk result (text.new.items ≡ text.old.items ++ never_lines form file.now notes.now) }
{
    match form {
        Form::Text => Ok(()),
        Form::Json => write_never_objects(file, notes, text),
    }
}

/// Appends what is written of verdicts.
pub(crate) fn write_verdict(
    form: Form,
    file: &[u8],
    said: &[u8],
    text: &mut Vec<u8>,
) -> Result<(), AllocError>
    ensures { OnOk result (text.new.items ≡ text.old.items ++ verdict_entry form file.now said.now) }
{
    match form {
        Form::Text => write_verdict_line(file, said, text),
        Form::Json => write_verdict_object(file, said, text),
    }
}

/// What is written of an error.
fn error_text(
    alloc: Global,
    form: Form,
    file: &[u8],
    place: Option<Place>,
    said: &[u8],
    unclosed: Option<Place>,
) -> Result<Vec<u8>, AllocError>
    ensures { IfOk result (λ text. text.items ≡ error_entry form file.now place said.now unclosed) }
{
    let mut text = Vec::new(alloc);
    match form {
        Form::Text => write_error_lines(file, place, said, unclosed, &mut text)?,
        Form::Json => write_error_object(file, place, said, unclosed, &mut text)?,
    }
    Ok(text)
}

/// What is written of a program that is refused, where this is told of the fault besides its name.
pub(crate) fn refusal_text(
    alloc: Global,
    form: Form,
    file: &[u8],
    fault: &LoadFault,
    told: &[u8],
    unclosed: Option<Place>,
) -> Result<Vec<u8>, AllocError>
    ensures { IfOk result (λ text. text.items ≡ error_entry form file.now fault.now.place (faults.kind_text fault.now.kind ++ told.now) unclosed) }
{
    let mut said = fault.kind.text().as_bytes().to_vec(alloc)?;
    said.extend_from_slice(told)?;
    error_text(alloc, form, file, fault.place, said.as_slice(), unclosed)
}

/// What is written of a program that cannot be opened.
pub(crate) fn unopened_text(alloc: Global, form: Form, file: &[u8]) -> Result<Vec<u8>, AllocError>
    ensures { IfOk result (λ text. text.items ≡ error_entry form file.now None (codes "cannot open") None) }
{
    error_text(alloc, form, file, None, b"cannot open", None)
}

/// Writes what is written of an error, and returns the status: text to standard error, and JSON to standard output.
pub(crate) fn write_error<O: Sink, E: Sink>(
    form: Form,
    text: &[u8],
    out: &mut O,
    err: &mut E,
) -> Result<u8, ToolFault>
    requires out_works { O.has_failed out.old ≡ false }
    requires err_works { E.has_failed err.old ≡ false }
    ensures written { Leaves (before_after O.Sink out.old out.new) (before_after E.Sink err.old err.new) (error_report form text.now) result }
{
    match form {
        Form::Text => write_report(&[], text, NO_VERDICT, out, err),
        Form::Json => write_report(text, &[], NO_VERDICT, out, err),
    }
}
