//! A program, read, and the report on it.

ghost use Rattle.std.specs.Prelude.{◌≡◌, ◌++◌, All, IfOk, IfSome, OnOk, false};
ghost use Rattle.ctd_guarantees.specs.calls.Guarantees.{IsGuaranteed};
ghost use Rattle.ctd_program.specs.calls.View.{command_trees};
ghost use Rattle.ctd_source.specs.declared.source.Seen.TheVariants.{Going};
ghost use Rattle.ctd_report.specs.calls.Written.{Leaves};
ghost use Rattle.ctd_report.specs.Written.{WritesOneOf, before_after};
ghost use Rattle.ctd_traps.specs.calls.Known.{EachAcceptedHas, EachFinds};
ghost use Rattle.ctd_lint_report.specs.calls.Report.{AreRemarks, IsLintReport, asked_guarantees, findings_status, notes_behind, program_lines, program_report, program_status, refusal_report, remarks_of, unopened_report};
ghost use Rattle.ctd_lint_report.specs.calls.Text.{findings_lines, kept};
ghost use Rattle.ctd_lint_report.specs.calls.Traps.{verdict_lines, verdict_status};

use crate::entry::{
    refusal_text, unopened_text, write_error, write_finding, write_less_known, write_never,
};
use crate::explanation::explanation;
use crate::guarantee::write_guarantees;
use crate::kind::{LintKind, is_ignored};
use crate::setup::{Form, LintSetup};
use crate::traps::{some_open, traps_text, write_verdict_of};
use crate::unclosed::unclosed_command;
use ctd_findings::{Finding, Rank, findings};
use ctd_guarantees::{GuaranteeGroup, guarantees};
use ctd_loader::Plan;
use ctd_program::{Command, Presets};
use ctd_report::{Sink, ToolFault, write_report};
use ctd_source::Source;
use ctd_token::{Bytes, LoadFault, LoadKind, Place};
use ctd_traps::{Asked, TrapList, traps};
use std::alloc::{AllocError, Global};

/// The status of a program without warnings.
pub const NO_WARNINGS: u8 = 0;

/// The status of a program with warnings, and where `--verdicts` does not find that every data file gets a verdict.
const WARNINGS: u8 = 1;

/// What is written of the findings in a file, but for those of kinds that are left out.
fn findings_text(
    alloc: Global,
    file: &[u8],
    setup: &LintSetup,
    found: &[Finding],
) -> Result<Vec<u8>, AllocError>
    ensures { IfOk result (λ text. text.items ≡ findings_lines setup.now.form file.now (kept setup.now.ignored.items found.now)) }
{
    let mut text = Vec::new(alloc);
    for finding in found {
        if !is_ignored(finding.remark.kind.name(), setup.ignored.as_slice()) {
            write_finding(setup.form, file, finding, &mut text)?;
        }
    }
    Ok(text)
}

/// The status for some findings, but for those of kinds that are left out.
fn status_of(found: &[Finding], ignored: &[LintKind]) -> u8
    ensures { result ≡ findings_status (kept ignored.now found.now) }
{
    for finding in found {
        let kind = finding.remark.kind;
        if !is_ignored(kind.name(), ignored) && kind.rank() == Rank::Warning {
            return WARNINGS;
        }
    }
    NO_WARNINGS
}

/// The status that `--verdicts` asks for.
fn verdict_status(setup: &LintSetup, trap_list: &TrapList<'_>) -> u8
    ensures { result ≡ verdict_status setup.now trap_list.now }
{
    if some_open(trap_list.traps.as_slice(), setup.ignored.as_slice()) {
        WARNINGS
    } else {
        NO_WARNINGS
    }
}

/// The status for findings and traps.
fn program_status(
    file: &Bytes,
    setup: &LintSetup,
    found: &[Finding],
    groups: &[GuaranteeGroup],
    trap_list: &TrapList<'_>,
) -> u8
    ensures { result ≡ program_status setup.now (remarks_of file.now setup.now found.now groups.now trap_list.now) trap_list.now }
{
    let own = status_of(found, setup.ignored.as_slice());
    if !setup.verdicts {
        return own;
    }
    own.max(verdict_status(setup, trap_list))
}

/// Appends what is written of what every accepted file has, if that is asked for.
fn write_asked(
    alloc: Global,
    file: &[u8],
    setup: &LintSetup,
    names: &[&[u8]],
    groups: &[GuaranteeGroup],
    text: &mut Vec<u8>,
) -> Result<(), AllocError>
    ensures { OnOk result (text.new.items ≡ text.old.items ++ asked_guarantees file.now setup.now names.now groups.now) }
{
    if !setup.guarantees {
        return Ok(());
    }
    write_guarantees(alloc, setup.form, file, names, groups, text)
}

/// Appends what is told behind the traps.
fn write_notes(
    alloc: Global,
    file: &[u8],
    setup: &LintSetup,
    groups: &[GuaranteeGroup],
    trap_list: &TrapList<'_>,
    text: &mut Vec<u8>,
) -> Result<(), AllocError>
    ensures { OnOk result (text.new.items ≡ text.old.items ++ notes_behind file.now setup.now text.old.items groups.now trap_list.now) }
{
    write_less_known(setup.form, file, trap_list.less_known, text)?;
    write_never(setup.form, file, trap_list.never.as_slice(), text)?;
    write_asked(alloc, file, setup, trap_list.names.as_slice(), groups, text)
}

/// What is written of the traps of a program, but for those that findings tell too, and behind them.
fn verdict_text(
    alloc: Global,
    file: &[u8],
    setup: &LintSetup,
    found: &[Finding],
    groups: &[GuaranteeGroup],
    trap_list: &TrapList<'_>,
) -> Result<Vec<u8>, AllocError>
    ensures { IfOk result (λ text. text.items ≡ verdict_lines file.now setup.now (remarks_of file.now setup.now found.now groups.now trap_list.now) trap_list.now) }
{
    let traps = trap_list.traps.as_slice();
    let mut text = traps_text(alloc, file, setup, found, trap_list.names.as_slice(), traps)?;
    write_notes(alloc, file, setup, groups, trap_list, &mut text)?;
    write_verdict_of(alloc, file, setup, traps, &mut text)?;
    Ok(text)
}

/// The lines of findings and traps.
fn program_text(
    alloc: Global,
    setup: &LintSetup,
    file: &Bytes,
    found: &[Finding],
    groups: &[GuaranteeGroup],
    trap_list: &TrapList<'_>,
) -> Result<Vec<u8>, AllocError>
    ensures { IfOk result (λ text. text.items ≡ program_lines file.now setup.now (remarks_of file.now setup.now found.now groups.now trap_list.now) trap_list.now) }
{
    let mut text = findings_text(alloc, file.as_slice(), setup, found)?;
    let lines = verdict_text(alloc, file.as_slice(), setup, found, groups, trap_list)?;
    text.extend_from_slice(lines.as_slice())?;
    Ok(text)
}

/// Writes the findings and the traps of a program, and returns the status.
fn write_program<O: Sink, E: Sink>(
    alloc: Global,
    setup: &LintSetup,
    file: &Bytes,
    found: &[Finding],
    groups: &[GuaranteeGroup],
    trap_list: &TrapList<'_>,
    out: &mut O,
    err: &mut E,
) -> Result<u8, ToolFault>
    requires out_works { O.has_failed out.old ≡ false }
    requires err_works { E.has_failed err.old ≡ false }
    ensures written { Leaves (before_after O.Sink out.old out.new) (before_after E.Sink err.old err.new)
        (program_report file.now setup.now (remarks_of file.now setup.now found.now groups.now trap_list.now) trap_list.now) result }
{
    let text = program_text(alloc, setup, file, found, groups, trap_list)?;
    let status = program_status(file, setup, found, groups, trap_list);
    write_report(text.as_slice(), &[], status, out, err)
}

/// Writes why a program is refused, and returns the status.
fn write_refusal<O: Sink, E: Sink>(
    alloc: Global,
    form: Form,
    file: &Bytes,
    fault: &LoadFault,
    told: &[u8],
    unclosed: Option<Place>,
    out: &mut O,
    err: &mut E,
) -> Result<u8, ToolFault>
    requires out_works { O.has_failed out.old ≡ false }
    requires err_works { E.has_failed err.old ≡ false }
    ensures written { Leaves (before_after O.Sink out.old out.new) (before_after E.Sink err.old err.new)
        (refusal_report form file.now fault.now told.now unclosed) result }
{
    let text = refusal_text(alloc, form, file.as_slice(), fault, told, unclosed)?;
    write_error(form, text.as_slice(), out, err)
}

/// Writes that a program cannot be opened, and returns the status.
pub fn write_unopened<O: Sink, E: Sink>(
    alloc: Global,
    form: Form,
    file: &Bytes,
    out: &mut O,
    err: &mut E,
) -> Result<u8, ToolFault>
    requires out_works { O.has_failed out.old ≡ false }
    requires err_works { E.has_failed err.old ≡ false }
    ensures written { Leaves (before_after O.Sink out.old out.new) (before_after E.Sink err.old err.new) (unopened_report form file.now) result }
{
    let text = unopened_text(alloc, form, file.as_slice())?;
    write_error(form, text.as_slice(), out, err)
}

/// Lines of what every accepted file has, if it is known what that is.
fn groups_of(
    alloc: Global,
    commands: &[Command],
    presets: &Presets,
    trap_list: &TrapList<'_>,
) -> Result<Vec<GuaranteeGroup>, AllocError>
    ensures { IfSome trap_list.now.knowledge (λ k. EachFinds (command_trees commands.now) presets.now trap_list.now.names.items k.at_places.items)
        → IfSome trap_list.now.knowledge (λ k. EachAcceptedHas (command_trees commands.now) presets.now trap_list.now.names.items k.at_end)
        → IfOk result (λ groups. All (IsGuaranteed (command_trees commands.now) presets.now trap_list.now.names.items) groups.items) }
{
    match &trap_list.knowledge {
        Some(knowledge) => {
            guarantees(
                alloc,
                commands,
                presets,
                trap_list.names.as_slice(),
                knowledge,
            )
        }
        None => Ok(Vec::new(alloc)),
    }
}

/// Reads the program in a file and writes a line for each finding and trap, and returns the status. A program that is refused has a line on
/// standard error, and where it breaks off a second one at the command that has no END. As JSON all is on standard output, with what never
/// happens besides. Where that is asked for, it tells what every accepted file has.
///
/// `Write` is returned where a stream failed, which then holds a part of its text from the start, and the other stream nothing.
/// `Memory` is returned where memory ran out: nothing was written.
pub fn lint<P: Source, O: Sink, E: Sink>(
    alloc: Global,
    setup: &LintSetup,
    file: &Bytes,
    program: &mut P,
    out: &mut O,
    err: &mut E,
) -> Result<u8, ToolFault>
    requires program_going { P.seen program.old ≡ Going }
    requires out_works { O.has_failed out.old ≡ false }
    requires err_works { E.has_failed err.old ≡ false }
    ensures written { WritesOneOf (before_after O.Sink out.old out.new) (before_after E.Sink err.old err.new)
        (IsLintReport AreRemarks file.now setup.now (before_after P.Source program.old program.new)) result }
{
    let mut text = Vec::new(alloc);
    let plan = match Plan::load_text(alloc, program, &mut text) {
        Ok(plan) => plan,
        Err(fault) => match fault.kind {
            LoadKind::Memory => return Err(ToolFault::Memory),
            _ => {
                let told = explanation(alloc, text.as_slice(), &fault)?;
                let told = told.as_slice();
                let unclosed = unclosed_command(alloc, text.as_slice(), &fault, told)?;
                return write_refusal(alloc, setup.form, file, &fault, told, unclosed, out, err);
            }
        },
    };
    let asked = if setup.guarantees {
        Asked::Ends
    } else {
        Asked::Nothing
    };
    let trap_list = traps(alloc, plan.commands(), &setup.presets, asked)?;
    let found = findings(alloc, plan.commands(), &setup.presets, &trap_list)?;
    let groups = groups_of(alloc, plan.commands(), &setup.presets, &trap_list)?;
    write_program(
        alloc,
        setup,
        file,
        found.as_slice(),
        groups.as_slice(),
        &trap_list,
        out,
        err,
    )
}
