//! The programs, opened and linted one after the other.

ghost use Rattle.std.specs.Prelude.{◌≡◌, ◌≢◌, Err, false};
ghost use Rattle.ctd_report.specs.Written.{WritesOneOf, before_after};
ghost use Rattle.ctd_lint_tool.specs.calls.FileReport.{IsNamedReport};
ghost use Rattle.ctd_lint_tool.specs.calls.Run.{stand};
ghost use Rattle.ctd_lint_tool.specs.inner.Run.{LeavesRun};
ghost use Rattle.ctd_lint_report.specs.calls.Report.{AreRemarks};
ghost use Rattle.ctd_lint_tool.specs.calls.Opening.{WasAskedFor};

use crate::programs::Programs;
use ctd_lint_report::{LintSetup, NO_WARNINGS, lint, write_unopened};
use ctd_report::{Sink, ToolFault};
use ctd_source::Source;
use ctd_token::Bytes;
use std::alloc::Global;

/// Opens a program, writes its report, hands its source back, and returns the status.
fn lint_named<P: Programs, O: Sink, E: Sink>(
    alloc: Global,
    setup: &LintSetup,
    name: &Bytes,
    programs: &mut P,
    out: &mut O,
    err: &mut E,
) -> Result<u8, ToolFault>
    requires out_works { O.has_failed out.old ≡ false }
    requires err_works { E.has_failed err.old ≡ false }
    ensures written { WritesOneOf (before_after O.Sink out.old out.new) (before_after E.Sink err.old err.new)
        (IsNamedReport P.opens_program P.closes_program P.Program.Source AreRemarks name.now setup.now programs.old programs.new) result }
    // also where memory ran out
    ensures asked { WasAskedFor P.opens_program P.closes_program P.asks_for programs.old name.now programs.new }
{
    match programs.open_program(alloc, name.as_slice())? {
        Some(mut program) => {
            let status = lint(alloc, setup, name, &mut program, out, err);
            programs.close_program(program);
            status
        }
        None => write_unopened(alloc, setup.form, name, out, err),
    }
}

/// Lints the programs of these names one after the other, and returns the greatest status. A stream that fails, or memory that runs out, ends it.
pub(crate) fn lint_all<P: Programs, O: Sink, E: Sink>(
    alloc: Global,
    setup: &LintSetup,
    names: &[Bytes],
    programs: &mut P,
    out: &mut O,
    err: &mut E,
) -> Result<u8, ToolFault>
    requires out_works { O.has_failed out.old ≡ false }
    requires err_works { E.has_failed err.old ≡ false }
    ensures run { LeavesRun
        (record { opens = P.opens_program; asks = P.asks_for; closes = P.closes_program; source = P.Program.Source; out = O.Sink; err = E.Sink; remarks = AreRemarks })
        setup.now names.now (stand programs.old out.old err.old) (stand programs.new out.new err.new) result }
    ensures out_works { result ≢ Err ToolFault.Write → O.has_failed out.new ≡ false }
    ensures err_works { result ≢ Err ToolFault.Write → E.has_failed err.new ≡ false }
{
    let mut status = NO_WARNINGS;
    for name in names {
        let own = lint_named(alloc, setup, name, programs, out, err)?;
        status = status.max(own);
    }
    Ok(status)
}
