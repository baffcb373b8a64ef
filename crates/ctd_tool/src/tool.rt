//! A program and data, read and checked, and the report of it.

ghost use Rattle.std.specs.Prelude.{◌≡◌, ◌+◌, ◌≤◌, ◌^◌, false};
ghost use Rattle.ctd_source.specs.SourceReads.{GaveAtMost};
ghost use Rattle.ctd_source.specs.declared.source.Seen.TheVariants.{Going};
ghost use Rattle.ctd_token.specs.declared.limits.TheConstants.{PROGRAM_LIMIT};
ghost use Rattle.ctd_tool.specs.Theorem.{IsReport};
ghost use Rattle.ctd_report.specs.Written.{WritesOneOf, before_after};

use ctd_arguments::Setup;
use ctd_check::{LoadKind, Plan, Source, check};
use ctd_report::{Sink, ToolFault, write_load_fault, write_outcome};
use std::alloc::Global;

/// Reads the program, checks the data against it, writes the report and answers the status. The report is that of the program's
/// meaning on all data that agree with what was read, or of a fault of the program; then the data are not touched.
///
/// `Write` is returned where a stream failed, which then holds a part of its text from the start, and the other stream nothing.
/// `Memory` is returned where memory ran out: nothing was written.
pub fn run_tool<P: Source, D: Source, O: Sink, E: Sink>(
    alloc: Global,
    setup: &Setup,
    program: &mut P,
    testdata: &mut D,
    out: &mut O,
    err: &mut E,
) -> Result<u8, ToolFault>
    requires program_going { P.seen program.old ≡ Going }
    requires testdata_going { D.seen testdata.old ≡ Going }
    requires bytes { setup.now.limits.bytes ≤ 2 ^ 62 }
    requires out_works { O.has_failed out.old ≡ false }
    requires err_works { E.has_failed err.old ≡ false }
    ensures written { WritesOneOf (before_after O.Sink out.old out.new) (before_after E.Sink err.old err.new)
        (IsReport setup.now (before_after P.Source program.old program.new) (before_after D.Source testdata.old testdata.new)) result }
    // whatever it answers, of each source no more is read than its limit and one byte
    ensures reads_program { GaveAtMost P.Source (PROGRAM_LIMIT + 1) program.old program.new }
    ensures reads_testdata { GaveAtMost D.Source (setup.now.limits.bytes + 1) testdata.old testdata.new }
{
    let plan = match Plan::load(alloc, program) {
        Ok(plan) => plan,
        Err(fault) => match fault.kind {
            LoadKind::Memory => return Err(ToolFault::Memory),
            _ => return write_load_fault(&fault, out, err),
        },
    };
    match check(
        alloc,
        &plan,
        &setup.presets,
        testdata,
        setup.limits,
        setup.mode,
    ) {
        Ok(checked) => write_outcome(alloc, &checked.outcome, setup.quiet, out, err),
        Err(_memory) => Err(ToolFault::Memory),
    }
}
