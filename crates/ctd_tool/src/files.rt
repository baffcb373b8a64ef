//! The files of a run, and the two sources that are made of them.

ghost use Rattle.std.specs.Prelude.{◌≡◌, ◌≤◌, ◌^◌, Some, false, IfOk};
ghost use Rattle.ctd_tool.specs.Theorem.{IsFilesReport, IsRunReport, Visits};
ghost use Rattle.ctd_process.specs.Process.{StartsOn};
ghost use Rattle.ctd_report.specs.Written.{WritesOneOf, before_after};

use crate::tool::run_tool;
use ctd_arguments::Setup;
use ctd_check::{FromRead, Source};
use ctd_process::{Files, buffered_source};
use ctd_report::{Sink, ToolFault, write_cannot_open};
use std::alloc::{AllocError, Global};
use std::io::{BufReader, Read};

/// The two sources of a run.
#[derive(Drop)]
pub struct Sources<R: Read> {
    pub program: FromRead<BufReader<R>>,
    pub testdata: FromRead<BufReader<R>>,
}

/// What a run returned, and its sources after it, if both were opened.
#[derive(Drop)]
pub struct FilesRun<R: Read> {
    pub answer: Result<u8, ToolFault>,
    pub sources: Option<Sources<R>>,
}

/// The sources of a program and of data.
fn sources_on<R: Read + Drop>(
    alloc: Global,
    program: R,
    testdata: R,
) -> Result<Sources<R>, AllocError>
    ensures program { IfOk result (λ sources. StartsOn R.remaining ⟦<FromRead<BufReader<R>> as Source>⟧ program sources.program) }
    ensures testdata { IfOk result (λ sources. StartsOn R.remaining ⟦<FromRead<BufReader<R>> as Source>⟧ testdata sources.testdata) }
{
    Ok(Sources {
        program: buffered_source(alloc, program)?,
        testdata: buffered_source(alloc, testdata)?,
    })
}

/// Runs the tool on two readers.
fn run_on<R: Read + Drop, O: Sink, E: Sink>(
    alloc: Global,
    setup: &Setup,
    program: R,
    testdata: R,
    out: &mut O,
    err: &mut E,
) -> FilesRun<R>
    requires bytes { setup.now.limits.bytes ≤ 2 ^ 62 }
    requires out_works { O.has_failed out.old ≡ false }
    requires err_works { E.has_failed err.old ≡ false }
    ensures written { WritesOneOf (before_after O.Sink out.old out.new) (before_after E.Sink err.old err.new)
        (IsRunReport R.remaining ⟦<FromRead<BufReader<R>> as Source>⟧ setup.now program testdata result.sources) result.answer }
{
    match sources_on(alloc, program, testdata) {
        Ok(mut sources) => {
            let answer = run_tool(
                alloc,
                setup,
                &mut sources.program,
                &mut sources.testdata,
                out,
                err,
            );
            FilesRun {
                answer,
                sources: Some(sources),
            }
        }
        Err(_) => FilesRun {
            answer: Err(ToolFault::Memory),
            sources: None,
        },
    }
}

/// Opens the program and then the data, and runs the tool on them. Data with no name are standard input.
pub fn check_files<F: Files, O: Sink, E: Sink>(
    alloc: Global,
    setup: &Setup,
    files: &mut F,
    out: &mut O,
    err: &mut E,
) -> FilesRun<F::File>
    requires bytes { setup.now.limits.bytes ≤ 2 ^ 62 }
    requires out_works { O.has_failed out.old ≡ false }
    requires err_works { E.has_failed err.old ≡ false }
    ensures written { WritesOneOf (before_after O.Sink out.old out.new) (before_after E.Sink err.old err.new)
        (IsFilesReport F.File.remaining ⟦<FromRead<BufReader<F::File>> as Source>⟧ setup.now
        (before_after F.Files files.old files.new) result.sources) result.answer }
    // also where memory ran out
    ensures visits { Visits (before_after F.Files files.old files.new) setup.now }
{
    let Some(program) = files.open(setup.program.as_slice()) else {
        return FilesRun {
            answer: write_cannot_open(alloc, &setup.program, out, err),
            sources: None,
        };
    };
    let Some(name) = &setup.testdata else {
        let testdata = files.input();
        return run_on(alloc, setup, program, testdata, out, err);
    };
    let Some(testdata) = files.open(name.as_slice()) else {
        return FilesRun {
            answer: write_cannot_open(alloc, name, out, err),
            sources: None,
        };
    };
    run_on(alloc, setup, program, testdata, out, err)
}
