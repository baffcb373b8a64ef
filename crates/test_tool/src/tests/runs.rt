//! Whole runs on readers that fail, under a limit of bytes, and on data that tell whether they are read.

ghost use Rattle.std.specs.Prelude.{◌≤◌, ◌^◌, IfOk};

use crate::tests::memory::{MemoryFile, Written};
use crate::tests::same;
use ctd_check::{Bytes, FromRead, Limits, Mode, Presets};
use ctd_tool::{Setup, ToWrite, run_tool};
use std::alloc::{AllocError, Global};
use std::io::{self, Read};
use std::test::Fail;

/// A reader that tells whether it is read, and has no byte.
#[derive(Drop)]
struct Watched<'w> {
    is_read: &'w mut bool,
}

impl Read for Watched<'_> {
    fn read(&mut self, _buf: &mut [u8]) -> io::Result<usize> {
        *self.is_read = true;
        Ok(0)
    }
}

/// The settings of a run without options, but for the limit of bytes.
fn setup_of(alloc: Global, quiet: bool, bytes: u32) -> Result<Setup, AllocError>
    ensures { IfOk result (λ setup. setup.limits.bytes ≤ 2 ^ 62) }
{
    Ok(Setup {
        program: Bytes::copy(alloc, b"p.ctd")?,
        testdata: None,
        presets: Presets::none(alloc),
        mode: Mode::Exact,
        quiet,
        limits: Limits {
            steps: 10_000_000_000,
            bytes: bytes as u64,
        },
    })
}

/// Room for each text of these tests.
const ROOM: usize = 100;

/// A run on two readers, and on two writers that have all the room that they need.
fn run<P: Read + Drop, D: Read + Drop>(
    alloc: Global,
    setup: &Setup,
    program: P,
    testdata: D,
) -> Result<Written, AllocError>
    requires { setup.now.limits.bytes ≤ 2 ^ 62 }
{
    let mut out = Vec::with_capacity(alloc, ROOM)?;
    let mut err = Vec::with_capacity(alloc, ROOM)?;
    let answer = run_tool(
        alloc,
        setup,
        &mut FromRead::new(program),
        &mut FromRead::new(testdata),
        &mut ToWrite::new(&mut out),
        &mut ToWrite::new(&mut err),
    );
    Ok(Written { answer, out, err })
}

/// A program, data, whether a read fails once behind them, the limit of bytes, whether the run is quiet, its status, and the
/// text that is written to the stream of that status.
type Row = (
    &'static str,
    &'static str,
    bool,
    u32,
    bool,
    u8,
    &'static str,
);

/// Whether what a run wrote is this text, on the stream of its status. A run that is out of memory has written nothing.
fn is_text(written: Written, status: u8, text: &str) -> Result<bool, AllocError> {
    if written.is_without_memory() {
        return Err(AllocError);
    }
    let (out, err) = if status < 2 { (text, "") } else { ("", text) };
    Ok(written.is(Ok(status), out.as_bytes(), err.as_bytes()))
}

/// Whether a run answers what its row says.
fn is_answered(alloc: Global, row: &Row) -> Result<bool, AllocError> {
    let (program, data, fails, limit, quiet, status, text) = *row;
    let setup = setup_of(alloc, quiet, limit)?;
    let testdata = MemoryFile {
        bytes: data.as_bytes(),
        fails,
    };
    let written = run(alloc, &setup, program.as_bytes(), testdata)?;
    is_text(written, status, text)
}

const LINE_OF_ONE: &str = "INT(1,10) NEWLINE";

const TOO_LONG: &str =
    "checktestdata: line 1 column 1: test data too long (program line 1 column 1)\n";

static ROWS: [Row; 5] = [
    (LINE_OF_ONE, "5\n", false, 100, false, 0, "testdata ok!\n"),
    (LINE_OF_ONE, "5\n", false, 1, false, 2, TOO_LONG),
    (LINE_OF_ONE, "5\n", false, 1, true, 2, TOO_LONG),
    // A failed read of the data counts where it is needed.
    (
        "INT(0,9) SPACE",
        "12 ",
        true,
        100,
        false,
        1,
        "line 1 column 1: value out of range (program line 1 column 1)\n",
    ),
    (
        "INT(0,9) SPACE",
        "12",
        true,
        100,
        false,
        2,
        "checktestdata: line 1 column 1: read failed (program line 1 column 1)\n",
    ),
];

#[test]
fn runs_end_as_the_rows_say(rt: HostRuntime) -> Result<(), Fail> {
    for (turn, row) in ROWS.iter().enumerate() {
        same(&rt, &is_answered(rt.alloc(), row)?, &true, &turn);
    }
    Ok(())
}

/// Whether a run tells this fault of its program and does not read its data.
fn is_unread(alloc: Global, program: MemoryFile<'_>, text: &str) -> Result<bool, AllocError> {
    let setup = setup_of(alloc, false, 100)?;
    let mut is_read = false;
    let testdata = Watched {
        is_read: &mut is_read,
    };
    let is = run(alloc, &setup, program, testdata)?.is(Ok(2), b"", text.as_bytes());
    Ok(is && !is_read)
}

#[test]
fn a_program_that_is_not_read_leaves_the_data_alone(rt: HostRuntime) -> Result<(), Fail> {
    let program = MemoryFile {
        bytes: b"SPACE(",
        fails: false,
    };
    let text = "checktestdata: program line 1 column 6: syntax error\n";
    same(&rt, &is_unread(rt.alloc(), program, text)?, &true, &0);
    for n in 0..=LINE_OF_ONE.len() {
        let program = MemoryFile {
            bytes: &LINE_OF_ONE.as_bytes()[..n],
            fails: true,
        };
        let text = "checktestdata: cannot read program\n";
        same(&rt, &is_unread(rt.alloc(), program, text)?, &true, &n);
    }
    Ok(())
}
