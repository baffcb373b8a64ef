//! Command lines over files in memory: which files are opened, in which order, and what is written of them.

ghost use Rattle.std.specs.Prelude.{⊤};

use crate::tests::memory::{AMPLE, Clipped, MemoryFile, Refusal, Room, Written};
use crate::tests::reports::BAD_ARGUMENTS;
use crate::tests::same;
use crate::tests::words::words_of;
use ctd_check::Bytes;
use ctd_tool::{Files, ToWrite, run_words};
use std::alloc::{AllocError, Global};
use std::process::Abort;
use std::test::Fail;

/// An integer from 1 to 10, and the end of its line.
const LINE_OF_ONE: &str = "INT(1,10) NEWLINE";

/// Files by their names, and standard input; it keeps a list of what it was asked for.
pub(crate) struct MemoryFiles<'m> {
    named: &'m [(&'m str, &'m str)],
    input: &'m str,
    failing: &'m str,
    pub(crate) asked: Vec<u8>,
}

impl Drop for MemoryFiles<'_> {
    fn drop(self) {
        let MemoryFiles {
            named: _,
            input: _,
            failing: _,
            asked: _,
        } = self;
    }
}

impl<'m> MemoryFiles<'m> {
    /// The files of these tests, where reading the file of this name fails after its bytes.
    pub(crate) fn new(alloc: Global, failing: &'m str) -> Self {
        MemoryFiles {
            named: &NAMED,
            input: "7",
            failing,
            asked: Vec::new(alloc),
        }
    }

    /// Adds a name to the list of what was asked for.
    pub(crate) fn note(&mut self, name: &[u8]) {
        let _ = self.asked.extend_from_slice(name);
        let _ = self.asked.push(b';');
    }
}

impl<'m> Files for MemoryFiles<'m> {
    type File = MemoryFile<'m>;

    ghost opens = { λ _ _ _ _. ⊤ };

    ghost takes_input = { λ _ _ _. ⊤ };

    fn open(&mut self, name: &[u8]) -> Option<MemoryFile<'m>> {
        self.note(name);
        for (known, bytes) in self.named {
            if known.as_bytes() == name {
                return Some(MemoryFile {
                    bytes: bytes.as_bytes(),
                    fails: self.failing == *known,
                });
            }
        }
        None
    }

    fn input(&mut self) -> MemoryFile<'m> {
        self.note(b"<input>");
        MemoryFile {
            bytes: self.input.as_bytes(),
            fails: self.failing == "<input>",
        }
    }
}

/// The files of these tests.
const NAMED: [(&str, &str); 4] = [
    ("p.ctd", LINE_OF_ONE),
    ("broken.ctd", "INT("),
    ("right.in", "5\n"),
    ("wrong.in", "5"),
];

/// A command line, the files that it asks for in order, its status, and what it writes to both streams.
type Row = (&'static str, &'static str, u8, &'static str, &'static str);

/// What words leave that are run on files, where the output has this room.
fn written(alloc: Global, words: &[Bytes], files: &mut MemoryFiles<'_>, room: Room) -> Written {
    let mut out = Clipped::new(alloc, room);
    let mut err = Vec::new(alloc);
    let status = run_words(
        alloc,
        words,
        files,
        &mut ToWrite::new(&mut out),
        &mut ToWrite::new(&mut err),
    )
    .status;
    Written {
        answer: Ok(status),
        out: out.bytes,
        err,
    }
}

/// Whether words over the files of these tests answer what a row says, where reading the file of this name fails after its bytes
/// and the output has this room.
fn is_answered(alloc: Global, words: &[Bytes], failing: &str, room: Room, row: &Row) -> bool {
    let (_, asked, status, out, err) = row;
    let mut files = MemoryFiles::new(alloc, failing);
    let written = written(alloc, words, &mut files, room);
    let is_asked = files.asked.as_slice() == asked.as_bytes();
    written.is(Ok(*status), out.as_bytes(), err.as_bytes()) && is_asked
}

/// Whether a run gives what a row says, for the words of the row's command line.
fn is_line_answered(
    alloc: Global,
    failing: &str,
    room: Room,
    row: &Row,
) -> Result<bool, AllocError> {
    let words = words_of(alloc, row.0.as_bytes())?;
    Ok(is_answered(alloc, words.as_slice(), failing, room, row))
}

/// Judges the command line of a row.
fn judge_row(
    rt: &impl Abort,
    alloc: Global,
    failing: &str,
    room: Room,
    row: &Row,
) -> Result<(), AllocError> {
    let is = is_line_answered(alloc, failing, room, row)?;
    same(rt, &is, &true, &row.0);
    Ok(())
}

/// Each command line answers what its row says, where nothing fails.
fn judge(rt: &impl Abort, alloc: Global, rows: &[Row]) -> Result<(), AllocError> {
    for row in rows {
        judge_row(rt, alloc, "", AMPLE, row)?;
    }
    Ok(())
}

const WRONG: &str = "line 1 column 2: expected a newline (program line 1 column 11)\n";

static VERDICTS: [Row; 4] = [
    ("p.ctd right.in", "p.ctd;right.in;", 0, "testdata ok!\n", ""),
    ("p.ctd wrong.in", "p.ctd;wrong.in;", 1, WRONG, ""),
    ("p.ctd", "p.ctd;<input>;", 1, WRONG, ""),
    ("p.ctd -", "p.ctd;<input>;", 1, WRONG, ""),
];

#[test]
fn a_verdict_is_of_the_files_that_the_words_name(rt: HostRuntime) -> Result<(), Fail> {
    judge(&rt, rt.alloc(), &VERDICTS)?;
    Ok(())
}

static REFUSED: [Row; 6] = [
    (
        "broken.ctd right.in",
        "broken.ctd;right.in;",
        2,
        "",
        "checktestdata: program line 1 column 5: syntax error\n",
    ),
    (
        "none.ctd right.in",
        "none.ctd;",
        2,
        "",
        "checktestdata: cannot open none.ctd\n",
    ),
    (
        "p.ctd none.in",
        "p.ctd;none.in;",
        2,
        "",
        "checktestdata: cannot open none.in\n",
    ),
    ("- right.in", "-;", 2, "", "checktestdata: cannot open -\n"),
    ("", "", 2, "", BAD_ARGUMENTS),
    ("p.ctd right.in more", "", 2, "", BAD_ARGUMENTS),
];

#[test]
fn a_file_that_is_refused_is_told_by_its_name(rt: HostRuntime) -> Result<(), Fail> {
    judge(&rt, rt.alloc(), &REFUSED)?;
    Ok(())
}

const NO_DATA: &str = "checktestdata: line 1 column 1: read failed (program line 1 column 1)\n";

/// The file whose reading fails, the room of the output, and the row.
type Failing = (&'static str, Room, Row);

static FAILING: [Failing; 5] = [
    (
        "p.ctd",
        AMPLE,
        (
            "p.ctd wrong.in",
            "p.ctd;wrong.in;",
            2,
            "",
            "checktestdata: cannot read program\n",
        ),
    ),
    (
        "wrong.in",
        AMPLE,
        ("p.ctd wrong.in", "p.ctd;wrong.in;", 2, "", NO_DATA),
    ),
    (
        "<input>",
        AMPLE,
        ("p.ctd", "p.ctd;<input>;", 2, "", NO_DATA),
    ),
    (
        "",
        (4, Refusal::Fails),
        ("p.ctd right.in", "p.ctd;right.in;", 2, "test", ""),
    ),
    (
        "",
        (100, Refusal::NeverFlushed),
        ("p.ctd right.in", "p.ctd;right.in;", 2, "testdata ok!\n", ""),
    ),
];

#[test]
fn a_read_or_a_stream_that_fails_is_status_two(rt: HostRuntime) -> Result<(), Fail> {
    for (failing, room, row) in &FAILING {
        judge_row(&rt, rt.alloc(), failing, *room, row)?;
    }
    Ok(())
}
