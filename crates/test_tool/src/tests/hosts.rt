//! Whole processes over a host in memory: what they ask it for, in which order, and what they leave.

ghost use Rattle.std.specs.Prelude.{⊤};

use crate::tests::memory::MemoryFile;
use crate::tests::processes::MemoryFiles;
use crate::tests::reports::BAD_ARGUMENTS;
use crate::tests::same;
use ctd_tool::{Files, Host, answer};
use std::alloc::{AllocError, Global};
use std::env::Args;
use std::io::{self, Error, ErrorKind, Write};
use std::process::Abort;
use std::test::Fail;

/// A stream that writes to a text. The host has one text for each stream, so a stream that is asked for again has none, and fails.
#[derive(Drop)]
struct Stream<'t> {
    text: Option<&'t mut Vec<u8>>,
}

impl Write for Stream<'_> {
    fn write(&mut self, buf: &[u8]) -> io::Result<usize> {
        match &mut self.text {
            Some(text) => text.write(buf),
            None => Err(Error::from(ErrorKind::Other)),
        }
    }

    fn flush(&mut self) -> io::Result<()> {
        Ok(())
    }
}

/// A host that gives its words once, and keeps a list of what it was asked for.
struct MemoryHost<'m, 'o, 'e> {
    files: MemoryFiles<'m>,
    out: Option<&'o mut Vec<u8>>,
    err: Option<&'e mut Vec<u8>>,
    args: Option<Result<Args, ErrorKind>>,
}

impl Drop for MemoryHost<'_, '_, '_> {
    fn drop(self) {
        let MemoryHost {
            files: _,
            out: _,
            err: _,
            args: _,
        } = self;
    }
}

impl<'m> Files for MemoryHost<'m, '_, '_> {
    type File = MemoryFile<'m>;

    ghost opens = { λ _ _ _ _. ⊤ };

    ghost takes_input = { λ _ _ _. ⊤ };

    fn open(&mut self, name: &[u8]) -> Option<MemoryFile<'m>> {
        self.files.open(name)
    }

    fn input(&mut self) -> MemoryFile<'m> {
        self.files.input()
    }
}

impl<'o, 'e> Host for MemoryHost<'_, 'o, 'e> {
    type Out = Stream<'o>;

    type Err = Stream<'e>;

    ghost gives_out = { λ _ _ _. ⊤ };

    ghost gives_err = { λ _ _ _. ⊤ };

    ghost gives_args = { λ _ _ _. ⊤ };

    fn out(&mut self) -> Stream<'o> {
        self.files.note(b"<out>");
        Stream {
            text: self.out.take(),
        }
    }

    fn err(&mut self) -> Stream<'e> {
        self.files.note(b"<err>");
        Stream {
            text: self.err.take(),
        }
    }

    fn args(&mut self) -> Result<Args, ErrorKind> {
        self.files.note(b"<words>");
        self.args.take().unwrap_or(Err(ErrorKind::Other))
    }
}

/// Words as the system gives them.
fn args_of(alloc: Global, words: &[&str]) -> Result<Args, AllocError> {
    let mut args = Vec::new(alloc);
    for word in words {
        args.push(String::from_str(alloc, word)?)?;
    }
    Ok(args.into_iter())
}

/// What a host is asked for in order, the status, and what is written to both streams.
type Left = (&'static str, u8, &'static str, &'static str);

/// Whether a process whose host gives these words leaves this.
fn leaves(alloc: Global, args: Result<Args, ErrorKind>, left: &Left) -> bool {
    let (asked, status, out_text, err_text) = *left;
    let mut out = Vec::new(alloc);
    let mut err = Vec::new(alloc);
    let mut host = MemoryHost {
        files: MemoryFiles::new(alloc, ""),
        out: Some(&mut out),
        err: Some(&mut err),
        args: Some(args),
    };
    let is_status = answer(alloc, &mut host).status == status;
    let is_asked = host.files.asked.as_slice() == asked.as_bytes();
    drop(host);
    is_status
        && is_asked
        && out.as_slice() == out_text.as_bytes()
        && err.as_slice() == err_text.as_bytes()
}

/// That a process leaves this.
fn judge(rt: &impl Abort, alloc: Global, args: Result<Args, ErrorKind>, left: &Left) {
    same(rt, &leaves(alloc, args, left), &true, &left.0);
}

const CHECKED: Left = (
    "<out>;<err>;<words>;p.ctd;right.in;",
    0,
    "testdata ok!\n",
    "",
);

const NO_WORDS: Left = ("<out>;<err>;<words>;", 2, "", BAD_ARGUMENTS);

const NO_MEMORY: Left = (
    "<out>;<err>;<words>;",
    2,
    "",
    "checktestdata: out of memory\n",
);

#[test]
fn a_process_asks_once_for_each_thing(rt: HostRuntime) -> Result<(), Fail> {
    let args = args_of(rt.alloc(), &["checktestdata", "p.ctd", "right.in"])?;
    judge(&rt, rt.alloc(), Ok(args), &CHECKED);
    Ok(())
}

#[test]
fn a_process_without_words_opens_no_file(rt: HostRuntime) {
    judge(&rt, rt.alloc(), Err(ErrorKind::Other), &NO_WORDS);
    judge(&rt, rt.alloc(), Err(ErrorKind::OutOfMemory), &NO_MEMORY);
}
