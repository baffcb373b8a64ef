//! The host of a process: who gives it its streams, its words and its files.

ghost use Rattle.std.specs.Prelude.{ℕ, List, Option};
ghost use Rattle.ctd_process.specs.Words.{Args};

use ctd_report::Writer;
use std::env::Args;
use std::io::{ErrorKind, Read};

/// Opens files. Code that is generic over it can show which files it opened, and in which order.
pub trait Files {
    /// A file or standard input.
    type File: Read + Drop;

    // What opening a file does: the files before, its name, the answer, and the files after.
    ghost opens: { Self → List ℕ → Option Self.File → Self → Type 0 };

    // What taking standard input does.
    ghost takes_input: { Self → Self.File → Self → Type 0 };

    /// The file of this name, or none where it can't be opened.
    fn open(&mut self, name: &[u8]) -> Option<Self::File>
        ensures { opens self.old name.now result self.new };

    /// Standard input.
    fn input(&mut self) -> Self::File
        ensures { takes_input self.old result self.new };
}

/// All that a process asks of the system. Code that is generic over it can show what it asked for, and in which order.
pub trait Host: Files {
    /// Standard output.
    type Out: Writer + Drop;

    /// Standard error.
    type Err: Writer + Drop;

    // What asking for standard output does: the host before, the stream, and the host after.
    ghost gives_out: { Self → Self.Out → Self → Type 0 };

    // What asking for standard error does.
    ghost gives_err: { Self → Self.Err → Self → Type 0 };

    // What asking for the words does.
    ghost gives_args: { Self → Args → Self → Type 0 };

    /// Standard output.
    fn out(&mut self) -> Self::Out
        ensures { gives_out self.old result self.new };

    /// Standard error.
    fn err(&mut self) -> Self::Err
        ensures { gives_err self.old result self.new };

    /// The words of the command line, the program's own name first, or why there are none.
    fn args(&mut self) -> Result<Args, ErrorKind>
        ensures { gives_args self.old result self.new };
}
