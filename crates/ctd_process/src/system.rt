//! The system as a host. Its methods call std and do little else; that each does what its name says is believed.

use crate::host::{Files, Host};
use std::env::{self, Args};
use std::fs::File;
use std::io::{self, ErrorKind, Read, Stderr, Stdin, Stdout};
use std::os::fd::{AsRawFd, IntoRawFd};
use std::str::from_utf8;

/// The number of the last standard stream.
const LAST_STREAM: i32 = 2;

/// A file of the system, or standard input.
#[derive(Drop)]
pub enum SystemFile {
    Named(File),
    Input(Stdin),
}

impl Read for SystemFile {
    fn read(&mut self, buf: &mut [u8]) -> io::Result<usize> {
        match self {
            SystemFile::Named(file) => file.read(buf),
            SystemFile::Input(input) => input.read(buf),
        }
    }
}

/// The system. No file that it opens stands for a standard stream.
#[derive(Drop)]
pub struct System<'r> {
    rt: &'r HostRuntime,
}

impl<'r> System<'r> {
    /// The system of a process. For each standard stream that is closed it opens the folder `/` until the process ends, since the next file
    /// that is opened would get the number of that stream: no read and no write of a folder succeeds.
    pub fn new(rt: &'r HostRuntime) -> Self {
        for _stream in 0..=LAST_STREAM {
            match File::open(rt, "/") {
                Ok(folder) if folder.as_raw_fd() <= LAST_STREAM => {
                    let _held = folder.into_raw_fd();
                }
                _ => break,
            }
        }
        System { rt }
    }
}

impl Files for System<'_> {
    ghost use Rattle.std.specs.Prelude.{⊤};

    type File = SystemFile;

    // The contracts of std tell nothing of the system.
    ghost opens = { λ _ _ _ _. ⊤ };

    ghost takes_input = { λ _ _ _. ⊤ };

    fn open(&mut self, name: &[u8]) -> Option<SystemFile> {
        let file = File::open(self.rt, from_utf8(name).ok()?).ok()?;
        // where `/` could not be opened
        if file.as_raw_fd() <= LAST_STREAM {
            return None;
        }
        Some(SystemFile::Named(file))
    }

    fn input(&mut self) -> SystemFile {
        SystemFile::Input(self.rt.stdin())
    }
}

impl Host for System<'_> {
    ghost use Rattle.std.specs.Prelude.{⊤};

    type Out = Stdout;

    type Err = Stderr;

    ghost gives_out = { λ _ _ _. ⊤ };

    ghost gives_err = { λ _ _ _. ⊤ };

    ghost gives_args = { λ _ _ _. ⊤ };

    fn out(&mut self) -> Stdout {
        self.rt.stdout()
    }

    fn err(&mut self) -> Stderr {
        self.rt.stderr()
    }

    fn args(&mut self) -> Result<Args, ErrorKind> {
        env::args(self.rt).map_err(|error| error.kind())
    }
}
