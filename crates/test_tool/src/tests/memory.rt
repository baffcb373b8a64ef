//! A reader and a writer in memory that stop, and what was written.

use ctd_tool::ToolFault;
use std::alloc::Global;
use std::io::{Error, ErrorKind, Read, Result, Write};

/// A file in memory, which may fail once after its bytes and has none from then on.
#[derive(Drop)]
pub(crate) struct MemoryFile<'m> {
    pub(crate) bytes: &'m [u8],
    pub(crate) fails: bool,
}

impl Read for MemoryFile<'_> {
    fn read(&mut self, buf: &mut [u8]) -> Result<usize> {
        if self.bytes.is_empty() && self.fails {
            self.fails = false;
            return Err(Error::from(ErrorKind::Interrupted));
        }
        self.bytes.read(buf)
    }
}

/// How a writer refuses bytes.
#[derive(Clone, Copy, PartialEq, Eq)]
pub(crate) enum Refusal {
    /// It answers an error.
    Fails,
    /// It takes no bytes.
    TakesNone,
    /// It answers an error, and each flush of it too.
    NeverFlushed,
}

/// How many bytes a writer takes in all, and how it refuses what is more.
pub(crate) type Room = (usize, Refusal);

/// Room for each text of these tests.
pub(crate) const AMPLE: Room = (1000, Refusal::Fails);

/// Takes at most three bytes at a time and `room` of them in all, and refuses what is more.
#[derive(Drop)]
pub(crate) struct Clipped {
    pub(crate) bytes: Vec<u8>,
    pub(crate) room: usize,
    pub(crate) refusal: Refusal,
}

impl Clipped {
    /// A writer that has taken nothing.
    pub(crate) fn new(alloc: Global, room: Room) -> Clipped {
        Clipped {
            bytes: Vec::new(alloc),
            room: room.0,
            refusal: room.1,
        }
    }
}

impl Write for Clipped {
    fn write(&mut self, buf: &[u8]) -> Result<usize> {
        let count = self.room.min(buf.len()).min(3);
        if count == 0 && self.refusal != Refusal::TakesNone {
            return Err(Error::from(ErrorKind::Other));
        }
        self.bytes.extend_from_slice(&buf[..count])?;
        self.room -= count;
        Ok(count)
    }

    fn flush(&mut self) -> Result<()> {
        if self.refusal == Refusal::NeverFlushed {
            return Err(Error::from(ErrorKind::Other));
        }
        Ok(())
    }
}

/// What was written to each stream, and what was answered.
pub(crate) struct Written {
    pub(crate) answer: std::result::Result<u8, ToolFault>,
    pub(crate) out: Vec<u8>,
    pub(crate) err: Vec<u8>,
}

impl Drop for Written {
    fn drop(self) {
        let Written {
            answer: _,
            out: _,
            err: _,
        } = self;
    }
}

impl Written {
    /// Whether the run ran out of memory and wrote nothing.
    pub(crate) fn is_without_memory(&self) -> bool {
        self.answer == Err(ToolFault::Memory) && self.out.is_empty() && self.err.is_empty()
    }

    /// Whether this was answered and these bytes were written.
    pub(crate) fn is(
        self,
        answer: std::result::Result<u8, ToolFault>,
        out: &[u8],
        err: &[u8],
    ) -> bool {
        self.answer == answer && self.out.as_slice() == out && self.err.as_slice() == err
    }
}
