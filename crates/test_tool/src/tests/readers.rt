//! Readers that give little at once, that fail and that never end.

use std::io::{Error, ErrorKind, Read, Result};

/// What comes behind the bytes of a reader.
#[derive(Clone, Copy, Debug)]
pub(crate) enum Behind {
    /// The end.
    End,
    /// A failure, as often as it is read.
    Failure,
    /// Ones without end.
    Ones,
    /// Spaces without end.
    Spaces,
}

/// A reader of some bytes, of which it gives at most `most` at once.
#[derive(Drop)]
pub(crate) struct Held<'d> {
    pub(crate) bytes: &'d [u8],
    pub(crate) most: usize,
    pub(crate) behind: Behind,
}

impl Read for Held<'_> {
    fn read(&mut self, buf: &mut [u8]) -> Result<usize> {
        let most = self.most.min(buf.len());
        match self.behind {
            Behind::Failure if self.bytes.is_empty() => Err(Error::from(ErrorKind::Other)),
            Behind::Ones if self.bytes.is_empty() => {
                buf.fill(b'1');
                Ok(buf.len())
            }
            Behind::Spaces if self.bytes.is_empty() => {
                buf.fill(b' ');
                Ok(buf.len())
            }
            _ => self.bytes.read(&mut buf[..most]),
        }
    }
}
