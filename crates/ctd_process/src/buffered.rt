//! A file behind a buffer, as a source.

ghost use Rattle.std.specs.Prelude.{IfOk};
ghost use Rattle.ctd_process.specs.Process.{StartsOn};

use ctd_source::{FromRead, Source};
use std::alloc::{AllocError, Global};
use std::io::{BufReader, Read};

/// The bytes of the buffer between a file and what reads it, so that small reads are no system calls; greater ones go past it.
const BUFFER: usize = 16_384;

/// A reader behind a buffer, as a source that has given nothing.
pub fn buffered_source<R: Read + Drop>(
    alloc: Global,
    reader: R,
) -> Result<FromRead<BufReader<R>>, AllocError>
    ensures starts { IfOk result (StartsOn R.remaining ⟦<FromRead<BufReader<R>> as Source>⟧ reader) }
{
    match BufReader::with_capacity(alloc, BUFFER, reader) {
        Ok(reader) => Ok(FromRead::new(reader)),
        Err(_) => Err(AllocError),
    }
}
