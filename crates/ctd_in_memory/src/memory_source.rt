//! Bytes in memory as a source.

ghost use Rattle.std.specs.Prelude.{◌≡◌, min, length, take};

use ctd_check::{Failed, Source};

/// Reads bytes in memory. No read of it fails.
#[derive(Drop)]
pub(crate) struct MemorySource<'m> {
    bytes: &'m [u8],
    at: usize,
    is_at_end: bool,
}

impl<'m> MemorySource<'m> {
    ghost use Rattle.ctd_in_memory.specs.inner.MemorySource.{HoldsBytes};

    /// A source that has these bytes left to give.
    pub(crate) fn new(bytes: &'m [u8]) -> Self
        ensures { HoldsBytes ⟦<MemorySource<'m> as Source>⟧ bytes.now result }
    {
        MemorySource {
            bytes,
            at: 0,
            is_at_end: false,
        }
    }
}

impl Source for MemorySource<'_> {
    ghost use Rattle.std.specs.Prelude.{Some, drop, if◌then◌else◌};
    ghost use Rattle.ctd_source.specs.declared.source.Seen.TheVariants.{Going, Ended};

    ghost given = { λ s. s.at };

    ghost left = { λ s. Some (drop s.at s.bytes.now) };

    ghost seen = { λ s. if s.is_at_end then Ended else Going };

    fn pull(&mut self, buf: &mut [u8]) -> Result<usize, Failed> {
        if self.at >= self.bytes.len() {
            self.is_at_end = true;
        }
        if self.is_at_end {
            return Ok(0);
        }
        let count = copy_front(&self.bytes[self.at..], buf);
        self.at += count;
        Ok(count)
    }
}

/// Copies bytes from one slice to the front of the other, as many as both have room for, and returns how many.
fn copy_front(from: &[u8], to: &mut [u8]) -> usize
    ensures count { result ≡ min (length from.now) (length to.old) }
    ensures front { take result to.new ≡ take result from.now }
{
    let count = from.len().min(to.len());
    to[..count].copy_from_slice(&from[..count]);
    count
}
