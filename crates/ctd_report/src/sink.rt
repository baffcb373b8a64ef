//! What takes bytes, until it fails.

ghost use Rattle.std.specs.Prelude.{◌≡◌, ◌<◌, ◌≤◌, ℕ, Bool, List, Option, Result, true, false, length, is_err, IfOk, IsErr, ⊤};
ghost use Rattle.std.specs.Io.KnownBytes.{Keeps, WriteAppends};

use ctd_source::Failed;
use std::io::Write;

/// Takes bytes until it fails; a failure is final.
pub trait Sink {
    ghost use Rattle.ctd_source.specs.declared.source.Failed.{Failed};

    // The bytes that it took, where it can tell.
    ghost taken: { Self → Option (List ℕ) };

    ghost has_failed: { Self → Bool };

    // What a put does: the sink before, the bytes, the answer, and the sink after.
    ghost puts: { Self → List ℕ → Result ℕ Failed → Self → Type 0 };

    // What a flush does: the sink before, the answer, and the sink after.
    ghost flushes: { Self → Result (Unit {0}) Failed → Self → Type 0 };

    /// Takes the first of the bytes, at least one, and tells how many; or fails and takes none.
    fn put(&mut self, bytes: &[u8]) -> Result<usize, Failed>
        requires { 0 < length bytes.now }
        ensures count { IfOk result (λ n. (0 < n) × (n ≤ length bytes.now)) }
        ensures first { WriteAppends (taken self.old) (taken self.new) result bytes.now }
        ensures one { has_failed self.old ≡ false → puts self.old bytes.now result self.new }
        ensures failed { has_failed self.new ≡ is_err result }
        ensures stays { has_failed self.old ≡ true → IsErr result };

    /// Sees to it that what was taken arrives; takes no bytes.
    fn flush(&mut self) -> Result<(), Failed>
        ensures none { Keeps (taken self.old) (taken self.new) }
        ensures one { has_failed self.old ≡ false → flushes self.old result self.new }
        ensures failed { has_failed self.new ≡ is_err result }
        ensures stays { has_failed self.old ≡ true → IsErr result };
}

/// Writes bytes. Code that is generic over it can show by `writes` and `flushes` that it wrote or flushed just once, or not
/// at all.
pub trait Writer {
    ghost use Rattle.ctd_source.specs.declared.source.Failed.{Failed};

    // The bytes that it holds, where they are known.
    ghost contents: { Self → Option (List ℕ) };

    // What one write does: the writer before, the bytes, the answer, and the writer after.
    ghost writes: { Self → List ℕ → Result ℕ Failed → Self → Type 0 };

    // What one flush does: the writer before, the answer, and the writer after.
    ghost flushes: { Self → Result (Unit {0}) Failed → Self → Type 0 };

    /// Writes the first of the bytes and tells how many.
    fn write_once(&mut self, bytes: &[u8]) -> Result<usize, Failed>
        ensures bound { IfOk result (λ n. n ≤ length bytes.now) }
        ensures first { WriteAppends (contents self.old) (contents self.new) result bytes.now }
        ensures one { writes self.old bytes.now result self.new };

    /// Flushes what was written.
    fn flush_once(&mut self) -> Result<(), Failed>
        ensures none { Keeps (contents self.old) (contents self.new) }
        ensures one { flushes self.old result self.new };
}

impl<W: Write> Writer for W {
    ghost contents = { W.contents };

    // Of a writer of std no more is known than its bytes.
    ghost writes = { λ _ _ _ _. ⊤ };

    ghost flushes = { λ _ _ _. ⊤ };

    fn write_once(&mut self, bytes: &[u8]) -> Result<usize, Failed> {
        self.write(bytes).map_err(|_| Failed)
    }

    fn flush_once(&mut self) -> Result<(), Failed> {
        self.flush().map_err(|_| Failed)
    }
}

/// A writer of std as a sink. It fails where its writer answers an error, an interrupted write included,
/// or takes no bytes.
#[derive(Drop)]
pub struct ToWrite<W> {
    writer: W,
    has_failed: bool,
}

impl<W: Writer> ToWrite<W> {
    ghost use Rattle.ctd_report.specs.Writer.{new_sink};

    /// A sink that has not failed.
    pub fn new(writer: W) -> Self
        ensures { result ≡ new_sink writer }
    {
        ToWrite {
            writer,
            has_failed: false,
        }
    }
}

impl<W: Writer> Sink for ToWrite<W> {
    ghost use Rattle.ctd_report.specs.Writer.{WritesOnce};

    ghost taken = { λ s. W.contents s.writer };

    ghost has_failed = { λ s. s.has_failed };

    // the writer is asked just once
    ghost puts = { λ old bytes result new. WritesOnce W.writes old.writer bytes result new.writer };

    ghost flushes = { λ old result new. W.flushes old.writer result new.writer };

    fn put(&mut self, bytes: &[u8]) -> Result<usize, Failed>
        requires { 0 < length bytes.now }
        ensures count { IfOk result (λ n. (0 < n) × (n ≤ length bytes.now)) }
        ensures first { WriteAppends (W.contents self.old.writer) (W.contents self.new.writer) result bytes.now }
        ensures failed { self.new.has_failed ≡ is_err result }
        ensures stays { self.old.has_failed ≡ true → IsErr result }
        // after a failure the writer is never asked again
        ensures one { self.old.has_failed ≡ false → WritesOnce W.writes self.old.writer bytes.now result self.new.writer }
        ensures idle { self.old.has_failed ≡ true → self.new ≡ self.old }
    {
        if self.has_failed {
            return Err(Failed);
        }
        match self.writer.write_once(bytes) {
            Ok(count) if count > 0 => Ok(count),
            _ => {
                self.has_failed = true;
                Err(Failed)
            }
        }
    }

    fn flush(&mut self) -> Result<(), Failed>
        ensures none { Keeps (W.contents self.old.writer) (W.contents self.new.writer) }
        ensures failed { self.new.has_failed ≡ is_err result }
        ensures stays { self.old.has_failed ≡ true → IsErr result }
        // after a failure the writer is never flushed again
        ensures one { self.old.has_failed ≡ false → W.flushes self.old.writer result self.new.writer }
        ensures idle { self.old.has_failed ≡ true → self.new ≡ self.old }
    {
        if self.has_failed {
            return Err(Failed);
        }
        let result = self.writer.flush_once();
        self.has_failed = result.is_err();
        result
    }
}
