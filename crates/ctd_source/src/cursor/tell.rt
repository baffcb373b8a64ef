//! What can be asked of a cursor without a read.
ghost use Rattle.std.specs.Prelude.{◌≡◌, ◌+◌, ◌<◌, ◌≤◌, length, take};
ghost use Rattle.ctd_source.specs.declared.limits.TheConstants.{WINDOW};

use crate::cursor::Cursor;
use crate::source::{Seen, Source};
use crate::spot::Spot;

impl<'d, R: Source> Cursor<'d, R> {
    ghost use Rattle.ctd_source.specs.calls.SourceReads.{state_of, source as source_now};

    /// The first of the bytes that are held, as many as lie in one piece and before the limit: these may be looked at
    /// one after the other with no read. There are some, where any is held and the next one lies before the limit.
    #[inline]
    pub fn held_run(&self) -> &[u8]
        ensures front { take (length result.now) (state_of self.now).held ≡ result.now }
        ensures held { length result.now ≤ length (state_of self.now).held }
        ensures within { 0 < length result.now → (state_of self.now).spot.offset + length result.now ≤ (state_of self.now).limit }
        ensures some { 0 < length (state_of self.now).held → (state_of self.now).spot.offset < (state_of self.now).limit → 0 < length result.now }
    {
        if self.spot.offset() < self.clear_to {
            self.window.run()
        } else {
            self.run_before_limit()
        }
    }

    /// The first held bytes up to the limit, where some of the held bytes may pass it.
    #[cold]
    #[inline(never)]
    fn run_before_limit(&self) -> &[u8]
        ensures front { take (length result.now) (state_of self.now).held ≡ result.now }
        ensures held { length result.now ≤ length (state_of self.now).held }
        ensures within { 0 < length result.now → (state_of self.now).spot.offset + length result.now ≤ (state_of self.now).limit }
        ensures some { 0 < length (state_of self.now).held → (state_of self.now).spot.offset < (state_of self.now).limit → 0 < length result.now }
    {
        let run = self.window.run();
        let before_limit = self.limit.saturating_sub(self.spot.offset());
        match usize::try_from(before_limit) {
            Ok(most) if most < run.len() => &run[..most],
            _ => run,
        }
    }

    /// How many bytes are held: those that were taken and not yet passed.
    pub fn held(&self) -> usize
        ensures held { result ≡ length (state_of self.now).held }
        ensures counted { (state_of self.now).taken ≡ (state_of self.now).spot.offset + result }
        ensures within { result ≤ WINDOW }
    {
        self.window.len()
    }

    /// How many bytes were taken from the source since the start.
    pub fn taken(&self) -> u64
        ensures taken { result ≡ (state_of self.now).taken }
        ensures within { result ≤ (state_of self.now).limit + 1 }
    {
        self.taken
    }

    /// The spot of the next byte: line and column from 1, the column in bytes.
    #[inline(always)]
    pub fn spot(&self) -> Spot
        ensures { result ≡ (state_of self.now).spot }
    {
        self.spot.spot()
    }

    /// What was seen of the source's end.
    pub fn seen(&self) -> Seen
        ensures seen { result ≡ (state_of self.now).seen }
        ensures source { result ≡ R.seen (source_now self.now) }
    {
        self.intake.seen
    }
}
