//! Blanks, which whitespace mode skips.
ghost use Rattle.std.specs.Prelude.{◌≡◌, ◌<◌, true, false, OnOk, None, Ok};
ghost use Rattle.std.specs.List.{prefix_len};
ghost use Rattle.ctd_source.specs.calls.SourceReads.{state_of};
ghost use Rattle.ctd_source.specs.calls.Received.{AdvancesSuchThat};
ghost use Rattle.ctd_command.specs.Blanks.{is_blank, skip_blanks, some_blanks, first_skip};
ghost use Rattle.ctd_command.specs.inner.Passing.{PassesBlanks};
ghost use Rattle.ctd_command.specs.calls.Performs.{IsSound, Performs};

use crate::failure::CommandFailure;
use crate::machine::Run;
use ctd_outcome::Reason;
use ctd_program::Mode;
use ctd_source::{Cursor, LookFault, Source};

/// Whether a byte is a blank.
fn is_blank(byte: u8) -> bool
    ensures { result ≡ is_blank byte }
{
    byte == b' ' || byte == b'\t' || byte == 0x0B || byte == 0x0C || byte == b'\r'
}

/// How many blanks come first.
fn blank_len(bytes: &[u8]) -> usize
    ensures { result ≡ prefix_len is_blank bytes.now }
{
    let mut count = 0;
    while count < bytes.len() && is_blank(bytes[count]) {
        count += 1;
    }
    count
}

/// Passes the blanks that come next, a run of held bytes at a time.
fn pass_blanks<D: Source>(cursor: &mut Cursor<'_, D>) -> Result<(), LookFault>
    requires sound { (state_of cursor.old).fault ≡ None }
    ensures sound { OnOk result ((state_of cursor.new).fault ≡ None) }
    ensures passes { AdvancesSuchThat cursor.old cursor.new (λ d. PassesBlanks d (state_of cursor.old).spot.offset (state_of cursor.new).spot.offset result) }
{
    loop {
        match cursor.look() {
            Ok(Some(byte)) => {
                if !is_blank(byte) {
                    return Ok(());
                }
                let count = blank_len(cursor.held_run());
                cursor.take_in_line(count);
            }
            Ok(None) => return Ok(()),
            Err(fault) => return Err(fault),
        }
    }
}

impl<'d, D: Source> Run<'d, D> {
    /// Passes the blanks that come next.
    pub(crate) fn skip_blanks(&mut self) -> Result<(), CommandFailure>
        requires sound { IsSound self.old }
        ensures performs { Performs self.old self.new result skip_blanks }
    {
        if self.held_blanks(0) {
            Ok(())
        } else {
            self.any_blanks()
        }
    }

    /// Passes the blanks that come next, where they are at least `least` and another byte is held after them. Whether it did; if not, it
    /// left all as it is, and the general path decides.
    #[inline(always)]
    fn held_blanks(&mut self, least: usize) -> bool
        requires sound { IsSound self.old }
        ensures skips { result ≡ true → Performs self.old self.new (Ok tt) skip_blanks }
        ensures some { result ≡ true → 0 < least → Performs self.old self.new (Ok tt) some_blanks }
        ensures stays { result ≡ false → self.new ≡ self.old }
    {
        let run = self.cursor.held_run();
        let count = blank_len(run);
        if count < least || count == run.len() {
            return false;
        }
        self.cursor.take_in_line(count);
        true
    }

    /// Passes one or more blanks.
    #[inline(never)]
    pub(crate) fn some_blanks(&mut self) -> Result<(), CommandFailure>
        requires sound { IsSound self.old }
        ensures performs { Performs self.old self.new result some_blanks }
    {
        if self.held_blanks(1) {
            Ok(())
        } else {
            self.blank_and_more()
        }
    }

    /// Passes the blanks that come next, however they are held.
    #[inline(never)]
    fn any_blanks(&mut self) -> Result<(), CommandFailure>
        requires sound { IsSound self.old }
        ensures performs { Performs self.old self.new result skip_blanks }
    {
        pass_blanks(&mut self.cursor)?;
        Ok(())
    }

    /// Passes a blank and those that come next, however they are held.
    #[inline(never)]
    fn blank_and_more(&mut self) -> Result<(), CommandFailure>
        requires sound { IsSound self.old }
        ensures performs { Performs self.old self.new result some_blanks }
    {
        match self.next()? {
            Some(byte) => {
                if !is_blank(byte) {
                    return Err(CommandFailure::rejected(Reason::ExpectedSpace));
                }
                self.any_blanks()
            }
            None => Err(CommandFailure::rejected(Reason::ExpectedSpace)),
        }
    }

    /// What is done before the first command: under `BlanksOk` the blanks at the start of the data are passed.
    pub fn first_skip(&mut self) -> Result<(), CommandFailure>
        requires sound { IsSound self.old }
        ensures performs { Performs self.old self.new result first_skip }
    {
        match self.mode {
            Mode::Exact => Ok(()),
            Mode::BlanksOk => self.skip_blanks(),
        }
    }
}
