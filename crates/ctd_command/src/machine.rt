//! The state of a run: where the data are read, and the variables.
ghost use Rattle.std.specs.Prelude.{◌≡◌, ◌<◌, ◌≤◌, length, Ok, Err, IfOk, IfSome};
ghost use Rattle.ctd_source.specs.calls.SourceReads.{state_of, source as source_now, Borrows};
ghost use Rattle.ctd_command.specs.State.{see_next, pass};
ghost use Rattle.ctd_command.specs.calls.Performs.{IsSound, Performs};

use crate::failure::CommandFailure;
use ctd_program::Mode;
use ctd_source::{Cursor, Source};
use ctd_value::Store;
use std::alloc::Global;

/// The state of a run. Its commands are methods, each in the file of its kind (docs/LANGUAGE.md, commands).
#[derive(Drop)]
pub struct Run<'d, D: Source> {
    pub(crate) alloc: Global,
    /// Where the data are read, and how far they were passed.
    pub cursor: Cursor<'d, D>,
    /// The variables with their values.
    pub store: Store,
    /// How blanks are matched, which nothing changes.
    pub mode: Mode,
}

impl<'d, D: Source> Run<'d, D> {
    /// A run that goes on from this cursor, with these variables. It reads nothing.
    pub fn new(alloc: Global, cursor: Cursor<'d, D>, store: Store, mode: Mode) -> Run<'d, D>
        ensures cursor { result.cursor ≡ cursor.entry }
        ensures store { result.store ≡ store }
        ensures mode { result.mode ≡ mode }
    {
        Run {
            alloc,
            cursor,
            store,
            mode,
        }
    }

    /// The next byte, or none at the end.
    #[inline]
    pub(crate) fn next(&mut self) -> Result<Option<u8>, CommandFailure>
        requires sound { IsSound self.old }
        ensures performs { Performs self.old self.new result see_next }
        ensures held { IfOk result (λ next. IfSome next (λ _. 0 < length (state_of self.new.cursor).held)) }
    {
        match self.cursor.look() {
            Ok(next) => Ok(next),
            Err(fault) => Err(CommandFailure::from(fault)),
        }
    }

    /// Passes `n` held bytes.
    pub(crate) fn pass_many(&mut self, n: usize)
        requires sound { IsSound self.old }
        requires held { n ≤ length (state_of self.old.cursor).held }
        ensures performs { Performs self.old self.new (Ok tt) (pass n) }
    {
        self.cursor.take_many(n);
    }

    /// The source that it read, as it is now.
    pub fn into_source(self) -> &'d mut D
        ensures borrows { Borrows self.entry.cursor result }
        ensures source { result.now ≡ source_now self.entry.cursor }
    {
        let Run { cursor, .. } = self;
        cursor.into_source()
    }
}
