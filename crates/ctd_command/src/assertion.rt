//! ASSERT.

ghost use Rattle.ctd_program.specs.calls.View.{test_tree};
ghost use Rattle.ctd_command.specs.Commands.{assert};
ghost use Rattle.ctd_command.specs.calls.Performs.{IsSound, Performs};

use crate::failure::CommandFailure;
use crate::machine::Run;
use ctd_outcome::Reason;
use ctd_program::Test;
use ctd_source::Source;

impl<'d, D: Source> Run<'d, D> {
    /// ASSERT: a test that is false rejects the data.
    #[inline(always)]
    pub fn assert(&mut self, t: &Test) -> Result<(), CommandFailure>
        requires sound { IsSound self.old }
        ensures performs { Performs self.old self.new result (assert (test_tree t.now)) }
    {
        match self.fast_answer(t) {
            Some(true) => Ok(()),
            _ => self.any_assert(t),
        }
    }

    /// ASSERT of any test. Out of line: keeps the caller small, which answers most tests itself.
    #[inline(never)]
    fn any_assert(&mut self, t: &Test) -> Result<(), CommandFailure>
        requires sound { IsSound self.old }
        ensures performs { Performs self.old self.new result (assert (test_tree t.now)) }
    {
        if !self.any_answer(t)? {
            return Err(CommandFailure::rejected(Reason::AssertFailed));
        }
        Ok(())
    }
}
