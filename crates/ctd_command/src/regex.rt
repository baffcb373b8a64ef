//! REGEX: a match of its pattern at the start of the window.
ghost use Rattle.std.specs.Prelude.{◌≡◌, ◌≤◌, length, Some, IfOk};
ghost use Rattle.ctd_source.specs.calls.SourceReads.{state_of};
ghost use Rattle.ctd_program.specs.calls.View.{target, var_tree};
ghost use Rattle.ctd_command.specs.inner.Regex.{match_len};
ghost use Rattle.ctd_command.specs.Regex.{regex, shorter_match};
ghost use Rattle.ctd_command.specs.calls.Performs.{IsSound, Performs};
ghost use Rattle.ctd_command.specs.inner.Performs.{AlwaysDoes};

use crate::failure::CommandFailure;
use crate::machine::Run;
use ctd_outcome::{Fault, Reason};
use ctd_pattern::{Matcher, Pattern};
use ctd_program::{RegexArguments, Var};
use ctd_source::{Source, WINDOW};
use ctd_value::set_text;
use std::alloc::AllocError;

/// The length of a match, unless it fills the window.
fn shorter_match(length: Option<usize>) -> Result<usize, CommandFailure>
    ensures does { AlwaysDoes result (shorter_match length) }
    ensures same { IfOk result (λ n. length ≡ Some n) }
{
    match length {
        Some(n) if n == WINDOW => Err(CommandFailure::stopped(Fault::MatchTooLong)),
        Some(n) => Ok(n),
        None => Err(CommandFailure::rejected(Reason::RegexMismatch)),
    }
}

impl<'d, D: Source> Run<'d, D> {
    /// REGEX: passes the match at the start of the window, and keeps it in its variable, if there is one. Where none starts there, it is
    /// RegexMismatch, and a match of the whole window is MatchTooLong; both pass nothing.
    ///
    /// The matcher at the number of the command is taken if it is of the literal of the command. Else the pattern is built.
    #[inline(always)]
    pub fn regex(
        &mut self,
        arguments: &RegexArguments,
        matchers: &mut [Matcher<'_>],
    ) -> Result<(), CommandFailure>
        requires sound { IsSound self.old }
        ensures performs { Performs self.old self.new result (regex arguments.now.literal.bytes (target arguments.now.target)) }
    {
        let literal = arguments.literal.bytes.as_slice();
        match matchers.get_mut(arguments.number as usize) {
            Some(matcher) => self.pass_match_of(literal, matcher, &arguments.target),
            None => self.pass_match_anew(literal, &arguments.target),
        }
    }

    /// Passes the match of the pattern of a literal, by a matcher that may be that of another one.
    #[inline(never)]
    fn pass_match_of(
        &mut self,
        literal: &[u8],
        matcher: &mut Matcher<'_>,
        var: &Option<Var>,
    ) -> Result<(), CommandFailure>
        requires sound { IsSound self.old }
        ensures performs { Performs self.old self.new result (regex literal.now (target var.now)) }
    {
        if matcher.is_of(literal) {
            self.pass_match(matcher, var)
        } else {
            self.pass_match_anew(literal, var)
        }
    }

    /// Passes the match of a pattern that is built for it. Where none is built, memory ran out: one was built when the program was loaded.
    #[inline(never)]
    fn pass_match_anew(&mut self, literal: &[u8], var: &Option<Var>) -> Result<(), CommandFailure>
        requires sound { IsSound self.old }
        ensures performs { Performs self.old self.new result (regex literal.now (target var.now)) }
    {
        let Ok(pattern) = Pattern::read(self.alloc, literal) else {
            return Err(CommandFailure::from(AllocError));
        };
        let mut matcher = pattern.matcher(self.alloc)?;
        self.pass_match(&mut matcher, var)
    }

    /// Passes the match of a matcher, and keeps it in a variable, if there is one.
    #[inline(always)]
    fn pass_match(
        &mut self,
        matcher: &mut Matcher<'_>,
        var: &Option<Var>,
    ) -> Result<(), CommandFailure>
        requires sound { IsSound self.old }
        ensures performs { Performs self.old self.new result (regex matcher.old (target var.now)) }
    {
        match var {
            Some(v) => self.keep_match(v, matcher),
            None => {
                let n = self.match_len(matcher)?;
                self.pass_many(n);
                Ok(())
            }
        }
    }

    /// Passes the match at the start of the window and keeps it in a variable. It is copied from where it stands, so it is passed
    /// behind that; a fault of the variable comes after both.
    #[inline(always)]
    fn keep_match(&mut self, v: &Var, matcher: &mut Matcher<'_>) -> Result<(), CommandFailure>
        requires sound { IsSound self.old }
        ensures performs { Performs self.old self.new result (regex matcher.old (Some (var_tree v.now))) }
    {
        let window = self.cursor.window()?;
        let n = shorter_match(matcher.match_length(window))?;
        let set = set_text(self.alloc, v, &window[..n], &mut self.store);
        self.cursor.take_many(n);
        set?;
        Ok(())
    }

    /// How many bytes a pattern matches at the start of the window.
    #[inline(always)]
    fn match_len(&mut self, matcher: &mut Matcher<'_>) -> Result<usize, CommandFailure>
        requires sound { IsSound self.old }
        ensures performs { Performs self.old self.new result (match_len matcher.old) }
        ensures held { IfOk result (λ n. n ≤ length (state_of self.new.cursor).held) }
    {
        let window = self.cursor.window()?;
        shorter_match(matcher.match_length(window))
    }
}
