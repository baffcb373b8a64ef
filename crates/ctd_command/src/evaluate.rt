//! Expressions, variables and tests, as the commands of a run use them.
ghost use Rattle.std.specs.Prelude.{Ok, IfSome};
ghost use Rattle.ctd_program.specs.calls.View.{expr_tree, var_tree, test_tree, target};
ghost use Rattle.ctd_store.specs.declared.value.Value.TheVariants as values;
ghost use Rattle.ctd_value.specs.Val.{count, number_of};
ghost use Rattle.ctd_command.specs.State.{evaluate};
ghost use Rattle.ctd_command.specs.Commands.{set_to, keep, answer};
ghost use Rattle.ctd_command.specs.calls.Performs.{IsSound, Performs};

use crate::failure::CommandFailure;
use crate::machine::Run;
use ctd_program::{Expr, Test, Var};
use ctd_source::Source;
use ctd_value::{
    count_of, fast_number, fast_test, holds, literal_number, number_of, set_number, test_at_byte,
};

impl<'d, D: Source> Run<'d, D> {
    /// The value of an expression that has to be a number.
    #[inline(never)]
    pub(crate) fn number(&self, e: &Expr) -> Result<i128, CommandFailure>
        requires sound { IsSound self.now }
        ensures performs { Performs self.now self.now result (evaluate (number_of (expr_tree e.now))) }
    {
        Ok(number_of(self.alloc, e, &self.store)?)
    }

    /// The fast path of `number`; `None` means: take the general path.
    #[inline(always)]
    pub(crate) fn fast_number(&self, e: &Expr) -> Option<i64>
        requires sound { IsSound self.now }
        ensures performs { IfSome result (λ n. Performs self.now self.now (Ok n) (evaluate (number_of (expr_tree e.now)))) }
    {
        fast_number(e, &self.store)
    }

    /// The number of a literal, behind a minus or none; `None` means: take another path of `number`.
    #[inline(always)]
    pub(crate) fn literal_number(&self, e: &Expr) -> Option<i64>
        requires sound { IsSound self.now }
        ensures performs { IfSome result (λ n. Performs self.now self.now (Ok n) (evaluate (number_of (expr_tree e.now)))) }
    {
        literal_number(e)
    }

    /// How often a loop runs. A string is WrongType, and a number outside 0 .. 2^64 - 1 is Count.
    pub fn count(&self, e: &Expr) -> Result<u64, CommandFailure>
        requires sound { IsSound self.now }
        ensures performs { Performs self.now self.now result (evaluate (count (expr_tree e.now))) }
    {
        Ok(count_of(self.alloc, e, &self.store)?)
    }

    /// Gives a variable a number, once its indices are evaluated.
    #[inline(always)]
    pub fn set_to_number(&mut self, v: &Var, n: i128) -> Result<(), CommandFailure>
        requires sound { IsSound self.old }
        ensures performs { Performs self.old self.new result (set_to (var_tree v.now) (values.Int n)) }
    {
        set_number(self.alloc, v, n, &mut self.store)?;
        Ok(())
    }

    /// Gives a target, where there is one, an integer.
    #[inline(always)]
    pub(crate) fn keep(&mut self, v: &Option<Var>, n: i128) -> Result<(), CommandFailure>
        requires sound { IsSound self.old }
        ensures performs { Performs self.old self.new result (keep (target v.now) (values.Int n)) }
    {
        match v {
            Some(v) => {
                self.set_to_number(v, n)?;
                Ok(())
            }
            None => Ok(()),
        }
    }

    /// Whether a test is true. It looks at the next byte only where its evaluation reaches ISEOF or the byte of a MATCH, and passes none.
    #[inline(always)]
    pub fn answer(&mut self, t: &Test) -> Result<bool, CommandFailure>
        requires sound { IsSound self.old }
        ensures performs { Performs self.old self.new result (answer (test_tree t.now)) }
    {
        match self.fast_answer(t) {
            Some(answer) => Ok(answer),
            None => {
                let answer = self.any_answer(t)?;
                Ok(answer)
            }
        }
    }

    /// The fast path of `answer`, from the variables alone; `None` means: take the general path.
    #[inline(always)]
    pub(crate) fn fast_answer(&self, t: &Test) -> Option<bool>
        requires sound { IsSound self.now }
        ensures performs { IfSome result (λ truth. Performs self.now self.now (Ok truth) (answer (test_tree t.now))) }
    {
        fast_test(t, &self.store)
    }

    /// Whether any test is true, which may ask for the next byte.
    #[inline(never)]
    pub(crate) fn any_answer(&mut self, t: &Test) -> Result<bool, CommandFailure>
        requires sound { IsSound self.old }
        ensures performs { Performs self.old self.new result (answer (test_tree t.now)) }
    {
        match self.buffered_answer(t) {
            Some(answer) => Ok(answer),
            None => self.answer_by_parts(t),
        }
    }

    /// The fast path of `any_answer`, where the next byte is held and decides; `None` means: take the general path.
    #[inline(always)]
    fn buffered_answer(&self, t: &Test) -> Option<bool>
        requires sound { IsSound self.now }
        ensures performs { IfSome result (λ truth. Performs self.now self.now (Ok truth) (answer (test_tree t.now))) }
    {
        let byte = self.cursor.held_run().first()?;
        test_at_byte(*byte, t)
    }

    /// Whether any test is true, by its parts. Out of line: keeps the callers small, which answer most tests themselves.
    #[inline(never)]
    fn answer_by_parts(&mut self, t: &Test) -> Result<bool, CommandFailure>
        requires sound { IsSound self.old }
        ensures performs { Performs self.old self.new result (answer (test_tree t.now)) }
    {
        match holds(self.alloc, t, &self.store, &mut self.cursor) {
            Ok(answer) => Ok(answer),
            Err(fault) => Err(CommandFailure::from(fault)),
        }
    }
}
