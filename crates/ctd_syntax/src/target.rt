//! From tokens to the variables that commands set (docs/LANGUAGE.md, grammar).
//! Where a reader fails, the trees that were read before it are given to `drop`.

ghost use Rattle.std.specs.Prelude.{◌≡◌, ◌≤◌, length, map, IfOk};
ghost use Rattle.ctd_syntax.specs.Lexeme;
ghost use Rattle.ctd_program.specs.calls.View.{assignment, assignments_of, target, var_tree};
ghost use Rattle.ctd_syntax.specs.Grammar.{IsTarget, IsTargetEnd, IsAssignments};
ghost use Rattle.ctd_syntax.specs.inner.Front.{FindsTree, Always, IsAssignment, IsBefore, lexeme};
ghost use Rattle.ctd_syntax.specs.inner.Levels.{binding, ends};

use crate::expression::{expr, variable};
use crate::front::{ParseError, ParseResult, Tokens, after_mark, read};
use ctd_program::{Assignment, Assignments, Var};
use ctd_token::Mark;
use std::alloc::Global;

/// The variable at the front and a mark behind it, and what follows the mark.
pub(crate) fn target_before<'t>(
    alloc: Global,
    mark: Mark,
    tokens: Tokens<'t>,
) -> ParseResult<'t, Var>
    requires ends { binding (Lexeme.mark mark) ≡ 0 }
    ensures tree { FindsTree (IsBefore mark IsTarget) Always (λ x. (var_tree x.0, map lexeme x.1.now)) result (map lexeme tokens.now) }
    ensures shorter { IfOk result (λ x. length x.1.now ≤ length tokens.now) }
{
    let (read, rest) = read!(variable(alloc, tokens));
    match after_mark(mark, rest) {
        Some(rest) => Ok((read, rest)),
        None => {
            drop(read);
            Err(ParseError::Syntax(rest.len()))
        }
    }
}

/// A comma and a variable or nothing, and the parenthesis behind it, and what follows it.
pub(crate) fn target_end<'t>(alloc: Global, tokens: Tokens<'t>) -> ParseResult<'t, Option<Var>>
    ensures tree { FindsTree IsTargetEnd Always (λ x. (target x.0, map lexeme x.1.now)) result (map lexeme tokens.now) }
    ensures shorter { IfOk result (λ x. length x.1.now ≤ length tokens.now) }
{
    if let Some(rest) = after_mark(Mark::Close, tokens) {
        return Ok((None, rest));
    }
    let Some(after) = after_mark(Mark::Comma, tokens) else {
        return Err(ParseError::Syntax(tokens.len()));
    };
    let (read, rest) = read!(target_before(alloc, Mark::Close, after));
    Ok((Some(read), rest))
}

// A variable, `=` and its value.
fn one_assignment<'t>(alloc: Global, tokens: Tokens<'t>) -> ParseResult<'t, Assignment>
    ensures tree { FindsTree IsAssignment (ends 1) (λ x. (assignment x.0, map lexeme x.1.now)) result (map lexeme tokens.now) }
    ensures shorter { IfOk result (λ x. length x.1.now ≤ length tokens.now) }
{
    let (target, rest) = read!(target_before(alloc, Mark::Assign, tokens));
    match expr(alloc, rest) {
        Ok((value, rest)) => Ok((Assignment { target, value }, rest)),
        Err(fault) => {
            drop(target);
            Err(fault)
        }
    }
}

/// The assignments at the front, with commas between them, and the parenthesis behind them, and
/// what follows it.
pub(crate) fn assignments<'t>(alloc: Global, tokens: Tokens<'t>) -> ParseResult<'t, Assignments>
    ensures tree { FindsTree (IsBefore Mark.Close IsAssignments) Always (λ x. (map assignment (assignments_of x.0), map lexeme x.1.now)) result (map lexeme tokens.now) }
    ensures shorter { IfOk result (λ x. length x.1.now ≤ length tokens.now) }
{
    let mut items = Vec::with_capacity(alloc, 1)?;
    // All of them; the borrow checker refuses a loop whose variable begins as the argument itself.
    let (_none, mut left) = tokens.split_at(0);
    loop {
        let (next, rest) = read!(one_assignment(alloc, left));
        items.push(next)?;
        if let Some(after) = after_mark(Mark::Comma, rest) {
            left = after;
        } else {
            let Some(rest) = after_mark(Mark::Close, rest) else {
                return Err(ParseError::Syntax(rest.len()));
            };
            return Ok((Assignments::from_vec(items), rest));
        }
    }
}
