//! From tokens to lists of names (docs/LANGUAGE.md, grammar).

ghost use Rattle.std.specs.Prelude.{◌≤◌, ◌<◌, length, map, IfOk};
ghost use Rattle.ctd_program.specs.calls.View.{names_of};
ghost use Rattle.ctd_syntax.specs.Grammar.{IsNames};
ghost use Rattle.ctd_syntax.specs.inner.Front.{FindsTree, Always, IsBefore, IsName, lexeme};

use crate::front::{ParseError, ParseResult, Tokens, after_mark, name_at, read};
use ctd_program::Names;
use ctd_token::{Mark, Name};
use std::alloc::Global;

// The name at the front, and what follows it.
fn name<'t>(alloc: Global, tokens: Tokens<'t>) -> ParseResult<'t, Name>
    ensures tree { FindsTree IsName Always (λ x. (x.0, map lexeme x.1.now)) result (map lexeme tokens.now) }
    ensures shorter { IfOk result (λ x. length x.1.now < length tokens.now) }
{
    let Some((name, number, rest)) = name_at(tokens) else {
        return Err(ParseError::Syntax(tokens.len()));
    };
    Ok((Name::numbered(alloc, name, number)?, rest))
}

/// The names at the front, with commas between them, and the parenthesis behind them, and what
/// follows it.
pub(crate) fn names<'t>(alloc: Global, tokens: Tokens<'t>) -> ParseResult<'t, Names>
    ensures tree { FindsTree (IsBefore Mark.Close IsNames) Always (λ x. (names_of x.0, map lexeme x.1.now)) result (map lexeme tokens.now) }
    ensures shorter { IfOk result (λ x. length x.1.now ≤ length tokens.now) }
{
    let mut items = Vec::with_capacity(alloc, 1)?;
    // All of them; the borrow checker refuses a loop whose variable begins as the argument itself.
    let (_none, mut left) = tokens.split_at(0);
    loop {
        let (next, rest) = read!(name(alloc, left));
        items.push(next)?;
        if let Some(after) = after_mark(Mark::Comma, rest) {
            left = after;
        } else {
            let Some(rest) = after_mark(Mark::Close, rest) else {
                return Err(ParseError::Syntax(rest.len()));
            };
            return Ok((Names::from_vec(items), rest));
        }
    }
}
