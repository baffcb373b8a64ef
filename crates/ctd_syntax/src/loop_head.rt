//! From tokens to the heads of loops: what stands before the separator and the block (docs/LANGUAGE.md, grammar).
//! Where a reader fails, the trees that were read before it are given to `drop`.

ghost use Rattle.std.specs.Prelude.{◌≤◌, ◌<◌, length, map, IfOk};
ghost use Rattle.ctd_program.specs.calls.View.{boxed_target, guard_tree};
ghost use Rattle.ctd_syntax.specs.inner.Front.{FindsTree, Always, lexeme};
ghost use Rattle.ctd_syntax.specs.inner.TestGrammar.{test_ends};
ghost use Rattle.ctd_syntax.specs.inner.CommandWords.{IsCounter, IsGuard, IsLoopHead};

use crate::condition::test;
use crate::expression::expr;
use crate::front::{ParseResult, Tokens, after_open, read};
use crate::target::target_before;
use ctd_program::{LoopGuard, Var};
use ctd_token::Mark;
use std::alloc::Global;

/// The word of a loop.
#[derive(Clone, Copy)]
pub(crate) enum LoopWord {
    Rep,
    RepI,
    While,
    WhileI,
}

/// How a loop begins: the variable that gets the number of each turn, if there is one, and how long the loop goes on.
pub(crate) type LoopHead = (Option<Box<Var>>, LoopGuard);

// The counter of a loop and the comma behind it, where its word has one.
fn counter<'t>(
    alloc: Global,
    word: LoopWord,
    tokens: Tokens<'t>,
) -> ParseResult<'t, Option<Box<Var>>>
    ensures tree { FindsTree (IsCounter word) Always (λ x. (boxed_target x.0, map lexeme x.1.now)) result (map lexeme tokens.now) }
    ensures shorter { IfOk result (λ x. length x.1.now ≤ length tokens.now) }
{
    match word {
        LoopWord::Rep | LoopWord::While => Ok((None, tokens)),
        LoopWord::RepI | LoopWord::WhileI => {
            let (read, rest) = read!(target_before(alloc, Mark::Comma, tokens));
            let counter = Box::new(alloc, read)?;
            Ok((Some(counter), rest))
        }
    }
}

// How long a loop goes on.
fn guard<'t>(alloc: Global, word: LoopWord, tokens: Tokens<'t>) -> ParseResult<'t, LoopGuard>
    ensures tree { FindsTree (IsGuard word) (test_ends 1) (λ x. (guard_tree x.0, map lexeme x.1.now)) result (map lexeme tokens.now) }
    ensures shorter { IfOk result (λ x. length x.1.now ≤ length tokens.now) }
{
    match word {
        LoopWord::Rep | LoopWord::RepI => {
            let (read, rest) = read!(expr(alloc, tokens));
            let count = Box::new(alloc, read)?;
            Ok((LoopGuard::Times(count), rest))
        }
        LoopWord::While | LoopWord::WhileI => {
            let (condition, rest) = read!(test(alloc, None, tokens));
            Ok((LoopGuard::While(condition), rest))
        }
    }
}

/// The head of a loop, behind its word, and what follows it.
pub(crate) fn loop_head<'t>(
    alloc: Global,
    word: LoopWord,
    tokens: Tokens<'t>,
) -> ParseResult<'t, LoopHead>
    ensures tree { FindsTree (IsLoopHead word) (test_ends 1) (λ x. ((boxed_target x.0.0, guard_tree x.0.1), map lexeme x.1.now)) result (map lexeme tokens.now) }
    ensures shorter { IfOk result (λ x. length x.1.now < length tokens.now) }
{
    let after = read!(after_open(tokens));
    let (counter, rest) = read!(counter(alloc, word, after));
    match guard(alloc, word, rest) {
        Ok((guard, rest)) => Ok(((counter, guard), rest)),
        Err(fault) => {
            drop(counter);
            Err(fault)
        }
    }
}
