//! How deep the tokens of a program nest.

ghost use Rattle.std.specs.Prelude.{◌≡◌, map, IfOk};
ghost use Rattle.ctd_syntax.specs.inner.Front.{lexeme};
ghost use Rattle.ctd_syntax.specs.Nesting.{change_of, start};
ghost use Rattle.ctd_syntax.specs.inner.Nesting.{too_deep};

use crate::keyword::Keyword;
use crate::parser_token::ParserToken;
use ctd_token::{Mark, NESTING_LIMIT};
use std::alloc::{AllocError, Global};
use std::marker::Model;

// What a token does to the counters.
#[derive(Clone, Copy)]
enum CounterChange {
    // A new innermost counter, 0.
    Opens,
    // The innermost counter goes, unless it is the only one.
    Closes,
    // The innermost counter becomes 0.
    Restarts,
    // The innermost counter grows by 1.
    Grows,
    // None does.
    Keeps,
}

#[inline(always)]
fn change_of(token: &ParserToken<'_>) -> CounterChange
    ensures { result ≡ change_of (lexeme token.now) }
{
    match token {
        ParserToken::Mark(mark) => match mark {
            Mark::Open | Mark::OpenIndex => CounterChange::Opens,
            Mark::Close | Mark::CloseIndex => CounterChange::Closes,
            Mark::Comma => CounterChange::Restarts,
            Mark::Assign => CounterChange::Keeps,
            _ => CounterChange::Grows,
        },
        ParserToken::Keyword(keyword, _) => match keyword {
            Keyword::Rep | Keyword::RepI | Keyword::While | Keyword::WhileI | Keyword::If => {
                CounterChange::Opens
            }
            Keyword::Else => CounterChange::Restarts,
            Keyword::End => CounterChange::Closes,
            Keyword::Space
            | Keyword::Newline
            | Keyword::Eof
            | Keyword::Int
            | Keyword::String
            | Keyword::Regex
            | Keyword::Assert
            | Keyword::Set
            | Keyword::Unset
            | Keyword::Strlen
            | Keyword::Match
            | Keyword::IsEof
            | Keyword::Unique
            | Keyword::InArray
            | Keyword::Unknown => CounterChange::Keeps,
        },
        _ => CounterChange::Keeps,
    }
}

/// The counters behind the tokens that were passed, with their weight.
#[derive(Drop)]
pub(crate) struct Nesting {
    // All counters but the innermost, from the outside in.
    outer: Vec<u32>,
    inner: u32,
    // The weight.
    total: u32,
}

impl Model for Nesting {
    ghost use Rattle.std.specs.Prelude.{◌≡◌, ℕ, List, reverse};
    ghost use Rattle.ctd_syntax.specs.Nesting.{weight};

    ghost Value = { ℕ × List ℕ };

    ghost view = { λ n. (n.inner, reverse n.outer.items) };

    ghost invariant = { λ n. n.total ≡ weight (n.inner, reverse n.outer.items) };
}

impl Nesting {
    ghost use Rattle.std.specs.Prelude.{◌≡◌, ◌≤◌, ◌↔◌, [], IsTrue, OnOk, IfOk};
    ghost use Rattle.ctd_syntax.specs.Nesting.{step, weight};

    /// Before the first token.
    pub(crate) fn new(alloc: Global) -> Nesting
        ensures { result ≡ start }
    {
        Nesting {
            outer: Vec::new(alloc),
            inner: 0,
            total: 0,
        }
    }

    /// Whether no parenthesis, bracket or block is open.
    pub(crate) fn is_outermost(&self) -> bool
        ensures { IsTrue result ↔ self.now.1 ≡ [] }
    {
        self.outer.is_empty()
    }

    /// Passes a token. Whether the weight is within `NESTING_LIMIT` then.
    #[inline(always)]
    pub(crate) fn pass(&mut self, token: &ParserToken<'_>) -> Result<bool, AllocError>
        requires { weight self.old ≤ NESTING_LIMIT }
        ensures steps { OnOk result (self.new ≡ step (change_of (lexeme token.now)) self.old) }
        ensures light { IfOk result (λ light. IsTrue light ↔ weight self.new ≤ NESTING_LIMIT) }
    {
        match change_of(token) {
            CounterChange::Opens => {
                self.outer.push(self.inner)?;
                self.inner = 0;
                self.total += 1;
            }
            CounterChange::Closes => {
                if let Some(c) = self.outer.pop() {
                    self.total -= self.inner + 1;
                    self.inner = c;
                }
            }
            CounterChange::Restarts => {
                self.total -= self.inner;
                self.inner = 0;
            }
            CounterChange::Grows => {
                self.inner += 1;
                self.total += 1;
            }
            CounterChange::Keeps => {}
        }
        Ok(self.total <= NESTING_LIMIT)
    }
}

/// How many tokens stand before the first after which the weight passes `NESTING_LIMIT`.
pub(crate) fn first_too_deep(
    alloc: Global,
    tokens: &[ParserToken<'_>],
) -> Result<Option<usize>, AllocError>
    ensures { IfOk result (λ found. found ≡ too_deep start (map lexeme tokens.now)) }
{
    let mut nesting = Nesting::new(alloc);
    let mut n = 0;
    while n < tokens.len() {
        if !nesting.pass(&tokens[n])? {
            return Ok(Some(n));
        }
        n += 1;
    }
    Ok(None)
}
