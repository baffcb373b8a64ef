//! What stands at the front of the tokens that are left.

ghost use Rattle.std.specs.Prelude.{◌≡◌, ◌<◌, List, ℕ, ◌∷◌, length, map, IfOk, IfErr, IfSome, IfNone};
ghost use Rattle.ctd_syntax.specs.inner.Front.{lexeme, string_of};
ghost use Rattle.ctd_syntax.specs.Lexeme;
ghost use Rattle.ctd_syntax.specs.Lexeme.{Lexeme};

use crate::keyword::Keyword;
use crate::parser_token::ParserToken;
use ctd_token::{Mark, Place};
use std::alloc::{AllocError, AllocFailed};

/// Why there is no tree.
#[derive(Clone, Copy)]
pub(crate) enum ParseError {
    /// No tree is at the front; with the number of tokens left from the first that fits nowhere.
    Syntax(usize),
    /// No memory was left.
    Memory,
}

impl From<AllocError> for ParseError {
    ghost use Rattle.std.specs.Prelude.{◌≡◌};
    ghost use Rattle.ctd_syntax.specs.declared.front.ParseError.TheVariants.{Memory};

    ghost from_gives = { λ _ e. e ≡ Memory };

    fn from(_error: AllocError) -> Self {
        ParseError::Memory
    }
}

impl<T: Drop> From<AllocFailed<T>> for ParseError {
    ghost use Rattle.std.specs.Prelude.{◌≡◌};
    ghost use Rattle.ctd_syntax.specs.declared.front.ParseError.TheVariants.{Memory};

    ghost from_gives = { λ _ e. e ≡ Memory };

    fn from(_error: AllocFailed<T>) -> Self {
        ParseError::Memory
    }
}

/// Tokens that are not read yet.
pub(crate) type Tokens<'t> = &'t [ParserToken<'t>];

/// What was read at the front of some tokens, and those that follow it; or why nothing was read.
pub(crate) type ParseResult<'t, T> = Result<(T, Tokens<'t>), ParseError>;

/// What was read, or the return of the fault: a `?` converts the fault too, and so its proof takes longer.
macro_rules! read {
    ($result:expr) => {
        match $result {
            Ok(read) => read,
            Err(fault) => return Err(fault),
        }
    };
}

pub(crate) use read;

/// What follows a mark at the front.
pub(crate) fn after_mark<'t>(mark: Mark, tokens: Tokens<'t>) -> Option<Tokens<'t>>
    ensures found { IfSome result (λ rest. map lexeme tokens.now ≡ Lexeme.mark mark ∷ map lexeme rest.now) }
    ensures shorter { IfSome result (λ rest. length rest.now < length tokens.now) }
    ensures none { IfNone result ((ts : List Lexeme) → map lexeme tokens.now ≡ Lexeme.mark mark ∷ ts → ⊥) }
{
    let [first, after @ ..] = tokens else {
        return None;
    };
    match first {
        ParserToken::Mark(found) if *found == mark => Some(after),
        _ => None,
    }
}

/// What follows an opening parenthesis at the front, or Syntax where another token or none is there.
pub(crate) fn after_open<'t>(tokens: Tokens<'t>) -> Result<Tokens<'t>, ParseError>
    ensures found { IfOk result (λ rest. map lexeme tokens.now ≡ Lexeme.mark Mark.Open ∷ map lexeme rest.now) }
    ensures shorter { IfOk result (λ rest. length rest.now < length tokens.now) }
    ensures none { IfErr result (λ _. (ts : List Lexeme) → map lexeme tokens.now ≡ Lexeme.mark Mark.Open ∷ ts → ⊥) }
    ensures left { IfErr result (λ f. f ≡ ParseError.Syntax (length tokens.now)) }
{
    match after_mark(Mark::Open, tokens) {
        Some(after) => Ok(after),
        None => Err(ParseError::Syntax(tokens.len())),
    }
}

/// The name at the front with its number, and what follows it.
pub(crate) fn name_at<'t>(tokens: Tokens<'t>) -> Option<(&'t [u8], u32, Tokens<'t>)>
    ensures found { IfSome result (λ x. map lexeme tokens.now ≡ Lexeme.name x.0.now ∷ map lexeme x.2.now) }
    ensures shorter { IfSome result (λ x. length x.2.now < length tokens.now) }
    ensures none { IfNone result ((bytes : List ℕ) (ts : List Lexeme) → map lexeme tokens.now ≡ Lexeme.name bytes ∷ ts → ⊥) }
{
    let [first, after @ ..] = tokens else {
        return None;
    };
    match first {
        ParserToken::Name(name, number) => Some((name, *number, after)),
        _ => None,
    }
}

/// The word at the front with its place, and what follows it.
pub(crate) fn word_at<'t>(tokens: Tokens<'t>) -> Option<(Keyword, Place, Tokens<'t>)>
    ensures found { IfSome result (λ x. map lexeme tokens.now ≡ Lexeme.keyword x.0 x.1 ∷ map lexeme x.2.now) }
    ensures shorter { IfSome result (λ x. length x.2.now < length tokens.now) }
    ensures none { IfNone result ((word : Keyword) (at : Place) (ts : List Lexeme) → map lexeme tokens.now ≡ Lexeme.keyword word at ∷ ts → ⊥) }
{
    let [first, after @ ..] = tokens else {
        return None;
    };
    match first {
        ParserToken::Keyword(word, place) => Some((*word, *place, after)),
        _ => None,
    }
}

/// What follows this word at the front.
pub(crate) fn after_word<'t>(word: Keyword, tokens: Tokens<'t>) -> Option<Tokens<'t>>
    ensures found { IfSome result (λ rest. (at : Place) × (map lexeme tokens.now ≡ Lexeme.keyword word at ∷ map lexeme rest.now)) }
    ensures shorter { IfSome result (λ rest. length rest.now < length tokens.now) }
    ensures none { IfNone result ((at : Place) (ts : List Lexeme) → map lexeme tokens.now ≡ Lexeme.keyword word at ∷ ts → ⊥) }
{
    let (found, _place, after) = word_at(tokens)?;
    if found == word { Some(after) } else { None }
}

/// The string literal at the front with its place and its number, and what follows it.
pub(crate) fn text_at<'t>(tokens: Tokens<'t>) -> Option<(&'t [u8], Place, u32, Tokens<'t>)>
    ensures found { IfSome result (λ x. map lexeme tokens.now ≡ Lexeme.text (string_of x.0.now) x.1 ∷ map lexeme x.3.now) }
    ensures shorter { IfSome result (λ x. length x.3.now < length tokens.now) }
    ensures none { IfNone result ((bytes : List ℕ) (at : Place) (ts : List Lexeme) → map lexeme tokens.now ≡ Lexeme.text bytes at ∷ ts → ⊥) }
{
    let [first, after @ ..] = tokens else {
        return None;
    };
    match first {
        ParserToken::Text(number, text, place) => Some((text, *place, *number, after)),
        _ => None,
    }
}
