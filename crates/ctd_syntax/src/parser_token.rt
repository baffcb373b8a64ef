//! Tokens as the grammar sees them.

ghost use Rattle.std.specs.Prelude.{◌≡◌, ◌-◌, ◌<◌, ◌≤◌, None, IfErr, IfOk, IsErrAnd, drop, length, map, take};
ghost use Rattle.ctd_token.specs.calls.Lexing.{IsLexFault};
ghost use Rattle.ctd_syntax.specs.inner.Front.{lexeme, string_of, AreLexemes, IsSpelled};
ghost use Rattle.ctd_syntax.specs.Lexeme.{lexeme_of};

use crate::keyword::Keyword;
use ctd_token::{
    Bytes, Lexer, LoadFault, LoadKind, Mark, PROGRAM_LIMIT, Place, Token, TokenFault, TokenKind,
    token_at,
};
use std::alloc::{AllocError, Global};
use std::collections::BTreeMap;
use std::marker::Model;

/// A token of a program, with what the grammar needs of it.
#[derive(Clone, Copy)]
pub(crate) enum ParserToken<'t> {
    Keyword(Keyword, Place),
    /// A name, with its number among those of the text.
    Name(&'t [u8], u32),
    Numeral(i128),
    /// A string literal as it stands in the text, with its number among those of REGEX, if it is one. First the number: behind the
    /// others it would make each token larger.
    Text(u32, &'t [u8], Place),
    Mark(Mark),
}

// The bytes of a span; of a span that leaves the text, those within.
fn span(text: &[u8], first: usize, after: usize) -> &[u8]
    ensures { result.now ≡ take (after - first) (drop first text.now) }
{
    let end = after.min(text.len());
    let start = first.min(end);
    &text[start..end]
}

#[inline(always)]
fn parser_token_of<'t>(text: &'t [u8], token: Token) -> ParserToken<'t>
    requires { IsSpelled text.now token }
    ensures { lexeme result ≡ lexeme_of text.now token }
{
    let Token {
        kind,
        first,
        after,
        place,
    } = token;
    let span = span(text, first as usize, after as usize);
    match kind {
        TokenKind::Word => ParserToken::Keyword(Keyword::from_word(span), place),
        TokenKind::Name => ParserToken::Name(span, 0),
        TokenKind::Numeral(n) => ParserToken::Numeral(n),
        TokenKind::Text(_string) => ParserToken::Text(0, span, place),
        TokenKind::Mark(mark) => ParserToken::Mark(mark),
    }
}

/// The string that a literal stands for; other bytes stand for none, which is the empty string.
pub(crate) fn string_of(alloc: Global, literal: &[u8]) -> Result<Bytes, AllocError>
    ensures { IfOk result (λ string. string ≡ string_of literal.now) }
{
    if literal.is_empty() {
        return Bytes::copy(alloc, literal);
    }
    match token_at(alloc, literal) {
        Ok((TokenKind::Text(string), _)) => Ok(string),
        Err(TokenFault::Memory) => Err(AllocError),
        _ => Bytes::copy(alloc, &[]),
    }
}

// The number of a word, which one that is not yet known gets: the numbers are 0, 1, 2, .. in the order of the text.
fn number_of<'t>(word: &'t [u8], numbers: &mut BTreeMap<&'t [u8], u32>) -> Result<u32, AllocError> {
    let next = u32::try_from(numbers.len()).unwrap_or(u32::MAX);
    Ok(*numbers.entry(word)?.or_insert(next))
}

// Gives the literal of a REGEX its number. It is the first string behind the word.
#[inline(always)]
fn number_literal<'t>(
    token: ParserToken<'t>,
    after_regex: &mut bool,
    numbers: &mut BTreeMap<&'t [u8], u32>,
) -> Result<ParserToken<'t>, AllocError>
    ensures same { IfOk result (λ numbered. lexeme numbered ≡ lexeme token.entry) }
{
    match token {
        ParserToken::Keyword(Keyword::Regex, _) => {
            *after_regex = true;
            Ok(token)
        }
        ParserToken::Text(_, text, place) if *after_regex => {
            *after_regex = false;
            Ok(ParserToken::Text(number_of(text, numbers)?, text, place))
        }
        other => Ok(other),
    }
}

// Gives a name its number.
#[inline(always)]
fn number_name<'t>(
    token: ParserToken<'t>,
    numbers: &mut BTreeMap<&'t [u8], u32>,
) -> Result<ParserToken<'t>, AllocError>
    ensures same { IfOk result (λ numbered. lexeme numbered ≡ lexeme token.entry) }
{
    match token {
        ParserToken::Name(name, _) => Ok(ParserToken::Name(name, number_of(name, numbers)?)),
        other => Ok(other),
    }
}

/// Gives what the grammar sees of the tokens of a text, one after another. It keeps none of them.
#[derive(Drop)]
pub(crate) struct ParserTokens<'t> {
    lexer: Lexer<'t>,
    text: &'t [u8],
    // Whether a word REGEX was given, and no string behind it.
    after_regex: bool,
    // The numbers of the literals of REGEX that were given, and those of the names.
    literals: BTreeMap<&'t [u8], u32>,
    names: BTreeMap<&'t [u8], u32>,
}

impl<'t> Model for ParserTokens<'t> {
    ghost use Rattle.std.specs.Prelude.{◌≡◌};
    ghost use Rattle.ctd_token.specs.calls.Lexing.{Uncut};

    ghost Value = { Uncut };

    ghost view = { λ p. p.lexer };

    ghost invariant = { λ p. p.lexer.text ≡ p.text.now };
}

impl<'t> ParserTokens<'t> {
    ghost use Rattle.std.specs.Prelude.{IfSome, IfNone, OnOk};
    ghost use Rattle.ctd_token.specs.calls.Lexing.{IsEnd, IsNextFault};
    ghost use Rattle.ctd_syntax.specs.inner.Batches.{IsNextSeen};

    /// Begins at the start of a text, or answers as `Lexer::new`.
    pub(crate) fn new(alloc: Global, text: &'t [u8]) -> Result<ParserTokens<'t>, LoadFault>
        ensures begins { IfOk result (λ tokens. tokens ≡ record { text = text.now; at = 0 }) }
        ensures short { OnOk result (length text.now ≤ PROGRAM_LIMIT) }
        ensures too_long { IfErr result (λ f. (PROGRAM_LIMIT < length text.now) × (f ≡ record { kind = LoadKind.ProgramTooLong; place = None })) }
    {
        Ok(ParserTokens {
            lexer: Lexer::new(text)?,
            text,
            after_regex: false,
            literals: BTreeMap::new(alloc),
            names: BTreeMap::new(alloc),
        })
    }

    /// What the grammar sees of the next token, or none at the end of the text; or the fault as `Lexer::next_token` answers it.
    #[inline(always)]
    pub(crate) fn next_token(&mut self, alloc: Global) -> Result<Option<ParserToken<'t>>, LoadFault>
        ensures next { IfOk result (λ next. IfSome next (λ p. IsNextSeen self.old (lexeme p) self.new)) }
        ensures end { IfOk result (λ next. IfNone next (IsEnd self.old)) }
        ensures fault { IfErr result (λ f. IsNextFault self.old f.kind f.place) }
    {
        // A `?` would send each token through memory.
        let token = match self.lexer.next_token(alloc) {
            Ok(Some(token)) => token,
            Ok(None) => return Ok(None),
            Err(fault) => return Err(fault),
        };
        let token = number_literal(
            parser_token_of(self.text, token),
            &mut self.after_regex,
            &mut self.literals,
        )?;
        Ok(Some(number_name(token, &mut self.names)?))
    }
}

/// What the grammar sees of the tokens of a text, in order; or the fault that `tokens` answers. No token is kept beside what is seen of it.
pub(crate) fn parser_tokens<'t>(
    alloc: Global,
    text: &'t [u8],
) -> Result<Vec<ParserToken<'t>>, LoadFault>
    ensures seen { IfOk result (λ ps. AreLexemes text.now (map lexeme ps.items)) }
    ensures fault { IfErr result (λ f. IsLexFault text.now f.kind f.place) }
    ensures too_long { PROGRAM_LIMIT < length text.now →
        IsErrAnd result (λ f. f ≡ record { kind = LoadKind.ProgramTooLong; place = None }) }
{
    let mut tokens = ParserTokens::new(alloc, text)?;
    let mut seen = Vec::new(alloc);
    while let Some(token) = tokens.next_token(alloc)? {
        seen.push(token)?;
    }
    Ok(seen)
}
