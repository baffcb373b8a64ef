//! From the text of a program to its tokens.

ghost use Rattle.std.specs.Prelude.{ℕ, List, ◌≡◌, ◌≤◌, ◌<◌, ◌-◌, ◌+◌, ◌^◌, length, count_by, nat_eq, None, IfOk, IfErr, IfSome, IfNone, OnOk, IsErrAnd};
ghost use Rattle.ctd_token.specs.Cut.{Cuts, Faults, place_at};
ghost use Rattle.ctd_token.specs.calls.Lexing.{IsLexFault};
ghost use Rattle.ctd_token.specs.calls.Scanning.{FaultWithin};
ghost use Rattle.ctd_token.specs.inner.Scanning.{IsFaultAt};
ghost use Rattle.ctd_token.specs.declared.token.Token.{Token};
ghost use Rattle.ctd_token.specs.declared.fault.LoadKind.{LoadKind};

use crate::fault::{LoadFault, LoadKind, TokenFault};
use crate::limits::PROGRAM_LIMIT;
use crate::scan::{gap_len, token_at};
use crate::text::Place;
use crate::token::{Token, TokenKind};
use std::alloc::Global;
use std::marker::Model;

/// The place of a later offset of a program's text, from the place of an earlier one. Offset 0 has line 1 and column 1,
/// and the end of the text has a place too. The time is linear in the bytes between the two offsets.
#[inline(never)] // Its loop needs few registers, and in its callers it has none.
pub fn advance(place: Place, text: &[u8], at: usize, to: usize) -> Place
    requires short { length text.now ≤ PROGRAM_LIMIT }
    requires here { place ≡ place_at text.now at }
    requires later { at ≤ to }
    requires within { to ≤ length text.now }
    ensures there { result ≡ place_at text.now to }
{
    let mut place = place;
    let mut n = at;
    // The bytes between two tokens are few, so no search for line feeds pays.
    while n < to {
        if text[n] == b'\n' {
            place.line += 1;
            place.column = 1;
        } else {
            place.column += 1;
        }
        n += 1;
    }
    place
}

// The token of so many bytes at an offset, which has this place.
fn token_with_span(kind: TokenKind, at: usize, len: usize, start: Place) -> Token
    requires { at + len < 2 ^ 32 }
    ensures { result ≡ record { kind = kind; first = at; after = at + len; place = start } }
{
    Token {
        kind,
        first: at as u32,
        after: (at + len) as u32,
        place: start,
    }
}

// The fault of a token that begins at an offset of the text.
fn fault_at(fault: TokenFault, place: Place, text: &[u8], at: usize) -> LoadFault
    requires short { length text.now ≤ PROGRAM_LIMIT }
    requires here { place ≡ place_at text.now at }
    requires within { at ≤ length text.now }
    requires fault_within { FaultWithin fault (length text.now - at) }
    ensures { IsFaultAt text.now at fault result }
{
    match fault {
        TokenFault::Wrong { kind, behind } => LoadFault {
            kind,
            place: Some(advance(place, text, at, at + behind)),
        },
        TokenFault::Memory => LoadFault {
            kind: LoadKind::Memory,
            place: None,
        },
    }
}

/// Cuts the text of a program into its tokens, one after another (docs/LANGUAGE.md, tokens).
///
/// It holds no token, so a text takes no more memory than its caller keeps of it.
#[derive(Drop)]
pub struct Lexer<'t> {
    text: &'t [u8],
    // The offset behind the last token, or 0.
    at: usize,
    // The offset of the last token, or 0, with its place.
    known: usize,
    place: Place,
}

impl<'t> Model for Lexer<'t> {
    ghost use Rattle.std.specs.Prelude.{◌≡◌, ◌≤◌, length};
    ghost use Rattle.ctd_token.specs.Cut.{place_at};
    ghost use Rattle.ctd_token.specs.calls.Lexing.{Uncut};
    ghost use Rattle.ctd_token.specs.declared.limits.TheConstants.{PROGRAM_LIMIT};

    ghost Value = { Uncut };

    ghost view = { λ l. record { text = l.text.now; at = l.at } };

    ghost invariant = { λ l. (length l.text.now ≤ PROGRAM_LIMIT) × (l.known ≤ l.at) × (l.at ≤ length l.text.now) × (l.place ≡ place_at l.text.now l.known) };
}

impl<'t> Lexer<'t> {
    ghost use Rattle.ctd_token.specs.calls.Lexing.{IsNext, IsNextFault, IsEnd};

    /// Begins at the start of a text; one above `PROGRAM_LIMIT` bytes is ProgramTooLong, without a place.
    pub fn new(text: &'t [u8]) -> Result<Lexer<'t>, LoadFault>
        ensures begins { IfOk result (λ lexer. lexer ≡ record { text = text.now; at = 0 }) }
        ensures short { OnOk result (length text.now ≤ PROGRAM_LIMIT) }
        ensures too_long { IfErr result (λ f. (PROGRAM_LIMIT < length text.now) × (f ≡ record { kind = LoadKind.ProgramTooLong; place = None })) }
    {
        if text.len() > PROGRAM_LIMIT {
            return Err(LoadFault {
                kind: LoadKind::ProgramTooLong,
                place: None,
            });
        }
        Ok(Lexer {
            text,
            at: 0,
            known: 0,
            place: Place { line: 1, column: 1 },
        })
    }

    /// The next token; none where only blanks and comments are left.
    ///
    /// Offsets count bytes from 0, lines and columns from 1. A token with a fault is BadByte, UnfinishedString, BadOctal,
    /// NumberTooLarge or NotInProfile, with the place of the fault; a refused growth is Memory, without one. After a fault and at the end
    /// the lexer stands where it stood.
    #[inline(always)]
    pub fn next_token(&mut self, alloc: Global) -> Result<Option<Token>, LoadFault>
        ensures next { IfOk result (λ next. IfSome next (λ t. IsNext self.old t self.new)) }
        ensures end { IfOk result (λ next. IfNone next (IsEnd self.old)) }
        ensures fault { IfErr result (λ f. IsNextFault self.old f.kind f.place) }
        ensures stays { IfErr result (λ _. self.new ≡ self.old) }
        ensures stays_at_end { IfOk result (λ next. IfNone next (self.new ≡ self.old)) }
    {
        let first = self.at + gap_len(&self.text[self.at..]);
        if first == self.text.len() {
            return Ok(None);
        }
        let place = advance(self.place, self.text, self.known, first);
        match token_at(alloc, &self.text[first..]) {
            Ok((kind, len)) => {
                self.at = first + len;
                self.known = first;
                self.place = place;
                Ok(Some(token_with_span(kind, first, len, place)))
            }
            Err(fault) => Err(fault_at(fault, place, self.text, first)),
        }
    }
}

/// All tokens of the text of a program, as a `Lexer` cuts it.
///
/// A text of blanks and comments alone has no tokens. The first token with a fault gives the answer, with the place of the fault. A text
/// above `PROGRAM_LIMIT` bytes is ProgramTooLong, and a refused growth is Memory, both without a place.
pub fn tokens(alloc: Global, text: &[u8]) -> Result<Vec<Token>, LoadFault>
    ensures short { OnOk result (length text.now ≤ PROGRAM_LIMIT) }
    ensures cut { IfOk result (λ ts. Cuts text.now 0 text.now ts.items) }
    ensures fault { IfErr result (λ f. IsLexFault text.now f.kind f.place) }

    // Also where no memory is left.
    ensures too_long { PROGRAM_LIMIT < length text.now →
        IsErrAnd result (λ f. f ≡ record { kind = LoadKind.ProgramTooLong; place = None }) }
{
    let mut lexer = Lexer::new(text)?;
    let mut tokens = Vec::new(alloc);
    while let Some(token) = lexer.next_token(alloc)? {
        tokens.push(token)?;
    }
    Ok(tokens)
}
