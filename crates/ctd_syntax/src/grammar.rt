//! From the text of a program to its tree.

ghost use Rattle.std.specs.Prelude.{◌≡◌, ◌≤◌, ◌<◌, ◌-◌, None, length, map, IfOk, IfErr, IsErrAnd};
ghost use Rattle.ctd_syntax.specs.inner.Front.{lexeme, AreLexemes, NestsTooDeep, SpellsNone};
ghost use Rattle.ctd_syntax.specs.calls.Reading.{IsFault};
ghost use Rattle.ctd_syntax.specs.Reading.{Parses, place_behind};
ghost use Rattle.ctd_program.specs.calls.View.{command_trees};

use crate::batches::program_in_batches;
use crate::command::commands;
use crate::front::ParseError;
use crate::nesting::first_too_deep;
use crate::parser_token::{ParserToken, parser_tokens};
use ctd_program::Program;
use ctd_token::{LoadFault, LoadKind, PROGRAM_LIMIT, Place, Token, advance, tokens};
use std::alloc::Global;

// The place of the first of the last `left` tokens, or the end of the text.
fn place_of_rest(text: &[u8], tokens: &[Token], left: usize) -> Place
    requires { length text.now ≤ PROGRAM_LIMIT }
    ensures { result ≡ place_behind text.now tokens.now (length tokens.now - left) }
{
    match tokens.get(tokens.len().saturating_sub(left)) {
        Some(token) => token.place,
        None => advance(Place { line: 1, column: 1 }, text, 0, text.len()),
    }
}

// The fault of a text whose tokens spell no program, where so many of them are left from the first that fits nowhere. Its place is that of
// a token, for which the text is cut again.
fn no_program(alloc: Global, text: &[u8], left: usize) -> LoadFault
    requires { SpellsNone text.now left }
    ensures { IsFault text.now result.kind result.place }
{
    match tokens(alloc, text) {
        Ok(tokens) => LoadFault {
            kind: LoadKind::Syntax,
            place: Some(place_of_rest(text, &tokens, left)),
        },
        Err(fault) => fault,
    }
}

// The fault of a text whose tokens nest too deeply, where so many of them stand before the first after which they do.
fn too_deep(alloc: Global, text: &[u8], before: usize) -> LoadFault
    requires { NestsTooDeep text.now before }
    ensures { IsFault text.now result.kind result.place }
{
    match tokens(alloc, text) {
        Ok(tokens) => LoadFault {
            kind: LoadKind::TooDeep,
            place: tokens.get(before).map(|token| token.place),
        },
        Err(fault) => fault,
    }
}

// What the tokens of a text spell.
fn program_of(alloc: Global, text: &[u8], tokens: &[ParserToken<'_>]) -> Result<Program, LoadFault>
    requires { AreLexemes text.now (map lexeme tokens.now) }
    ensures parses { IfOk result (λ program. Parses text.now (command_trees program)) }
    ensures refused { IfErr result (λ f. IsFault text.now f.kind f.place) }
{
    if let Some(before) = first_too_deep(alloc, tokens)? {
        return Err(too_deep(alloc, text, before));
    }
    match commands(alloc, tokens) {
        Ok((commands, rest)) => {
            if rest.is_empty() {
                Ok(Program::new(commands))
            } else {
                Err(no_program(alloc, text, rest.len()))
            }
        }
        Err(ParseError::Syntax(left)) => Err(no_program(alloc, text, left)),
        Err(ParseError::Memory) => Err(LoadFault {
            kind: LoadKind::Memory,
            place: None,
        }),
    }
}

/// Reads the text of a program: the one tree that the grammar spells (docs/LANGUAGE.md, grammar).
///
/// A text above `PROGRAM_LIMIT` bytes is ProgramTooLong. Else the first token with a fault gives the answer, as for
/// `tokens`; else the first token after which the weight passes `NESTING_LIMIT` is TooDeep; else a text that spells no
/// program is Syntax, at the first token with which no program goes on, or at the end of the text. A refused growth is
/// Memory. All but ProgramTooLong and Memory have a place, with lines and columns from 1.
pub fn parse(alloc: Global, text: &[u8]) -> Result<Program, LoadFault>
    ensures parses { IfOk result (λ program. Parses text.now (command_trees program)) }
    ensures refused { IfErr result (λ f. IsFault text.now f.kind f.place) }

    // Also where no memory is left.
    ensures too_long { PROGRAM_LIMIT < length text.now →
        IsErrAnd result (λ f. f ≡ record { kind = LoadKind.ProgramTooLong; place = None }) }
{
    if let Some(program) = program_in_batches(alloc, text)? {
        return Ok(program);
    }
    // Only all tokens tell the fault, and its place.
    let tokens = parser_tokens(alloc, text)?;
    program_of(alloc, text, &tokens)
}
