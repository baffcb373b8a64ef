//! Reads a program that has no fault a batch of commands at a time, so that its tokens need not all be kept until its tree is built.

ghost use Rattle.std.specs.Prelude.{◌≡◌, ◌<◌, [], None, length, map, true, IfOk, IfErr, IfSome, IsErrAnd, OnOk};
ghost use Rattle.ctd_token.specs.calls.Lexing.{IsLexFault};
ghost use Rattle.ctd_syntax.specs.inner.Front.{lexeme};
ghost use Rattle.ctd_syntax.specs.Reading.{Parses};
ghost use Rattle.ctd_syntax.specs.inner.Batches.{ReadsOff};
ghost use Rattle.ctd_program.specs.calls.View.{command_trees};

use crate::command::command;
use crate::front::{ParseError, Tokens, read};
use crate::nesting::Nesting;
use crate::parser_token::{ParserToken, ParserTokens};
use ctd_program::{Command, Commands, Program};
use ctd_token::{LoadFault, LoadKind, PROGRAM_LIMIT};
use std::alloc::{AllocError, Global};

// How many tokens a batch has at least, but for the last.
const BATCH_TOKENS: usize = 4096;

// Reads commands until no token is left, and puts them behind those that are there.
fn all_commands<'t>(
    alloc: Global,
    tokens: Tokens<'t>,
    commands: &mut Vec<Command>,
) -> Result<(), ParseError>
    ensures { OnOk result (ReadsOff (map lexeme tokens.now) commands.old.items [] commands.new.items) }
{
    // All of them; the borrow checker refuses a loop whose variable begins as the argument itself.
    let (_none, mut rest) = tokens.split_at(0);
    while !rest.is_empty() {
        let (next, after) = read!(command(alloc, rest));
        commands.push(next)?;
        rest = after;
    }
    Ok(())
}

// Whether these tokens are commands and nothing else, which are then put behind those that are there.
fn append_commands<'t>(
    alloc: Global,
    tokens: Tokens<'t>,
    commands: &mut Vec<Command>,
) -> Result<bool, AllocError>
    ensures { IfOk result (λ fits. fits ≡ true → ReadsOff (map lexeme tokens.now) commands.old.items [] commands.new.items) }
{
    match all_commands(alloc, tokens, commands) {
        Ok(()) => Ok(true),
        Err(ParseError::Syntax(_left)) => Ok(false),
        Err(ParseError::Memory) => Err(AllocError),
    }
}

// Whether a batch may end before this token. Where nothing is open, no word but that of a command fits.
fn ends_before(batch: &[ParserToken<'_>], nesting: &Nesting, next: &ParserToken<'_>) -> bool {
    batch.len() >= BATCH_TOKENS
        && nesting.is_outermost()
        && matches!(next, ParserToken::Keyword(_, _))
}

// Reads the commands of a batch that ends, whose tokens are then dropped. Whether they were commands and nothing else.
#[inline(always)] // For each token, of which few end a batch.
fn read_off(
    alloc: Global,
    ends: bool,
    batch: &mut Vec<ParserToken<'_>>,
    commands: &mut Vec<Command>,
) -> Result<bool, AllocError>
    ensures read { IfOk result (λ fits. fits ≡ true → ReadsOff (map lexeme batch.old.items) commands.old.items (map lexeme batch.new.items) commands.new.items) }
    ensures whole { ends ≡ true → OnOk result (batch.new.items ≡ []) }
{
    if !ends {
        return Ok(true);
    }
    let fits = append_commands(alloc, batch, commands)?;
    batch.clear();
    Ok(fits)
}

// Whether the text is a program, whose commands are then read; where it tells false, a token is too deep or fits nowhere.
fn read_commands(alloc: Global, text: &[u8], commands: &mut Vec<Command>) -> Result<bool, LoadFault>
    requires { commands.old.items ≡ [] }
    ensures parses { IfOk result (λ whole. whole ≡ true → Parses text.now (command_trees commands.new.items)) }
    ensures fault { IfErr result (λ f. IsLexFault text.now f.kind f.place) }
    ensures too_long { PROGRAM_LIMIT < length text.now →
        IsErrAnd result (λ f. f ≡ record { kind = LoadKind.ProgramTooLong; place = None }) }
{
    let mut tokens = ParserTokens::new(alloc, text)?;
    let mut nesting = Nesting::new(alloc);
    let mut batch = Vec::new(alloc);
    loop {
        // A `?` would send each token through memory.
        let token = match tokens.next_token(alloc) {
            Ok(Some(token)) => token,
            Ok(None) => break,
            Err(fault) => return Err(fault),
        };
        let ends = ends_before(&batch, &nesting, &token);
        if !read_off(alloc, ends, &mut batch, commands)? {
            return Ok(false);
        }
        if !nesting.pass(&token)? {
            return Ok(false);
        }
        batch.push(token)?;
    }
    Ok(read_off(alloc, true, &mut batch, commands)?)
}

/// The program that a text spells, or none where a token is too deep or fits nowhere; or the fault that `tokens` answers.
pub(crate) fn program_in_batches(alloc: Global, text: &[u8]) -> Result<Option<Program>, LoadFault>
    ensures parses { IfOk result (λ found. IfSome found (λ program. Parses text.now (command_trees program))) }
    ensures fault { IfErr result (λ f. IsLexFault text.now f.kind f.place) }
    ensures too_long { PROGRAM_LIMIT < length text.now →
        IsErrAnd result (λ f. f ≡ record { kind = LoadKind.ProgramTooLong; place = None }) }
{
    let mut commands = Vec::new(alloc);
    if !read_commands(alloc, text, &mut commands)? {
        return Ok(None);
    }
    // The list may have grown to twice what it holds.
    commands.shrink_to_fit();
    Ok(Some(Program::new(Commands::from_vec(commands))))
}
