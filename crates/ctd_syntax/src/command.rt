//! From tokens to commands (docs/LANGUAGE.md, grammar).
//! Where a reader fails, the trees that were read before it are given to `drop`.

ghost use Rattle.std.specs.Prelude.{◌≡◌, ◌≤◌, ◌<◌, ◌∷◌, true, false, length, map, IfOk, IfSome, IfNone};
ghost use Rattle.ctd_syntax.specs.Lexeme;
ghost use Rattle.ctd_program.specs.Tree;
ghost use Rattle.ctd_program.specs.calls.View.{action_tree, boxed_target, command_list, command_tree, expr_tree, guard_tree, target};
ghost use Rattle.ctd_program.specs.inner.View.{boxed_separator};
ghost use Rattle.ctd_syntax.specs.Grammar.{IsExpr, IsTargetEnd, IsCommand, IsCommands};
ghost use Rattle.ctd_syntax.specs.inner.Front.{FindsTree, Always, IsBefore, IsPair, lexeme};
ghost use Rattle.ctd_syntax.specs.inner.CommandWords.{IsCommandRest, CommandsEnd, IsBlock, IsBranchEnd, IsLoopEnd, IsLoopRest, command_begins, is_command_word};

use crate::condition::test_before;
use crate::expression::{expr, expr_before};
use crate::front::{
    ParseError, ParseResult, Tokens, after_mark, after_open, after_word, read, text_at, word_at,
};
use crate::keyword::Keyword;
use crate::loop_head::{LoopHead, LoopWord, loop_head};
use crate::names::names;
use crate::parser_token::string_of;
use crate::target::{assignments, target_end};
use ctd_program::{
    Action, Choice, Command, Commands, Expr, IntArguments, Loop, PatternLiteral, RegexArguments,
    Var,
};
use ctd_token::{Mark, Place};
use std::alloc::{AllocError, Global};

// The upper bound of INT and its target.
fn upper_bound<'t>(alloc: Global, tokens: Tokens<'t>) -> ParseResult<'t, (Expr, Option<Var>)>
    ensures tree { FindsTree (IsPair IsExpr IsTargetEnd) Always (λ x. ((expr_tree x.0.0, target x.0.1), map lexeme x.1.now)) result (map lexeme tokens.now) }
    ensures shorter { IfOk result (λ x. length x.1.now ≤ length tokens.now) }
{
    let (high, rest) = read!(expr(alloc, tokens));
    match target_end(alloc, rest) {
        Ok((target, rest)) => Ok(((high, target), rest)),
        Err(fault) => {
            drop(high);
            Err(fault)
        }
    }
}

// What stands behind INT.
fn int<'t>(alloc: Global, place: Place, tokens: Tokens<'t>) -> ParseResult<'t, Command>
    ensures tree { FindsTree (IsCommandRest Keyword.Int place) Always (λ x. (command_tree x.0, map lexeme x.1.now)) result (map lexeme tokens.now) }
    ensures shorter { IfOk result (λ x. length x.1.now ≤ length tokens.now) }
{
    let after = read!(after_open(tokens));
    let (low, rest) = read!(expr_before(alloc, Mark::Comma, after));
    match upper_bound(alloc, rest) {
        Ok((upper, rest)) => {
            let (high, target) = upper;
            let arguments = IntArguments { low, high, target };
            let action = Action::Int(Box::new(alloc, arguments)?);
            Ok((Command { place, action }, rest))
        }
        Err(fault) => {
            drop(low);
            Err(fault)
        }
    }
}

// What stands behind STRING.
fn string<'t>(alloc: Global, place: Place, tokens: Tokens<'t>) -> ParseResult<'t, Command>
    ensures tree { FindsTree (IsCommandRest Keyword.String place) Always (λ x. (command_tree x.0, map lexeme x.1.now)) result (map lexeme tokens.now) }
    ensures shorter { IfOk result (λ x. length x.1.now ≤ length tokens.now) }
{
    let after = read!(after_open(tokens));
    let (text, rest) = read!(expr_before(alloc, Mark::Close, after));
    let action = Action::String(Box::new(alloc, text)?);
    Ok((Command { place, action }, rest))
}

// What stands behind REGEX.
fn regex<'t>(alloc: Global, place: Place, tokens: Tokens<'t>) -> ParseResult<'t, Command>
    ensures tree { FindsTree (IsCommandRest Keyword.Regex place) Always (λ x. (command_tree x.0, map lexeme x.1.now)) result (map lexeme tokens.now) }
    ensures shorter { IfOk result (λ x. length x.1.now ≤ length tokens.now) }
{
    let after = read!(after_open(tokens));
    let Some((literal, at, number, rest)) = text_at(after) else {
        return Err(ParseError::Syntax(after.len()));
    };
    let (target, rest) = read!(target_end(alloc, rest));
    let bytes = string_of(alloc, literal)?;
    let arguments = RegexArguments {
        number,
        literal: PatternLiteral { bytes, place: at },
        target,
    };
    let action = Action::Regex(Box::new(alloc, arguments)?);
    Ok((Command { place, action }, rest))
}

// What stands behind ASSERT.
fn assert<'t>(alloc: Global, place: Place, tokens: Tokens<'t>) -> ParseResult<'t, Command>
    ensures tree { FindsTree (IsCommandRest Keyword.Assert place) Always (λ x. (command_tree x.0, map lexeme x.1.now)) result (map lexeme tokens.now) }
    ensures shorter { IfOk result (λ x. length x.1.now ≤ length tokens.now) }
{
    let after = read!(after_open(tokens));
    let (condition, rest) = read!(test_before(alloc, Mark::Close, None, after));
    let action = Action::Assert(condition);
    Ok((Command { place, action }, rest))
}

// What stands behind SET.
fn set<'t>(alloc: Global, place: Place, tokens: Tokens<'t>) -> ParseResult<'t, Command>
    ensures tree { FindsTree (IsCommandRest Keyword.Set place) Always (λ x. (command_tree x.0, map lexeme x.1.now)) result (map lexeme tokens.now) }
    ensures shorter { IfOk result (λ x. length x.1.now ≤ length tokens.now) }
{
    let after = read!(after_open(tokens));
    let (list, rest) = read!(assignments(alloc, after));
    let action = Action::Set(Box::new(alloc, list)?);
    Ok((Command { place, action }, rest))
}

// What stands behind UNSET.
fn unset<'t>(alloc: Global, place: Place, tokens: Tokens<'t>) -> ParseResult<'t, Command>
    ensures tree { FindsTree (IsCommandRest Keyword.Unset place) Always (λ x. (command_tree x.0, map lexeme x.1.now)) result (map lexeme tokens.now) }
    ensures shorter { IfOk result (λ x. length x.1.now ≤ length tokens.now) }
{
    let after = read!(after_open(tokens));
    let (list, rest) = read!(names(alloc, after));
    let action = Action::Unset(Box::new(alloc, list)?);
    Ok((Command { place, action }, rest))
}

// How a loop goes on behind its head: the separator, and the commands of its block.
type LoopEnd = (Option<Box<Command>>, Commands);

// A loop of its parts.
fn loop_of(alloc: Global, head: LoopHead, end: LoopEnd) -> Result<Action, AllocError>
    ensures tree { IfOk result (λ action. (at : Place) → action_tree action at ≡ Tree.loop at (guard_tree head.1) (boxed_target head.0) (boxed_separator end.0) (command_list end.1)) }
{
    let (counter, guard) = head;
    let (between, body) = end;
    let parts = Loop {
        guard,
        counter,
        between,
        body,
    };
    Ok(Action::Loop(Box::new(alloc, parts)?))
}

// What stands behind the word of a loop.
#[cycle(command)]
fn loop_command<'t>(
    alloc: Global,
    word: LoopWord,
    place: Place,
    tokens: Tokens<'t>,
) -> ParseResult<'t, Command>
    ensures tree { FindsTree (IsLoopRest word place) Always (λ x. (command_tree x.0, map lexeme x.1.now)) result (map lexeme tokens.now) }
    ensures shorter { IfOk result (λ x. length x.1.now ≤ length tokens.now) }
{
    let (head, rest) = read!(loop_head(alloc, word, tokens));
    match loop_end(alloc, rest) {
        Ok((end, rest)) => {
            let action = loop_of(alloc, head, end)?;
            Ok((Command { place, action }, rest))
        }
        Err(fault) => {
            drop(head);
            Err(fault)
        }
    }
}

// The commands of both branches of an IF; where there is no ELSE, the second has none.
#[cycle(command)]
fn branches<'t>(alloc: Global, tokens: Tokens<'t>) -> ParseResult<'t, (Commands, Commands)>
    ensures tree { FindsTree (IsPair IsCommands IsBranchEnd) Always (λ x. ((command_list x.0.0, command_list x.0.1), map lexeme x.1.now)) result (map lexeme tokens.now) }
    ensures shorter { IfOk result (λ x. length x.1.now ≤ length tokens.now) }
{
    let (then_do, rest) = read!(commands(alloc, tokens));
    let (else_do, rest) = read!(branch_end(alloc, rest));
    Ok(((then_do, else_do), rest))
}

// END; or ELSE and a block.
#[cycle(command)]
fn branch_end<'t>(alloc: Global, tokens: Tokens<'t>) -> ParseResult<'t, Commands>
    ensures tree { FindsTree IsBranchEnd Always (λ x. (command_list x.0, map lexeme x.1.now)) result (map lexeme tokens.now) }
    ensures shorter { IfOk result (λ x. length x.1.now ≤ length tokens.now) }
{
    if let Some(rest) = after_word(Keyword::End, tokens) {
        return Ok((Commands::from_vec(Vec::new(alloc)), rest));
    }
    match after_word(Keyword::Else, tokens) {
        Some(after) => block(alloc, after),
        None => Err(ParseError::Syntax(tokens.len())),
    }
}

// What stands behind IF.
#[cycle(command)]
fn if_command<'t>(alloc: Global, place: Place, tokens: Tokens<'t>) -> ParseResult<'t, Command>
    ensures tree { FindsTree (IsCommandRest Keyword.If place) Always (λ x. (command_tree x.0, map lexeme x.1.now)) result (map lexeme tokens.now) }
    ensures shorter { IfOk result (λ x. length x.1.now ≤ length tokens.now) }
{
    let after = read!(after_open(tokens));
    let (condition, rest) = read!(test_before(alloc, Mark::Close, None, after));
    let ((then_do, else_do), rest) = read!(branches(alloc, rest));
    let choice = Choice {
        condition,
        then_do,
        else_do,
    };
    let action = Action::If(Box::new(alloc, choice)?);
    Ok((Command { place, action }, rest))
}

// A command and the parenthesis behind it.
#[cycle(command)]
fn separator_before<'t>(alloc: Global, tokens: Tokens<'t>) -> ParseResult<'t, Command>
    ensures tree { FindsTree (IsBefore Mark.Close IsCommand) Always (λ x. (command_tree x.0, map lexeme x.1.now)) result (map lexeme tokens.now) }
    ensures shorter { IfOk result (λ x. length x.1.now ≤ length tokens.now) }
{
    let (between, rest) = read!(command(alloc, tokens));
    match after_mark(Mark::Close, rest) {
        Some(rest) => Ok((between, rest)),
        None => {
            drop(between);
            Err(ParseError::Syntax(rest.len()))
        }
    }
}

// A command or none, the parenthesis, and a block.
#[cycle(command)]
fn loop_end<'t>(alloc: Global, tokens: Tokens<'t>) -> ParseResult<'t, LoopEnd>
    ensures tree { FindsTree IsLoopEnd Always (λ x. ((boxed_separator x.0.0, command_list x.0.1), map lexeme x.1.now)) result (map lexeme tokens.now) }
    ensures shorter { IfOk result (λ x. length x.1.now ≤ length tokens.now) }
{
    if let Some(rest) = after_mark(Mark::Close, tokens) {
        let (body, rest) = read!(block(alloc, rest));
        return Ok(((None, body), rest));
    }
    let Some(after) = after_mark(Mark::Comma, tokens) else {
        return Err(ParseError::Syntax(tokens.len()));
    };
    let (between, rest) = read!(separator_before(alloc, after));
    let between = Box::new(alloc, between)?;
    let (body, rest) = read!(block(alloc, rest));
    Ok(((Some(between), body), rest))
}

// Commands and the END behind them.
#[cycle(command)]
fn block<'t>(alloc: Global, tokens: Tokens<'t>) -> ParseResult<'t, Commands>
    ensures tree { FindsTree IsBlock Always (λ x. (command_list x.0, map lexeme x.1.now)) result (map lexeme tokens.now) }
    ensures shorter { IfOk result (λ x. length x.1.now ≤ length tokens.now) }
{
    let (body, rest) = read!(commands(alloc, tokens));
    match after_word(Keyword::End, rest) {
        Some(rest) => Ok((body, rest)),
        None => Err(ParseError::Syntax(rest.len())),
    }
}

// What stands behind the word of a command that has this place.
#[cycle(command)]
fn command_rest<'t>(
    alloc: Global,
    word: Keyword,
    place: Place,
    tokens: Tokens<'t>,
) -> ParseResult<'t, Command>
    requires word { is_command_word word ≡ true }
    ensures tree { FindsTree (IsCommandRest word place) Always (λ x. (command_tree x.0, map lexeme x.1.now)) result (map lexeme tokens.now) }
    ensures shorter { IfOk result (λ x. length x.1.now ≤ length tokens.now) }
{
    let action = match word {
        Keyword::Space => Action::Space,
        Keyword::Newline => Action::Newline,
        Keyword::Eof => Action::Eof,
        Keyword::Int => return int(alloc, place, tokens),
        Keyword::String => return string(alloc, place, tokens),
        Keyword::Regex => return regex(alloc, place, tokens),
        Keyword::Assert => return assert(alloc, place, tokens),
        Keyword::Set => return set(alloc, place, tokens),
        Keyword::Unset => return unset(alloc, place, tokens),
        Keyword::Rep => return loop_command(alloc, LoopWord::Rep, place, tokens),
        Keyword::RepI => return loop_command(alloc, LoopWord::RepI, place, tokens),
        Keyword::While => return loop_command(alloc, LoopWord::While, place, tokens),
        Keyword::WhileI => return loop_command(alloc, LoopWord::WhileI, place, tokens),
        Keyword::If => return if_command(alloc, place, tokens),
        Keyword::Else
        | Keyword::End
        | Keyword::Strlen
        | Keyword::Match
        | Keyword::IsEof
        | Keyword::Unique
        | Keyword::InArray
        | Keyword::Unknown => return Err(ParseError::Syntax(tokens.len())),
    };
    Ok((Command { place, action }, tokens))
}

// The word of a command at the front with its place, and what follows it.
fn command_word<'t>(tokens: Tokens<'t>) -> Option<(Keyword, Place, Tokens<'t>)>
    ensures found { IfSome result (λ x. map lexeme tokens.now ≡ Lexeme.keyword x.0 x.1 ∷ map lexeme x.2.now) }
    ensures word { IfSome result (λ x. is_command_word x.0 ≡ true) }
    ensures shorter { IfSome result (λ x. length x.2.now < length tokens.now) }
    ensures none { IfNone result (command_begins (map lexeme tokens.now) ≡ false) }
{
    let (word, place, after) = word_at(tokens)?;
    match word {
        Keyword::Else
        | Keyword::End
        | Keyword::Strlen
        | Keyword::Match
        | Keyword::IsEof
        | Keyword::Unique
        | Keyword::InArray
        | Keyword::Unknown => None,
        Keyword::Space
        | Keyword::Newline
        | Keyword::Eof
        | Keyword::Int
        | Keyword::String
        | Keyword::Regex
        | Keyword::Assert
        | Keyword::Set
        | Keyword::Unset
        | Keyword::Rep
        | Keyword::RepI
        | Keyword::While
        | Keyword::WhileI
        | Keyword::If => Some((word, place, after)),
    }
}

/// The command at the front, and what follows it.
#[cycle(command)]
pub(crate) fn command<'t>(alloc: Global, tokens: Tokens<'t>) -> ParseResult<'t, Command>
    ensures tree { FindsTree IsCommand Always (λ x. (command_tree x.0, map lexeme x.1.now)) result (map lexeme tokens.now) }
    ensures shorter { IfOk result (λ x. length x.1.now < length tokens.now) }
{
    match command_word(tokens) {
        Some((word, place, rest)) => command_rest(alloc, word, place, rest),
        None => Err(ParseError::Syntax(tokens.len())),
    }
}

/// The commands at the front, one after the other, and what follows them.
#[cycle(command)]
pub(crate) fn commands<'t>(alloc: Global, tokens: Tokens<'t>) -> ParseResult<'t, Commands>
    ensures tree { FindsTree IsCommands CommandsEnd (λ x. (command_list x.0, map lexeme x.1.now)) result (map lexeme tokens.now) }
    ensures shorter { IfOk result (λ x. length x.1.now ≤ length tokens.now) }
{
    let mut items = Vec::with_capacity(alloc, 4)?;
    // All of them; the borrow checker refuses a loop whose variable begins as the argument itself.
    let (_none, mut rest) = tokens.split_at(0);
    while let Some((word, place, after)) = command_word(rest) {
        let (next, after) = read!(command_rest(alloc, word, place, after));
        items.push(next)?;
        rest = after;
    }
    // One command would keep room for four, and five for eight.
    items.shrink_to_fit();
    Ok((Commands::from_vec(items), rest))
}
