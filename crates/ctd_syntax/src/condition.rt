//! From tokens to tests, by levels and loops (docs/LANGUAGE.md, grammar).
//! Where a reader fails, the trees that were read before it are given to `drop`.

ghost use Rattle.std.specs.Prelude.{◌≡◌, ◌≤◌, ◌<◌, ◌++◌, [], ◌∷◌, ℕ, List, true, false, length, map, drop, IfOk, IfSome, IfNone, Some};
ghost use Rattle.ctd_syntax.specs.Lexeme;
ghost use Rattle.ctd_syntax.specs.Lexeme.{Lexeme};
ghost use Rattle.ctd_program.specs.calls.View.{expr_tree, test_tree};
ghost use Rattle.ctd_syntax.specs.Grammar.{IsTest, IsBoth, IsNegation, IsSimpleTest};
ghost use Rattle.ctd_syntax.specs.inner.Front.{FindsTree, Always, IsBefore, IsName, StartsWith, lexeme};
ghost use Rattle.ctd_syntax.specs.inner.Levels.{ends};
ghost use Rattle.ctd_syntax.specs.inner.TestGrammar.{test_ends, compare_operator, test_keyword, asks, IsTestCall, IsLeft, IsComparison, AreGroups, AreKnownGroups, closes_before_test, role_of, holds_test, is_enough, openings, opens};

use crate::expression::{expr, expr_before};
use crate::front::{ParseError, ParseResult, Tokens, after_mark, after_open, name_at, read};
use crate::keyword::Keyword;
use crate::names::names;
use crate::parser_token::ParserToken;
use ctd_program::{Compare, Expr, Test};
use ctd_token::{Mark, Name};
use std::alloc::{AllocError, Global};

// What a token says of the parentheses that it stands in.
#[derive(Clone, Copy)]
enum TokenRole {
    // They hold a test.
    Tests,
    // Others open.
    Opens,
    // The innermost close.
    Closes,
    // Nothing.
    Keeps,
}

fn role_of(token: &ParserToken<'_>) -> TokenRole
    ensures { result ≡ role_of (lexeme token.now) }
{
    match token {
        ParserToken::Mark(mark) => match mark {
            Mark::Open => TokenRole::Opens,
            Mark::Close => TokenRole::Closes,
            Mark::Bang
            | Mark::Less
            | Mark::Greater
            | Mark::AtMost
            | Mark::AtLeast
            | Mark::Equal
            | Mark::Unequal => TokenRole::Tests,
            _ => TokenRole::Keeps,
        },
        ParserToken::Keyword(keyword, _) => match keyword {
            Keyword::Match | Keyword::IsEof | Keyword::Unique | Keyword::InArray =>
                TokenRole::Tests,
            _ => TokenRole::Keeps,
        },
        _ => TokenRole::Keeps,
    }
}

// How many parentheses stand at the front.
fn opening_len(tokens: &[ParserToken<'_>]) -> usize
    ensures within { result ≤ length tokens.now }
    ensures opening { map lexeme tokens.now ≡ openings result ++ map lexeme (drop result tokens.now) }
    ensures ended { opens (map lexeme (drop result tokens.now)) ≡ false }
{
    let mut n = 0;
    while n < tokens.len() {
        if role_of(&tokens[n]) != TokenRole::Opens {
            return n;
        }
        n += 1;
    }
    n
}

// How many parentheses must stand open before these tokens so that a test comes before they are closed; none where that
// many are not enough.
fn closes_before_test(limit: usize, tokens: &[ParserToken<'_>]) -> Option<usize>
    ensures some { IfSome result (λ n. (n < limit) × (closes_before_test 0 (map lexeme tokens.now) ≡ Some n)) }
    ensures none { IfNone result ((n : ℕ) → n < limit → is_enough n (closes_before_test 0 (map lexeme tokens.now)) ≡ false) }
{
    let mut closed: usize = 0;
    let mut depth: usize = 0;
    let mut n = 0;
    while closed < limit && n < tokens.len() {
        match role_of(&tokens[n]) {
            TokenRole::Tests => return Some(closed),
            TokenRole::Opens => depth += 1,
            TokenRole::Closes => {
                if depth == 0 {
                    closed += 1;
                } else {
                    depth -= 1;
                }
            }
            TokenRole::Keeps => {}
        }
        n += 1;
    }
    None
}

// How many parentheses at the front hold a test, one within the other. One scan tells it of all of them: read anew for
// each, long texts in many parentheses would take long.
fn test_groups(tokens: &[ParserToken<'_>]) -> usize
    ensures { AreGroups result (map lexeme tokens.now) }
{
    let openings = opening_len(tokens);
    match closes_before_test(openings, &tokens[openings..]) {
        Some(closed) => openings - closed,
        None => 0,
    }
}

// The comparison at the front, and what follows it.
fn compare_at<'t>(tokens: Tokens<'t>) -> Option<(Compare, Tokens<'t>)>
    ensures operator { StartsWith compare_operator (λ rest. map lexeme rest.now) result (map lexeme tokens.now) }
    ensures shorter { IfSome result (λ x. length x.1.now < length tokens.now) }
{
    let [first, after @ ..] = tokens else {
        return None;
    };
    match first {
        ParserToken::Mark(Mark::Less) => Some((Compare::Less, after)),
        ParserToken::Mark(Mark::Greater) => Some((Compare::Greater, after)),
        ParserToken::Mark(Mark::AtMost) => Some((Compare::AtMost, after)),
        ParserToken::Mark(Mark::AtLeast) => Some((Compare::AtLeast, after)),
        ParserToken::Mark(Mark::Equal) => Some((Compare::Equal, after)),
        ParserToken::Mark(Mark::Unequal) => Some((Compare::Unequal, after)),
        _ => None,
    }
}

// The word of a test at the front, and what follows it.
fn test_keyword_at<'t>(tokens: Tokens<'t>) -> Option<(Keyword, Tokens<'t>)>
    ensures operator { StartsWith test_keyword (λ rest. map lexeme rest.now) result (map lexeme tokens.now) }
    ensures shorter { IfSome result (λ x. length x.1.now < length tokens.now) }
{
    let [first, after @ ..] = tokens else {
        return None;
    };
    match first {
        ParserToken::Keyword(Keyword::Match, _) => Some((Keyword::Match, after)),
        ParserToken::Keyword(Keyword::IsEof, _) => Some((Keyword::IsEof, after)),
        ParserToken::Keyword(Keyword::Unique, _) => Some((Keyword::Unique, after)),
        ParserToken::Keyword(Keyword::InArray, _) => Some((Keyword::InArray, after)),
        _ => None,
    }
}

// What follows a parenthesis at the front that holds a test, and how many further ones stand there and do. It may be known
// how many do with the first.
fn group_at<'t>(groups: Option<usize>, tokens: Tokens<'t>) -> Option<(usize, Tokens<'t>)>
    requires known { AreKnownGroups groups (map lexeme tokens.now) }
    ensures found { IfSome result (λ x. map lexeme tokens.now ≡ Lexeme.mark Mark.Open ∷ map lexeme x.1.now) }
    ensures holds { IfSome result (λ x. holds_test (Some 0) (map lexeme x.1.now) ≡ true) }
    ensures further { IfSome result (λ x. AreGroups x.0 (map lexeme x.1.now)) }
    ensures shorter { IfSome result (λ x. length x.1.now < length tokens.now) }
    ensures none { IfNone result ((ts : List Lexeme) → map lexeme tokens.now ≡ Lexeme.mark Mark.Open ∷ ts → holds_test (Some 0) ts ≡ false) }
{
    let groups = match groups {
        Some(groups) => groups,
        None => test_groups(tokens),
    };
    if groups == 0 {
        return None;
    }
    let rest = after_mark(Mark::Open, tokens)?;
    Some((groups - 1, rest))
}

// A test in a box, in which a command or another test holds it.
fn boxed(alloc: Global, test: Test) -> Result<Box<Test>, AllocError>
    ensures { IfOk result (λ held. held.value ≡ test) }
{
    Box::new(alloc, test).map_err(AllocError::from)
}

// An expression and the comparison behind it.
fn left_side<'t>(alloc: Global, tokens: Tokens<'t>) -> ParseResult<'t, (Expr, Compare)>
    ensures tree { FindsTree IsLeft Always (λ x. ((expr_tree x.0.0, x.0.1), map lexeme x.1.now)) result (map lexeme tokens.now) }
    ensures shorter { IfOk result (λ x. length x.1.now ≤ length tokens.now) }
{
    let (left, rest) = read!(expr(alloc, tokens));
    match compare_at(rest) {
        Some((by, after)) => Ok(((left, by), after)),
        None => {
            drop(left);
            Err(ParseError::Syntax(rest.len()))
        }
    }
}

// Two expressions with a comparison between them.
fn comparison<'t>(alloc: Global, tokens: Tokens<'t>) -> ParseResult<'t, Box<Test>>
    ensures tree { FindsTree IsComparison (ends 1) (λ x. (test_tree x.0.value, map lexeme x.1.now)) result (map lexeme tokens.now) }
    ensures shorter { IfOk result (λ x. length x.1.now ≤ length tokens.now) }
{
    let ((left, by), rest) = read!(left_side(alloc, tokens));
    match expr(alloc, rest) {
        Ok((right, rest)) => Ok((boxed(alloc, Test::Compare(by, left, right))?, rest)),
        Err(fault) => {
            drop(left);
            Err(fault)
        }
    }
}

// What stands behind MATCH.
fn matches<'t>(alloc: Global, tokens: Tokens<'t>) -> ParseResult<'t, Box<Test>>
    ensures tree { FindsTree (IsTestCall Keyword.Match) Always (λ x. (test_tree x.0.value, map lexeme x.1.now)) result (map lexeme tokens.now) }
    ensures shorter { IfOk result (λ x. length x.1.now ≤ length tokens.now) }
{
    let after = read!(after_open(tokens));
    let (operand, rest) = read!(expr_before(alloc, Mark::Close, after));
    Ok((boxed(alloc, Test::Match(operand))?, rest))
}

// What stands behind UNIQUE.
fn unique<'t>(alloc: Global, tokens: Tokens<'t>) -> ParseResult<'t, Box<Test>>
    ensures tree { FindsTree (IsTestCall Keyword.Unique) Always (λ x. (test_tree x.0.value, map lexeme x.1.now)) result (map lexeme tokens.now) }
    ensures shorter { IfOk result (λ x. length x.1.now ≤ length tokens.now) }
{
    let after = read!(after_open(tokens));
    let (list, rest) = read!(names(alloc, after));
    Ok((boxed(alloc, Test::Unique(list))?, rest))
}

// A name and the parenthesis behind it.
fn last_name<'t>(alloc: Global, tokens: Tokens<'t>) -> ParseResult<'t, Name>
    ensures tree { FindsTree (IsBefore Mark.Close IsName) Always (λ x. (x.0, map lexeme x.1.now)) result (map lexeme tokens.now) }
    ensures shorter { IfOk result (λ x. length x.1.now ≤ length tokens.now) }
{
    let Some((name, number, rest)) = name_at(tokens) else {
        return Err(ParseError::Syntax(tokens.len()));
    };
    let Some(rest) = after_mark(Mark::Close, rest) else {
        return Err(ParseError::Syntax(rest.len()));
    };
    Ok((Name::numbered(alloc, name, number)?, rest))
}

// What stands behind INARRAY.
fn in_array<'t>(alloc: Global, tokens: Tokens<'t>) -> ParseResult<'t, Box<Test>>
    ensures tree { FindsTree (IsTestCall Keyword.InArray) Always (λ x. (test_tree x.0.value, map lexeme x.1.now)) result (map lexeme tokens.now) }
    ensures shorter { IfOk result (λ x. length x.1.now ≤ length tokens.now) }
{
    let after = read!(after_open(tokens));
    let (operand, rest) = read!(expr_before(alloc, Mark::Comma, after));
    match last_name(alloc, rest) {
        Ok((name, rest)) => Ok((boxed(alloc, Test::InArray(operand, name))?, rest)),
        Err(fault) => {
            drop(operand);
            Err(fault)
        }
    }
}

// What stands behind the word of a test.
fn test_call<'t>(alloc: Global, keyword: Keyword, tokens: Tokens<'t>) -> ParseResult<'t, Box<Test>>
    requires asks { asks keyword ≡ true }
    ensures tree { FindsTree (IsTestCall keyword) Always (λ x. (test_tree x.0.value, map lexeme x.1.now)) result (map lexeme tokens.now) }
    ensures shorter { IfOk result (λ x. length x.1.now ≤ length tokens.now) }
{
    match keyword {
        Keyword::Match => matches(alloc, tokens),
        Keyword::IsEof => Ok((boxed(alloc, Test::IsEof)?, tokens)),
        Keyword::Unique => unique(alloc, tokens),
        Keyword::InArray => in_array(alloc, tokens),
        _ => Err(ParseError::Syntax(tokens.len())),
    }
}

/// The test at the front, and what follows it. It may be known how many parentheses there hold a test.
#[cycle(condition)]
pub(crate) fn test<'t>(
    alloc: Global,
    groups: Option<usize>,
    tokens: Tokens<'t>,
) -> ParseResult<'t, Box<Test>>
    requires known { AreKnownGroups groups (map lexeme tokens.now) }
    ensures tree { FindsTree IsTest (test_ends 1) (λ x. (test_tree x.0.value, map lexeme x.1.now)) result (map lexeme tokens.now) }
    ensures shorter { IfOk result (λ x. length x.1.now ≤ length tokens.now) }
{
    let (mut left, mut rest) = read!(both(alloc, groups, tokens));
    while let Some(after) = after_mark(Mark::OrOr, rest) {
        match both(alloc, None, after) {
            Ok((right, after)) => {
                left = boxed(alloc, Test::Or(left, right))?;
                rest = after;
            }
            Err(fault) => {
                drop(left);
                return Err(fault);
            }
        }
    }
    Ok((left, rest))
}

#[cycle(condition)]
fn both<'t>(alloc: Global, groups: Option<usize>, tokens: Tokens<'t>) -> ParseResult<'t, Box<Test>>
    requires known { AreKnownGroups groups (map lexeme tokens.now) }
    ensures tree { FindsTree IsBoth (test_ends 2) (λ x. (test_tree x.0.value, map lexeme x.1.now)) result (map lexeme tokens.now) }
    ensures shorter { IfOk result (λ x. length x.1.now ≤ length tokens.now) }
{
    let (mut left, mut rest) = read!(negation(alloc, groups, tokens));
    while let Some(after) = after_mark(Mark::AndAnd, rest) {
        match negation(alloc, None, after) {
            Ok((right, after)) => {
                left = boxed(alloc, Test::And(left, right))?;
                rest = after;
            }
            Err(fault) => {
                drop(left);
                return Err(fault);
            }
        }
    }
    Ok((left, rest))
}

#[cycle(condition)]
fn negation<'t>(
    alloc: Global,
    groups: Option<usize>,
    tokens: Tokens<'t>,
) -> ParseResult<'t, Box<Test>>
    requires known { AreKnownGroups groups (map lexeme tokens.now) }
    ensures tree { FindsTree IsNegation (ends 1) (λ x. (test_tree x.0.value, map lexeme x.1.now)) result (map lexeme tokens.now) }
    ensures shorter { IfOk result (λ x. length x.1.now ≤ length tokens.now) }
{
    match after_mark(Mark::Bang, tokens) {
        Some(after) => {
            let (operand, rest) = read!(negation(alloc, None, after));
            Ok((boxed(alloc, Test::Not(operand))?, rest))
        }
        None => simple_test(alloc, groups, tokens),
    }
}

#[cycle(condition)]
fn simple_test<'t>(
    alloc: Global,
    groups: Option<usize>,
    tokens: Tokens<'t>,
) -> ParseResult<'t, Box<Test>>
    requires known { AreKnownGroups groups (map lexeme tokens.now) }
    ensures tree { FindsTree IsSimpleTest (ends 1) (λ x. (test_tree x.0.value, map lexeme x.1.now)) result (map lexeme tokens.now) }
    ensures shorter { IfOk result (λ x. length x.1.now ≤ length tokens.now) }
{
    if let Some((keyword, rest)) = test_keyword_at(tokens) {
        return test_call(alloc, keyword, rest);
    }
    if let Some((further, rest)) = group_at(groups, tokens) {
        return test_before(alloc, Mark::Close, Some(further), rest);
    }
    comparison(alloc, tokens)
}

/// The test at the front and a mark behind it, and what follows the mark. It may be known how many parentheses there
/// hold a test.
#[cycle(condition)]
pub(crate) fn test_before<'t>(
    alloc: Global,
    mark: Mark,
    groups: Option<usize>,
    tokens: Tokens<'t>,
) -> ParseResult<'t, Box<Test>>
    requires ends { test_ends 1 (Lexeme.mark mark ∷ []) }
    requires known { AreKnownGroups groups (map lexeme tokens.now) }
    ensures tree { FindsTree (IsBefore mark IsTest) Always (λ x. (test_tree x.0.value, map lexeme x.1.now)) result (map lexeme tokens.now) }
    ensures shorter { IfOk result (λ x. length x.1.now ≤ length tokens.now) }
{
    let (read, rest) = read!(test(alloc, groups, tokens));
    match after_mark(mark, rest) {
        Some(rest) => Ok((read, rest)),
        None => {
            drop(read);
            Err(ParseError::Syntax(rest.len()))
        }
    }
}
