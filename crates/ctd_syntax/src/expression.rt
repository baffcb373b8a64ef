//! From tokens to expressions, by levels and loops (docs/LANGUAGE.md, grammar).
//! Where a reader fails, the trees that were read before it are given to `drop`.

ghost use Rattle.std.specs.Prelude.{◌≡◌, ◌≤◌, ◌<◌, true, length, map, IfOk, IfSome};
ghost use Rattle.ctd_program.specs.Tree;
ghost use Rattle.ctd_program.specs.calls.View.{expr_tree, expr_list, exprs_of, var_tree};
ghost use Rattle.ctd_syntax.specs.Grammar.{IsExpr, IsProduct, IsSigned, IsPower, IsAtom, IsExprs, IsTarget};
ghost use Rattle.ctd_syntax.specs.inner.Front.{FindsTree, HasTree, Always, IsBefore, StartsWith, lexeme};
ghost use Rattle.ctd_syntax.specs.inner.Levels.{binding, ends, sum_operator, product_operator, join};
ghost use Rattle.ctd_syntax.specs.Lexeme;

use crate::front::{ParseError, ParseResult, Tokens, after_mark, name_at, read};
use crate::keyword::Keyword;
use crate::parser_token::{ParserToken, string_of};
use ctd_program::{Element, Expr, Exprs, Numeral, Var};
use ctd_token::{Mark, Name};
use std::alloc::{AllocError, Global};

// The operators that join two expressions.
#[derive(Clone, Copy)]
pub(crate) enum Operator {
    Add,
    Sub,
    Mul,
    Div,
    Rem,
}

fn join(alloc: Global, operator: Operator, left: Expr, right: Expr) -> Result<Expr, AllocError>
    ensures { IfOk result (λ e. expr_tree e ≡ join operator (expr_tree left) (expr_tree right)) }
{
    let left = Box::new(alloc, left)?;
    let right = Box::new(alloc, right)?;
    Ok(match operator {
        Operator::Add => Expr::Add(left, right),
        Operator::Sub => Expr::Sub(left, right),
        Operator::Mul => Expr::Mul(left, right),
        Operator::Div => Expr::Div(left, right),
        Operator::Rem => Expr::Rem(left, right),
    })
}

// The operator of a sum at the front, and what follows it.
fn sum_operator<'t>(tokens: Tokens<'t>) -> Option<(Operator, Tokens<'t>)>
    ensures operator { StartsWith sum_operator (λ rest. map lexeme rest.now) result (map lexeme tokens.now) }
    ensures shorter { IfSome result (λ x. length x.1.now < length tokens.now) }
{
    let [first, after @ ..] = tokens else {
        return None;
    };
    match first {
        ParserToken::Mark(Mark::Plus) => Some((Operator::Add, after)),
        ParserToken::Mark(Mark::Minus) => Some((Operator::Sub, after)),
        _ => None,
    }
}

// The operator of a product at the front, and what follows it.
fn product_operator<'t>(tokens: Tokens<'t>) -> Option<(Operator, Tokens<'t>)>
    ensures operator { StartsWith product_operator (λ rest. map lexeme rest.now) result (map lexeme tokens.now) }
    ensures shorter { IfSome result (λ x. length x.1.now < length tokens.now) }
{
    let [first, after @ ..] = tokens else {
        return None;
    };
    match first {
        ParserToken::Mark(Mark::Times) => Some((Operator::Mul, after)),
        ParserToken::Mark(Mark::Divide) => Some((Operator::Div, after)),
        ParserToken::Mark(Mark::Percent) => Some((Operator::Rem, after)),
        _ => None,
    }
}

// Whether a product ends before these tokens.
fn ends_product(tokens: &[ParserToken<'_>]) -> bool
    ensures { result ≡ true → ends 2 (map lexeme tokens.now) }
{
    !matches!(
        tokens.first(),
        Some(ParserToken::Mark(
            Mark::Times | Mark::Divide | Mark::Percent | Mark::Caret | Mark::OpenIndex
        ))
    )
}

// The product at the front and what follows it, where it is one token, a numeral or a name. Most expressions are: no level below is asked.
#[inline(always)]
fn single_token<'t>(
    alloc: Global,
    tokens: Tokens<'t>,
) -> Result<Option<(Expr, Tokens<'t>)>, AllocError>
    ensures tree { IfOk result (λ found. IfSome found (λ x. HasTree IsProduct (ends 2) (map lexeme tokens.now) (expr_tree x.0) (map lexeme x.1.now))) }
    ensures shorter { IfOk result (λ found. IfSome found (λ x. length x.1.now ≤ length tokens.now)) }
{
    let Some((first, rest)) = tokens.split_first() else {
        return Ok(None);
    };
    if !ends_product(rest) {
        return Ok(None);
    }
    match first {
        ParserToken::Numeral(n) => {
            let numeral = Numeral::new(*n);
            Ok(Some((Expr::Numeral(numeral), rest)))
        }
        ParserToken::Name(name, number) => {
            let name = Name::numbered(alloc, name, *number)?;
            Ok(Some((Expr::Name(name), rest)))
        }
        _ => Ok(None),
    }
}

/// The expression at the front, and what follows it.
#[cycle(expression)]
pub(crate) fn expr<'t>(alloc: Global, tokens: Tokens<'t>) -> ParseResult<'t, Expr>
    ensures tree { FindsTree IsExpr (ends 1) (λ x. (expr_tree x.0, map lexeme x.1.now)) result (map lexeme tokens.now) }
    ensures shorter { IfOk result (λ x. length x.1.now ≤ length tokens.now) }
{
    let (mut left, mut rest) = read!(product(alloc, tokens));
    while let Some((operator, after)) = sum_operator(rest) {
        match product(alloc, after) {
            Ok((right, after)) => {
                left = join(alloc, operator, left, right)?;
                rest = after;
            }
            Err(fault) => {
                drop(left);
                return Err(fault);
            }
        }
    }
    Ok((left, rest))
}

#[cycle(expression)]
fn product<'t>(alloc: Global, tokens: Tokens<'t>) -> ParseResult<'t, Expr>
    ensures tree { FindsTree IsProduct (ends 2) (λ x. (expr_tree x.0, map lexeme x.1.now)) result (map lexeme tokens.now) }
    ensures shorter { IfOk result (λ x. length x.1.now ≤ length tokens.now) }
{
    if let Some(read) = single_token(alloc, tokens)? {
        return Ok(read);
    }
    let (mut left, mut rest) = read!(signed(alloc, tokens));
    while let Some((operator, after)) = product_operator(rest) {
        match signed(alloc, after) {
            Ok((right, after)) => {
                left = join(alloc, operator, left, right)?;
                rest = after;
            }
            Err(fault) => {
                drop(left);
                return Err(fault);
            }
        }
    }
    Ok((left, rest))
}

#[cycle(expression)]
fn signed<'t>(alloc: Global, tokens: Tokens<'t>) -> ParseResult<'t, Expr>
    ensures tree { FindsTree IsSigned (ends 3) (λ x. (expr_tree x.0, map lexeme x.1.now)) result (map lexeme tokens.now) }
    ensures shorter { IfOk result (λ x. length x.1.now ≤ length tokens.now) }
{
    match after_mark(Mark::Minus, tokens) {
        Some(after) => {
            let (operand, rest) = read!(signed(alloc, after));
            Ok((Expr::Minus(Box::new(alloc, operand)?), rest))
        }
        None => power(alloc, tokens),
    }
}

#[cycle(expression)]
fn power<'t>(alloc: Global, tokens: Tokens<'t>) -> ParseResult<'t, Expr>
    ensures tree { FindsTree IsPower (ends 3) (λ x. (expr_tree x.0, map lexeme x.1.now)) result (map lexeme tokens.now) }
    ensures shorter { IfOk result (λ x. length x.1.now ≤ length tokens.now) }
{
    let (base, rest) = read!(atom(alloc, tokens));
    match after_mark(Mark::Caret, rest) {
        Some(after) => {
            let base = Box::new(alloc, base)?;
            // An exponent may have minus signs, as what is signed.
            let (exponent, rest) = read!(signed(alloc, after));
            let exponent = Box::new(alloc, exponent)?;
            Ok((Expr::Pow(base, exponent), rest))
        }
        None => Ok((base, rest)),
    }
}

// An expression and the parenthesis behind it.
#[cycle(expression)]
fn parenthesized<'t>(alloc: Global, tokens: Tokens<'t>) -> ParseResult<'t, Expr>
    ensures tree { FindsTree (IsBefore Mark.Close IsExpr) Always (λ x. (expr_tree x.0, map lexeme x.1.now)) result (map lexeme tokens.now) }
    ensures shorter { IfOk result (λ x. length x.1.now ≤ length tokens.now) }
{
    let (inner, rest) = read!(expr(alloc, tokens));
    match after_mark(Mark::Close, rest) {
        Some(rest) => Ok((inner, rest)),
        None => {
            drop(inner);
            Err(ParseError::Syntax(rest.len()))
        }
    }
}

#[cycle(expression)]
fn atom<'t>(alloc: Global, tokens: Tokens<'t>) -> ParseResult<'t, Expr>
    ensures tree { FindsTree IsAtom (ends 4) (λ x. (expr_tree x.0, map lexeme x.1.now)) result (map lexeme tokens.now) }
    ensures shorter { IfOk result (λ x. length x.1.now ≤ length tokens.now) }
{
    let Some((first, rest)) = tokens.split_first() else {
        return Err(ParseError::Syntax(0));
    };
    match first {
        ParserToken::Numeral(n) => {
            let numeral = Numeral::new(*n);
            Ok((Expr::Numeral(numeral), rest))
        }
        ParserToken::Text(_, literal, _) => {
            let bytes = string_of(alloc, literal)?;
            Ok((Expr::Text(bytes), rest))
        }
        ParserToken::Name(_, _) => {
            let (var, rest) = read!(variable(alloc, tokens));
            Ok((value_of(alloc, var)?, rest))
        }
        ParserToken::Keyword(Keyword::Strlen, _) => match after_mark(Mark::Open, rest) {
            Some(rest) => {
                let (inner, rest) = read!(parenthesized(alloc, rest));
                Ok((Expr::Strlen(Box::new(alloc, inner)?), rest))
            }
            None => Err(ParseError::Syntax(rest.len())),
        },
        ParserToken::Mark(Mark::Open) => parenthesized(alloc, rest),
        _ => Err(ParseError::Syntax(tokens.len())),
    }
}

// The value of a variable.
fn value_of(alloc: Global, var: Var) -> Result<Expr, AllocError>
    ensures { IfOk result (λ e. expr_tree e ≡ Tree.variable var.name (expr_list (exprs_of var.indices))) }
{
    let Var { name, indices } = var;
    if indices.as_slice().is_empty() {
        return Ok(Expr::Name(name));
    }
    let element = Box::new(alloc, Element { name, indices })?;
    Ok(Expr::Element(element))
}

/// The variable at the front, and what follows it.
#[cycle(expression)]
pub(crate) fn variable<'t>(alloc: Global, tokens: Tokens<'t>) -> ParseResult<'t, Var>
    ensures tree { FindsTree IsTarget (ends 4) (λ x. (var_tree x.0, map lexeme x.1.now)) result (map lexeme tokens.now) }
    ensures shorter { IfOk result (λ x. length x.1.now ≤ length tokens.now) }
{
    let Some((name, number, rest)) = name_at(tokens) else {
        return Err(ParseError::Syntax(tokens.len()));
    };
    let name = Name::numbered(alloc, name, number)?;
    match after_mark(Mark::OpenIndex, rest) {
        Some(after) => {
            let (indices, rest) = read!(indices(alloc, after));
            Ok((Var { name, indices }, rest))
        }
        None => {
            let indices = Exprs::from_vec(Vec::new(alloc));
            Ok((Var { name, indices }, rest))
        }
    }
}

/// The expression at the front and a mark behind it, and what follows the mark.
pub(crate) fn expr_before<'t>(
    alloc: Global,
    mark: Mark,
    tokens: Tokens<'t>,
) -> ParseResult<'t, Expr>
    requires ends { binding (Lexeme.mark mark) ≡ 0 }
    ensures tree { FindsTree (IsBefore mark IsExpr) Always (λ x. (expr_tree x.0, map lexeme x.1.now)) result (map lexeme tokens.now) }
    ensures shorter { IfOk result (λ x. length x.1.now ≤ length tokens.now) }
{
    let (read, rest) = read!(expr(alloc, tokens));
    match after_mark(mark, rest) {
        Some(rest) => Ok((read, rest)),
        None => {
            drop(read);
            Err(ParseError::Syntax(rest.len()))
        }
    }
}

// Expressions with commas between them, and the bracket behind them.
#[cycle(expression)]
fn indices<'t>(alloc: Global, tokens: Tokens<'t>) -> ParseResult<'t, Exprs>
    ensures tree { FindsTree (IsBefore Mark.CloseIndex IsExprs) Always (λ x. (expr_list (exprs_of x.0), map lexeme x.1.now)) result (map lexeme tokens.now) }
    ensures shorter { IfOk result (λ x. length x.1.now ≤ length tokens.now) }
{
    let mut items = Vec::with_capacity(alloc, 1)?;
    // All of them; the borrow checker refuses a loop whose variable begins as the argument itself.
    let (_none, mut left) = tokens.split_at(0);
    loop {
        let (next, rest) = read!(expr(alloc, left));
        items.push(next)?;
        if let Some(after) = after_mark(Mark::Comma, rest) {
            left = after;
        } else {
            let Some(rest) = after_mark(Mark::CloseIndex, rest) else {
                return Err(ParseError::Syntax(rest.len()));
            };
            return Ok((Exprs::from_vec(items), rest));
        }
    }
}
