//! Expressions that are one tree.

ghost use Rattle.std.specs.Prelude.{◌≡◌, IsTrue};
ghost use Rattle.ctd_program.specs.calls.View.{expr_list, expr_tree, exprs_of};

use ctd_program::{Element, Expr};

/// Whether two expressions are one tree.
#[cycle(same)]
pub(crate) fn is_same(a: &Expr, b: &Expr) -> bool
    ensures one_tree { IsTrue result → expr_tree a.now ≡ expr_tree b.now }
{
    match a {
        Expr::Numeral(n) => matches!(b, Expr::Numeral(m) if n.value() == m.value()),
        Expr::Text(text) => matches!(b, Expr::Text(other) if text.as_slice() == other.as_slice()),
        Expr::Name(name) => matches!(b, Expr::Name(other) if name.as_slice() == other.as_slice()),
        Expr::Element(x) => matches!(b, Expr::Element(y) if is_same_element(x, y)),
        Expr::Strlen(x) => matches!(b, Expr::Strlen(y) if is_same(x, y)),
        Expr::Minus(x) => matches!(b, Expr::Minus(y) if is_same(x, y)),
        Expr::Add(x, y) => matches!(b, Expr::Add(u, v) if is_same(x, u) && is_same(y, v)),
        Expr::Sub(x, y) => matches!(b, Expr::Sub(u, v) if is_same(x, u) && is_same(y, v)),
        Expr::Mul(x, y) => matches!(b, Expr::Mul(u, v) if is_same(x, u) && is_same(y, v)),
        Expr::Div(x, y) => matches!(b, Expr::Div(u, v) if is_same(x, u) && is_same(y, v)),
        Expr::Rem(x, y) => matches!(b, Expr::Rem(u, v) if is_same(x, u) && is_same(y, v)),
        Expr::Pow(x, y) => matches!(b, Expr::Pow(u, v) if is_same(x, u) && is_same(y, v)),
    }
}

/// Whether two elements are one tree.
#[cycle(same)]
fn is_same_element(a: &Element, b: &Element) -> bool
    ensures one_name { IsTrue result → a.now.name ≡ b.now.name }
    ensures one_list { IsTrue result → expr_list (exprs_of a.now.indices) ≡ expr_list (exprs_of b.now.indices) }
{
    a.name.as_slice() == b.name.as_slice() && are_same(a.indices.as_slice(), b.indices.as_slice())
}

/// Whether expressions are, one after the other.
#[cycle(same)]
fn are_same(a: &[Expr], b: &[Expr]) -> bool
    ensures one_list { IsTrue result → expr_list a.now ≡ expr_list b.now }
{
    let mut left = b;
    for x in a {
        match left {
            [y, rest @ ..] if is_same(x, y) => left = rest,
            _ => return false,
        }
    }
    left.is_empty()
}

/// Whether a variable stands in an expression.
pub(crate) fn has_variable(e: &Expr) -> bool {
    match e {
        Expr::Name(_) | Expr::Element(_) => true,
        Expr::Numeral(_) | Expr::Text(_) => false,
        Expr::Strlen(e) | Expr::Minus(e) => has_variable(e),
        Expr::Add(a, b) | Expr::Sub(a, b) | Expr::Mul(a, b) => has_variable(a) || has_variable(b),
        Expr::Div(a, b) | Expr::Rem(a, b) | Expr::Pow(a, b) => has_variable(a) || has_variable(b),
    }
}
