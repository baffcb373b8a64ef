//! What is at hand: literals, names, and names plus or minus a literal. To look at them needs no call.

ghost use Rattle.std.specs.Int.{w64};
ghost use Rattle.std.specs.Prelude.{◌≡◌, ℤ, pos, true, is_some, FitsSigned, Ok, IfSome};
ghost use Rattle.ctd_program.specs.Tree;
ghost use Rattle.ctd_program.specs.calls.View.{expr_tree};
ghost use Rattle.ctd_store.specs.Store.{Bindings};
ghost use Rattle.ctd_store.specs.declared.value.Value.TheVariants as values;
ghost use Rattle.ctd_value.specs.Val.{val};

use ctd_program::Expr;
use ctd_store::Store;

/// The number of a numeral, where it has 64 bits. `None` means: take the general path.
#[inline(always)]
pub(crate) fn fast_numeral(e: &Expr) -> Option<i64>
    ensures value { IfSome result (λ n. expr_tree e.now ≡ Tree.numeral n) }
    ensures numeral { (n : ℤ) → e.now ≡ Expr.Numeral n → FitsSigned w64 n → is_some result ≡ true }
{
    match e {
        Expr::Numeral(n) if n.is_narrow() => Some(n.narrow()),
        _ => None,
    }
}

/// The number of 64 bits that a literal is, behind a minus or none. `None` means: take the general path.
#[inline(always)]
pub fn literal_number(e: &Expr) -> Option<i64>
    ensures value { IfSome result (λ n. (h : Bindings) → val (expr_tree e.now) h ≡ Ok (values.Int n)) }
    ensures numeral { (n : ℤ) → e.now ≡ Expr.Numeral n → FitsSigned w64 n → is_some result ≡ true }
{
    if let Some(n) = fast_numeral(e) {
        return Some(n);
    }
    if let Expr::Minus(size) = e {
        let n = fast_numeral(size)?.checked_neg()?;
        return Some(n);
    }
    None
}

/// The value of a name, where it is a number of 64 bits. It calls nothing. `None` means: take the general path.
#[inline(always)]
fn fast_name(e: &Expr, store: &Store) -> Option<i64>
    ensures value { IfSome result (λ n. val (expr_tree e.now) store.now ≡ Ok (values.Int n)) }
{
    match e {
        Expr::Name(name) => store.fast_number(name),
        _ => None,
    }
}

/// A number as an index, where it is not below 0.
#[inline(always)]
pub(crate) fn index_of(n: i64) -> Option<usize>
    ensures value { IfSome result (λ at. n ≡ pos at) }
{
    if n < 0 { None } else { Some(n as usize) }
}

/// The value of an index that is a name, where it is a number that is not below 0 and has 64 bits. It calls nothing. `None` means: take the
/// general path.
#[inline(always)]
pub(crate) fn fast_name_index(e: &Expr, store: &Store) -> Option<usize>
    ensures value { IfSome result (λ n. val (expr_tree e.now) store.now ≡ Ok (values.Int (pos n))) }
{
    index_of(fast_name(e, store)?)
}

/// The value of an index that is a name, or a name plus or minus a literal, where it is a number that is not below 0 and has 64 bits. It
/// calls nothing. `None` means: take the general path.
#[inline(always)]
pub(crate) fn fast_near_index(e: &Expr, store: &Store) -> Option<usize>
    ensures value { IfSome result (λ n. val (expr_tree e.now) store.now ≡ Ok (values.Int (pos n))) }
{
    match e {
        Expr::Add(a, b) => {
            let n = fast_numeral(b)?;
            index_of(fast_name(a, store)?.checked_add(n)?)
        }
        Expr::Sub(a, b) => {
            let n = fast_numeral(b)?;
            index_of(fast_name(a, store)?.checked_sub(n)?)
        }
        _ => fast_name_index(e, store),
    }
}
