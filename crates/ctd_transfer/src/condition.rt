//! The state where a test is true, and where it is false.

ghost use Rattle.std.specs.Prelude.{◌≡◌, List, ℕ, ℤ, true, false, Result, IfOk};
ghost use Rattle.ctd_program.specs.calls.View.{expr_tree, test_tree};
ghost use Rattle.ctd_program.specs.declared.tree.Compare.{Compare};
ghost use Rattle.ctd_store.specs.declared.value.Value.{Value};
ghost use Rattle.ctd_outcome.specs.declared.reason.Fault.{Fault};
ghost use Rattle.ctd_value.specs.Truth.{compares, holds_by};
ghost use Rattle.ctd_store.specs.Order.{bytes_cmp};
ghost use Rattle.ctd_program.specs.Tree;
ghost use Rattle.ctd_store.specs.declared.value.Value.TheVariants as values;
ghost use Rattle.ctd_states.specs.calls.States.{MayBe};
ghost use Rattle.ctd_transfer.specs.calls.Results.{FailsBy, IsPossible};
ghost use Rattle.ctd_transfer.specs.inner.Compared.{IsWhereSo};
ghost use Rattle.ctd_transfer.specs.inner.Splits.{AreAlike, AreAllAlike, AreOne, AreSame, AreSameWith, HaveOneShape, HitsArray, SplitsBy, UniqueFailsBy};

use crate::cut::{cut_both, expect_value};
use crate::expression::{Evaluation, evaluate};
use crate::result::{PossibleResult, may_be_number, may_be_text, text_alone, text_faults};
use ctd_element_changes::have_one_shape;
use ctd_elements::Limits;
use ctd_limits::as_limits;
use ctd_partitions::{State, compared, copy_of_state, hit, make_unreachable, view_of};
use ctd_program::{Compare, Expr, Test};
use ctd_range::opposite_of;
use ctd_states::{
    Blame, Context, Faults, NO_BLAME, PossibleValues, Stop, index_of, no_faults, union,
};
use ctd_token::Name;
use std::alloc::Global;
use std::cmp::Ordering;

/// The state where a test is true, and where it is false, and the faults that it may have.
#[derive(Drop)]
pub(crate) struct SplitState {
    pub(crate) if_true: State,
    pub(crate) if_false: State,
    pub(crate) faults: Faults,
}

/// The state stays the same whatever a test gives.
fn same(alloc: Global, state: &State, faults: Faults) -> Result<SplitState, Stop>
    ensures { IfOk result (λ s. AreSame state.now faults s) }
{
    let if_true = copy_of_state(alloc, state)?;
    let if_false = copy_of_state(alloc, state)?;
    Ok(SplitState {
        if_true,
        if_false,
        faults,
    })
}

/// The same of a test that looks at one of some values: where there is none, no run comes.
fn same_with(
    alloc: Global,
    possible: PossibleValues,
    state: &State,
    faults: Faults,
) -> Result<SplitState, Stop>
    ensures { IfOk result (λ s. AreSameWith possible state.now faults s) }
{
    let mut split = same(alloc, state, faults)?;
    expect_value(possible, &mut split.if_true);
    expect_value(possible, &mut split.if_false);
    Ok(split)
}

/// Whether both are so.
fn are_both(p: bool, q: bool) -> bool
    ensures { p ≡ true → q ≡ true → result ≡ true }
{
    p & q
}

/// Whether one at least is so.
fn is_either(p: bool, q: bool) -> bool
    ensures first { p ≡ true → result ≡ true }
    ensures second { q ≡ true → result ≡ true }
{
    p | q
}

/// Whether of two values one may be a number and the other a string.
fn may_mix(a: PossibleValues, b: PossibleValues) -> bool
    ensures number { (k : ℕ) (x : ℤ) (bytes : List ℕ) → MayBe a k (values.Int x) → MayBe b k (values.Text bytes) → result ≡ true }
    ensures text { (k : ℕ) (bytes : List ℕ) (x : ℤ) → MayBe a k (values.Text bytes) → MayBe b k (values.Int x) → result ≡ true }
{
    let number_first = are_both(may_be_number(a), may_be_text(b));
    let text_first = are_both(may_be_text(a), may_be_number(b));
    is_either(number_first, text_first)
}

/// The faults of a comparison of what two expressions may give.
fn compare_faults(a: PossibleResult, b: PossibleResult) -> Faults
    ensures { (by : Compare) (k : ℕ) (left right : Result Value Fault) → IsPossible a k left → IsPossible b k right → FailsBy result (compares by left right) }
{
    let wrong_type = may_mix(a.values, b.values);
    let operand = if wrong_type {
        a.operand.or(b.operand)
    } else {
        None
    };
    let blame = Blame {
        wrong_type: operand,
        ..NO_BLAME
    };
    let mixed = Faults {
        wrong_type,
        blame,
        ..no_faults()
    };
    union(union(a.faults, b.faults), mixed)
}

/// Whether two arrays surely have values at the same indices.
fn are_alike(context: Context, state: &State, name: &Name, other: &Name) -> bool
    ensures { result ≡ true → AreAlike context.entry state.now name.now other.now }
{
    let view = view_of(context, state);
    let array = index_of(context.names, view.entries, name.as_slice());
    let compared = index_of(context.names, view.entries, other.as_slice());
    match (array, compared) {
        (Some(i), Some(j)) => have_one_shape(view, i, j),
        _ => false,
    }
}

/// Whether an array and others surely have values at the same indices.
fn are_all_alike(context: Context, state: &State, name: &Name, others: &[Name]) -> bool
    ensures { result ≡ true → AreAllAlike context.entry state.now name.now others.now }
{
    for other in others {
        if !are_alike(context, state, name, other) {
            return false;
        }
    }
    true
}

/// Whether arrays may have values at different indices.
fn may_differ(context: Context, state: &State, names: &[Name]) -> bool
    ensures { result ≡ false → HaveOneShape context.entry state.now names.now }
{
    match names {
        [name, others @ ..] => !are_all_alike(context, state, name, others),
        [] => false,
    }
}

/// The faults of UNIQUE.
fn shape_faults(context: Context, state: &State, names: &[Name]) -> Faults
    ensures { UniqueFailsBy context.entry state.now names.now result }
{
    Faults {
        shape: may_differ(context, state, names),
        ..no_faults()
    }
}

/// Whether a comparison holds of two that compare so.
fn holds_by(by: Compare, order: Ordering) -> bool
    ensures { result ≡ holds_by by order }
{
    match by {
        Compare::Less => order.is_lt(),
        Compare::Greater => order.is_gt(),
        Compare::AtMost => order.is_le(),
        Compare::AtLeast => order.is_ge(),
        Compare::Equal => order.is_eq(),
        Compare::Unequal => order.is_ne(),
    }
}

/// The state where a comparison of two literal strings is true, and where it is false: one of the two is unreachable.
fn compare_literals(
    alloc: Global,
    by: Compare,
    a: &[u8],
    b: &[u8],
    state: &State,
) -> Result<SplitState, Stop>
    ensures { IfOk result (λ s. AreOne state.now (holds_by by (bytes_cmp a.now b.now)) s) }
{
    let mut split = same(alloc, state, no_faults())?;
    if holds_by(by, a.cmp(b)) {
        make_unreachable(&mut split.if_false);
    } else {
        make_unreachable(&mut split.if_true);
    }
    Ok(split)
}

/// One side of a comparison, and what it may give.
#[derive(Clone, Copy)]
struct Side<'e> {
    expression: &'e Expr,
    value: &'e Evaluation,
}

/// The state where two sides compare so.
fn where_so(context: Context, state: &State, by: Compare, a: Side, b: Side) -> Result<State, Stop>
    ensures { IfOk result (λ after. IsWhereSo context.entry state.now by (expr_tree a.entry.expression.now) (expr_tree b.entry.expression.now) a.entry.value.now b.entry.value.now after) }
{
    let one = a.value.found.values;
    let other = b.value.found.values;
    let narrowed = cut_both(context, state, by, a.expression, b.expression, one, other)?;
    if is_either(may_be_text(one), may_be_text(other)) {
        return Ok(narrowed);
    }
    let left = as_limits(&a.value.limits);
    let right = as_limits(&b.value.limits);
    compared(context, &narrowed, by, left, right)
}

/// The state where a comparison is true, and where it is false.
fn compare(
    context: Context,
    by: Compare,
    a: &Expr,
    b: &Expr,
    state: &State,
) -> Result<SplitState, Stop>
    ensures { IfOk result (λ s. SplitsBy context.entry state.now (Tree.compare by (expr_tree a.now) (expr_tree b.now)) s.if_true s.if_false s.faults) }
{
    if let (Expr::Text(text), Expr::Text(other)) = (a, b) {
        return compare_literals(context.alloc, by, text.as_slice(), other.as_slice(), state);
    }
    let one = evaluate(a, context, state)?;
    let other = evaluate(b, context, state)?;
    let left = Side {
        expression: a,
        value: &one,
    };
    let right = Side {
        expression: b,
        value: &other,
    };
    let if_true = where_so(context, state, by, left, right)?;
    let if_false = where_so(context, state, opposite_of(by), left, right)?;
    Ok(SplitState {
        if_true,
        if_false,
        faults: compare_faults(one.found, other.found),
    })
}

/// The state where an expression matches the data, and where it does not.
fn split_match(context: Context, e: &Expr, state: &State) -> Result<SplitState, Stop>
    ensures { IfOk result (λ s. SplitsBy context.entry state.now (Tree.matches (expr_tree e.now)) s.if_true s.if_false s.faults) }
{
    let wanted = evaluate(e, context, state)?;
    same_with(
        context.alloc,
        text_alone(wanted.found.values),
        state,
        text_faults(wanted.found),
    )
}

/// The state where a value, of which something is known, is one of an array.
fn where_hit(context: Context, state: &State, limits: Limits, name: &Name) -> Result<State, Stop>
    ensures { IfOk result (λ after. HitsArray context.entry state.now limits.entry name.now after) }
{
    match index_of(context.names, state.entries.as_slice(), name.as_slice()) {
        Some(array) => hit(context, state, limits, array),
        None => Err(Stop::GaveUp),
    }
}

/// The state where an expression has a value of an array, and where it does not.
fn split_search(context: Context, e: &Expr, name: &Name, state: &State) -> Result<SplitState, Stop>
    ensures { IfOk result (λ s. SplitsBy context.entry state.now (Tree.in_array (expr_tree e.now) name.now) s.if_true s.if_false s.faults) }
{
    let wanted = evaluate(e, context, state)?;
    let mut if_true = where_hit(context, state, as_limits(&wanted.limits), name)?;
    let mut if_false = copy_of_state(context.alloc, state)?;
    expect_value(wanted.found.values, &mut if_true);
    expect_value(wanted.found.values, &mut if_false);
    Ok(SplitState {
        if_true,
        if_false,
        faults: wanted.found.faults,
    })
}

/// The state where a test of one question is true, and where it is false. A test that is made of others is given up: its parts are asked.
pub(crate) fn split(context: Context, t: &Test, state: &State) -> Result<SplitState, Stop>
    ensures { IfOk result (λ s. SplitsBy context.entry state.now (test_tree t.now) s.if_true s.if_false s.faults) }
{
    match t {
        Test::Compare(by, a, b) => compare(context, *by, a, b, state),
        Test::Match(e) => split_match(context, e, state),
        Test::IsEof => same(context.alloc, state, no_faults()),
        Test::Unique(names) => {
            let faults = shape_faults(context, state, names.as_slice());
            same(context.alloc, state, faults)
        }
        Test::InArray(e, name) => split_search(context, e, name, state),
        Test::Or(_, _) | Test::And(_, _) | Test::Not(_) => Err(Stop::GaveUp),
    }
}
