//! What expressions may give, and what is known of their values.

ghost use Rattle.std.specs.Prelude.{◌≡◌, ℕ, None, Some, Result, Ok, IfOk, IfSome};
ghost use Rattle.ctd_program.specs.Tree;
ghost use Rattle.ctd_program.specs.calls.View.{expr_list, expr_tree};
ghost use Rattle.ctd_outcome.specs.declared.reason.Fault.{Fault};
ghost use Rattle.ctd_states.specs.declared.assign.Context.{Context};
ghost use Rattle.ctd_store.specs.Store.{Bindings};
ghost use Rattle.ctd_store.specs.declared.value.Value.{Value};
ghost use Rattle.ctd_store.specs.declared.value.Value.TheVariants as values;
ghost use Rattle.ctd_transfer.specs.calls.Values.{Evaluates, IsEvaluated};
ghost use Rattle.ctd_transfer.specs.inner.Divisors.{EvaluatesDivisor};
ghost use Rattle.ctd_transfer.specs.inner.Evaluated.{EvaluatesAt, IsOperation, IsRangeOf, KnowsResult, Refines};
ghost use Rattle.ctd_transfer.specs.inner.Indices.{AllFailBy, EvaluatesIndices};
ghost use Rattle.ctd_transfer.specs.inner.Operators.{measured, negated};

use crate::division::{Divisor, differ_in, division};
use crate::indices::{Indices, element_limits, faults_of, is_sure_at};
use crate::result::{
    Operator, PossibleResult, apply, is_square, measure, negate, of_element, of_name, of_number,
    of_text, operator_of, with_faults,
};
use ctd_limits::{
    ValueLimits, anything, difference, limits_of_name, limits_of_number, limits_of_text, narrowed,
    product, quotient, remainder, sum, with_range,
};
use ctd_partitions::{State, view_of};
use ctd_program::Expr;
use ctd_range::Range;
use ctd_states::{Context, Faults, PossibleValues, Stop, index_of, listed, no_faults, union};
use ctd_token::Name;
use std::alloc::{AllocError, Global};

/// What an expression may give, and what is known of its value.
#[derive(Drop)]
pub struct Evaluation {
    pub found: PossibleResult,
    pub limits: ValueLimits,
}

/// The range of a value that can only be a number.
fn only_range(possible: PossibleValues) -> Option<Range>
    ensures { IfSome result (λ range. IsRangeOf possible range) }
{
    if possible.text.is_some() {
        return None;
    }
    possible.number
}

/// The same with other numbers.
fn with_numbers(found: PossibleResult, range: Range) -> PossibleResult
    ensures values { result.values ≡ record { text = None; number = Some range } }
    ensures faults { result.faults ≡ found.faults }
{
    PossibleResult {
        values: PossibleValues {
            text: None,
            number: Some(range),
        },
        ..found
    }
}

/// What may be given, without the numbers that bounds leave out, and the bounds with the ends of what may be.
fn refined(found: PossibleResult, limits: ValueLimits) -> Result<Evaluation, Stop>
    ensures { IfOk result (λ r. Refines found limits r) }
{
    match only_range(found.values) {
        Some(range) => {
            let narrow = narrowed(range, &limits);
            let limits = with_range(limits, narrow)?;
            Ok(Evaluation {
                found: with_numbers(found, narrow),
                limits,
            })
        }
        None => Ok(Evaluation { found, limits }),
    }
}

/// What a number gives.
fn number_result(alloc: Global, n: i128) -> Result<Evaluation, Stop>
    ensures { IfOk result (λ r. (g : Context) (k : ℕ) (h : Bindings) → IsEvaluated g r k h (Ok (values.Int n))) }
{
    let limits = limits_of_number(alloc, n)?;
    Ok(Evaluation {
        found: of_number(n),
        limits,
    })
}

/// What a string gives.
fn text_result(bytes: &[u8], context: Context, state: &State) -> Evaluation
    ensures { (k : ℕ) (h : Bindings) → IsEvaluated context.entry result k h (Ok (values.Text bytes.now)) }
{
    Evaluation {
        found: of_text(bytes),
        limits: limits_of_text(context.alloc, view_of(context, state), bytes),
    }
}

/// What the length of a string may give.
fn length_result(alloc: Global, text: &Evaluation) -> Result<Evaluation, Stop>
    ensures { IfOk result (λ r. (g : Context) (k : ℕ) (h : Bindings) (v : Result Value Fault) → IsEvaluated g text.now k h v → IsEvaluated g r k h (measured v)) }
{
    refined(measure(text.found), anything(alloc))
}

/// What a negation may give.
fn negation_result(alloc: Global, operand: &Evaluation) -> Result<Evaluation, Stop>
    ensures { IfOk result (λ r. (g : Context) (k : ℕ) (h : Bindings) (v : Result Value Fault) → IsEvaluated g operand.now k h v → IsEvaluated g r k h (negated v)) }
{
    refined(negate(operand.found), anything(alloc))
}

/// What a name without indices may give. `Stop::GaveUp` where it is not listed.
fn name_result(name: &Name, context: Context, state: &State) -> Result<Evaluation, Stop>
    ensures { IfOk result (λ r. Evaluates context.entry state.now (Tree.variable name.now Tree.none) r) }
{
    let word = name.as_slice();
    let entries = state.entries.as_slice();
    let value = listed(context.names, entries, word)?;
    let limits = limits_of_name(context.alloc, view_of(context, state), word)?;
    Ok(Evaluation {
        found: of_name(index_of(context.names, entries, word), value),
        limits,
    })
}

/// What a name may give at indices. `Stop::GaveUp` where it is not listed.
fn element_result(
    name: &Name,
    indices: &Indices,
    context: Context,
    state: &State,
) -> Result<Evaluation, Stop>
    ensures { IfOk result (λ r. EvaluatesAt context.entry state.now name.now indices.now r) }
{
    let word = name.as_slice();
    let view = view_of(context, state);
    let value = listed(context.names, view.entries, word)?;
    let index = index_of(context.names, view.entries, word);
    let is_sure = is_sure_at(view, index, indices);
    let limits = element_limits(context.alloc, view, word, indices)?;
    Ok(Evaluation {
        found: with_faults(of_element(index, value, !is_sure), faults_of(indices)),
        limits,
    })
}

/// What is known of the result of an operator.
fn limits_by(
    alloc: Global,
    operator: Operator,
    a: &ValueLimits,
    b: &ValueLimits,
) -> Result<ValueLimits, AllocError>
    ensures { IfOk result (λ l. KnowsResult operator a.now b.now l) }
{
    match operator {
        Operator::Sum => sum(alloc, a, b),
        Operator::Difference => difference(alloc, a, b),
        Operator::Product => product(alloc, a, b),
        Operator::Quotient => quotient(alloc, a, b),
        Operator::Remainder => remainder(alloc, a, b),
        Operator::Power => Ok(anything(alloc)),
    }
}

/// What an operation on two operands may give.
pub(crate) fn operation(
    alloc: Global,
    e: &Expr,
    left: &Evaluation,
    right: &Evaluation,
) -> Result<Evaluation, Stop>
    ensures { IfOk result (λ r. IsOperation e.now left.now right.now r) }
{
    let operator = operator_of(e);
    let found = if is_square(e) {
        apply(Operator::Power, left.found, of_number(2))
    } else {
        apply(operator, left.found, right.found)
    };
    let limits = limits_by(alloc, operator, &left.limits, &right.limits)?;
    refined(found, limits)
}

/// What an expression may give. `Stop::GaveUp` where a name in it is not listed.
#[cycle(evaluate)]
pub fn evaluate(e: &Expr, context: Context, state: &State) -> Result<Evaluation, Stop>
    ensures { IfOk result (λ r. Evaluates context.entry state.now (expr_tree e.now) r) }
{
    let alloc = context.alloc;
    match e {
        Expr::Numeral(n) => number_result(alloc, n.value()),
        Expr::Text(bytes) => Ok(text_result(bytes.as_slice(), context, state)),
        Expr::Name(name) => name_result(name, context, state),
        Expr::Element(element) => {
            let indices = evaluate_indices(element.indices.as_slice(), context, state)?;
            element_result(&element.name, &indices, context, state)
        }
        Expr::Strlen(text) => {
            let operand = evaluate(text, context, state)?;
            length_result(alloc, &operand)
        }
        Expr::Minus(a) => {
            let operand = evaluate(a, context, state)?;
            negation_result(alloc, &operand)
        }
        Expr::Add(a, b) | Expr::Sub(a, b) | Expr::Mul(a, b) | Expr::Pow(a, b) => {
            let left = evaluate(a, context, state)?;
            let right = evaluate(b, context, state)?;
            operation(alloc, e, &left, &right)
        }
        Expr::Div(a, b) | Expr::Rem(a, b) => {
            let left = evaluate(a, context, state)?;
            let divisor = evaluate_divisor(b, context, state)?;
            division(alloc, e, &left, &divisor)
        }
    }
}

/// What a divisor may give. A difference of numbers that differ is not 0, nor is a number that differs from 0.
#[cycle(evaluate)]
fn evaluate_divisor(e: &Expr, context: Context, state: &State) -> Result<Divisor, Stop>
    ensures { IfOk result (λ d. EvaluatesDivisor context.entry state.now (expr_tree e.now) d) }
{
    let alloc = context.alloc;
    match e {
        Expr::Sub(a, b) => {
            let left = evaluate(a, context, state)?;
            let right = evaluate(b, context, state)?;
            let value = operation(alloc, e, &left, &right)?;
            let is_nonzero = differ_in(context, state, &left.limits, &right.limits);
            Ok(Divisor { value, is_nonzero })
        }
        Expr::Numeral(_)
        | Expr::Text(_)
        | Expr::Name(_)
        | Expr::Element(_)
        | Expr::Strlen(_)
        | Expr::Minus(_)
        | Expr::Add(_, _)
        | Expr::Mul(_, _)
        | Expr::Div(_, _)
        | Expr::Rem(_, _)
        | Expr::Pow(_, _) => {
            let value = evaluate(e, context, state)?;
            let zero = limits_of_number(alloc, 0)?;
            let is_nonzero = differ_in(context, state, &value.limits, &zero);
            Ok(Divisor { value, is_nonzero })
        }
    }
}

/// What is known of indices, of which there is one at least. `Stop::GaveUp` where there is none.
#[cycle(evaluate)]
pub(crate) fn evaluate_indices(
    indices: &[Expr],
    context: Context,
    state: &State,
) -> Result<Indices, Stop>
    ensures { IfOk result (λ some. EvaluatesIndices context.entry state.now (expr_list indices.now) some) }
{
    match indices {
        [] => Err(Stop::GaveUp),
        [index] => Ok(Indices::One(evaluate(index, context, state)?)),
        [index, other] => {
            let first = evaluate(index, context, state)?;
            let second = evaluate(other, context, state)?;
            Ok(Indices::Two(first, second))
        }
        _ => Ok(Indices::More(index_faults(indices, context, state)?)),
    }
}

/// By which faults indices may fail.
#[cycle(evaluate)]
fn index_faults(indices: &[Expr], context: Context, state: &State) -> Result<Faults, Stop>
    ensures { IfOk result (λ f. AllFailBy context.entry state.now (expr_list indices.now) f) }
{
    let mut faults = no_faults();
    for index in indices {
        let own = evaluate(index, context, state)?;
        faults = union(faults, own.found.faults);
    }
    Ok(faults)
}
