//! The state where two expressions compare so.

ghost use Rattle.std.specs.Prelude.{◌≡◌, ◌≤◌, true, ℕ, ℤ, pos, Some, IfOk, OnOk};
ghost use Rattle.ctd_program.specs.Tree;
ghost use Rattle.ctd_program.specs.calls.View.{expr_tree};
ghost use Rattle.ctd_program.specs.declared.tree.Compare.{Compare};
ghost use Rattle.ctd_store.specs.declared.value.Value.{Value};
ghost use Rattle.ctd_range.specs.declared.range.Range.{Range};
ghost use Rattle.ctd_range.specs.calls.Ranges.{IsIn, Relates};
ghost use Rattle.ctd_states.specs.calls.States.{MayBe};
ghost use Rattle.ctd_transfer.specs.inner.Compared.{Cuts, CutsBoth, CutsOperand, MayCompare};

use crate::expression::evaluate;
use crate::result::{Operator, apply, of_values, range_of};
use ctd_partitions::{State, copy_of_state, make_unreachable};
use ctd_program::{Compare, Expr};
use ctd_range::{Range, is_empty, restrict};
use ctd_states::{AbstractValue, Context, Lengths, PossibleValues, Stop, listed, replace_value};

/// The same comparison of the second with the first.
fn swapped(by: Compare) -> Compare
    ensures { (v w : Value) → MayCompare by v w → MayCompare result w v }
{
    match by {
        Compare::Less => Compare::Greater,
        Compare::Greater => Compare::Less,
        Compare::AtMost => Compare::AtLeast,
        Compare::AtLeast => Compare::AtMost,
        Compare::Equal => Compare::Equal,
        Compare::Unequal => Compare::Unequal,
    }
}

/// Whether no value is possible.
fn has_no_value(possible: PossibleValues) -> bool
    ensures { result ≡ true → (k : ℕ) (v : Value) → MayBe possible k v → ⊥ }
{
    if possible.text.is_some() {
        return false;
    }
    match possible.number {
        Some(range) => is_empty(range),
        None => true,
    }
}

/// Expects one of some values: where none is possible, the state is unreachable.
pub(crate) fn expect_value(possible: PossibleValues, state: &mut State)
    ensures { (k : ℕ) (v : Value) → MayBe possible k v → state.new ≡ state.old }
{
    if has_no_value(possible) {
        make_unreachable(state);
    }
}

/// The numbers of a range that may compare so with one of another, if there are any.
fn cut_numbers(by: Compare, a: Option<Range>, b: Option<Range>) -> Option<Range>
    ensures { (k : ℕ) (x y : ℤ) (r s : Range) → a ≡ Some r → b ≡ Some s → IsIn r k x → IsIn s k y → Relates by x y → (t : Range) × (result ≡ Some t) × IsIn t k x }
{
    match (a, b) {
        (Some(x), Some(y)) => {
            let cut = restrict(by, x, y);
            if is_empty(cut) { None } else { Some(cut) }
        }
        _ => None,
    }
}

/// The lengths of strings that may be compared with others, if there are any.
fn cut_texts(a: Option<Lengths>, b: Option<Lengths>) -> Option<Lengths>
    ensures { (l m : Lengths) → a ≡ Some l → b ≡ Some m → result ≡ Some l }
{
    match b {
        Some(_) => a,
        None => None,
    }
}

/// The possible values that may compare so with one of others.
fn cut_values(by: Compare, a: PossibleValues, b: PossibleValues) -> PossibleValues
    ensures { (k : ℕ) (v w : Value) → MayBe a k v → MayBe b k w → MayCompare by v w → MayBe result k v }
{
    PossibleValues {
        text: cut_texts(a.text, b.text),
        number: cut_numbers(by, a.number, b.number),
    }
}

/// Gives a name other values, of which it has one.
fn narrow(
    context: Context,
    state: &mut State,
    name: &[u8],
    by: Compare,
    possible: PossibleValues,
) -> Result<(), Stop>
    ensures { OnOk result (Cuts context.entry state.old (Tree.variable name.now Tree.none) by possible state.new) }
{
    let value = listed(context.names, state.entries.as_slice(), name)?;
    let narrowed = AbstractValue {
        may_lack: false,
        alone: cut_values(by, value.alone, possible),
        elements: value.elements,
    };
    replace_value(context.names, state.entries.as_mut_slice(), name, narrowed);
    Ok(())
}

/// The least length that is a number of a range, of those that are at least so large.
fn least_length(range: Range, least: u64) -> u64
    ensures { (k n : ℕ) → least ≤ n → IsIn range k (pos n) → result ≤ n }
{
    u64::try_from(range.low).unwrap_or(least)
}

/// The greatest length that is a number of a range, of those that are at most so large.
fn greatest_length(range: Range, most: u64) -> u64
    ensures { (k n : ℕ) → n ≤ most → IsIn range k (pos n) → n ≤ result }
{
    u64::try_from(range.high).unwrap_or(most)
}

/// The lengths of strings that may compare so with a number of a range, if there are any.
fn cut_lengths(by: Compare, a: Option<Lengths>, b: Option<Range>) -> Option<Lengths>
    ensures { (k n : ℕ) (y : ℤ) (l : Lengths) (s : Range) → a ≡ Some l → b ≡ Some s → l.least ≤ n → n ≤ l.most → IsIn s k y → Relates by (pos n) y → (m : Lengths) × (result ≡ Some m) × (m.least ≤ n) × (n ≤ m.most) }
{
    match (a, b) {
        (Some(lengths), Some(range)) => {
            let cut = restrict(by, range_of(lengths), range);
            if is_empty(cut) {
                None
            } else {
                Some(Lengths {
                    least: least_length(cut, lengths.least),
                    most: greatest_length(cut, lengths.most),
                })
            }
        }
        _ => None,
    }
}

/// Restricts a name to strings of lengths that compare so with one of some numbers.
fn narrow_length(
    context: Context,
    state: &mut State,
    name: &[u8],
    by: Compare,
    possible: PossibleValues,
) -> Result<(), Stop>
    ensures { OnOk result (Cuts context.entry state.old (Tree.strlen (Tree.variable name.now Tree.none)) by possible state.new) }
{
    let value = listed(context.names, state.entries.as_slice(), name)?;
    let narrowed = AbstractValue {
        may_lack: false,
        alone: PossibleValues {
            text: cut_lengths(by, value.alone.text, possible.number),
            number: None,
        },
        elements: value.elements,
    };
    replace_value(context.names, state.entries.as_mut_slice(), name, narrowed);
    Ok(())
}

/// Restricts a state to where the length of a string compares so with one of some values.
fn cut_length(
    context: Context,
    state: &mut State,
    text: &Expr,
    by: Compare,
    possible: PossibleValues,
) -> Result<(), Stop>
    ensures { OnOk result (Cuts context.entry state.old (Tree.strlen (expr_tree text.now)) by possible state.new) }
{
    match text {
        Expr::Name(name) => narrow_length(context, state, name.as_slice(), by, possible),
        _ => Ok(()),
    }
}

/// Restricts a state to where an expression compares so with one of some values.
#[cycle(cut)]
fn cut(
    context: Context,
    state: &mut State,
    e: &Expr,
    by: Compare,
    possible: PossibleValues,
) -> Result<(), Stop>
    ensures { OnOk result (Cuts context.entry state.old (expr_tree e.now) by possible state.new) }
{
    match e {
        Expr::Name(name) => narrow(context, state, name.as_slice(), by, possible),
        Expr::Add(a, b) => cut_operand(context, state, a, by, Operator::Difference, possible, b),
        Expr::Sub(a, b) => cut_operand(context, state, a, by, Operator::Sum, possible, b),
        Expr::Strlen(text) => cut_length(context, state, text, by, possible),
        _ => Ok(()),
    }
}

/// Restricts a state to where an operand compares so with what an operator gives of one of some values and of another operand.
#[cycle(cut)]
fn cut_operand(
    context: Context,
    state: &mut State,
    e: &Expr,
    by: Compare,
    operator: Operator,
    possible: PossibleValues,
    other: &Expr,
) -> Result<(), Stop>
    ensures { OnOk result (CutsOperand context.entry state.old (expr_tree e.now) by operator possible (expr_tree other.now) state.new) }
{
    let other = evaluate(other, context, state)?;
    let moved = apply(operator, of_values(possible), other.found);
    if moved.faults.overflow {
        return Ok(());
    }
    cut(context, state, e, by, moved.values)
}

/// The state where two expressions, which may have these values, compare so.
pub(crate) fn cut_both(
    context: Context,
    state: &State,
    by: Compare,
    a: &Expr,
    b: &Expr,
    one: PossibleValues,
    other: PossibleValues,
) -> Result<State, Stop>
    ensures { IfOk result (λ after. CutsBoth context.entry state.now by (expr_tree a.now) (expr_tree b.now) one other after) }
{
    let mut after = copy_of_state(context.alloc, state)?;
    expect_value(cut_values(by, one, other), &mut after);
    cut(context, &mut after, a, by, other)?;
    cut(context, &mut after, b, swapped(by), one)?;
    Ok(after)
}
