//! What an operation may give of what its operands may give.

ghost use Rattle.std.specs.Prelude.{◌≡◌, ◌≤◌, ℕ, ℤ, List, length, neg_ℤ, pos, true, false, Result, Ok, Option, Some, IsTrue, is_some};
ghost use Rattle.ctd_program.specs.Tree;
ghost use Rattle.ctd_program.specs.Tree.{ExprTree};
ghost use Rattle.ctd_program.specs.calls.View.{expr_tree};
ghost use Rattle.ctd_store.specs.declared.value.Value.{Value};
ghost use Rattle.ctd_store.specs.declared.value.Value.TheVariants as values;
ghost use Rattle.ctd_outcome.specs.declared.reason.Fault.{Fault};
ghost use Rattle.ctd_outcome.specs.declared.reason.Fault.TheVariants.{WrongType};
ghost use Rattle.ctd_range.specs.calls.Ranges.{Covers, IsIn};
ghost use Rattle.ctd_value.specs.Arithmetic.{in_range};
ghost use Rattle.ctd_value.specs.Val.{arithmetic};
ghost use Rattle.ctd_value.specs.inner.Val.{value_or_undefined};
ghost use Rattle.ctd_states.specs.calls.States.{MayBe, MayHave};
ghost use Rattle.ctd_states.specs.calls.Faults.{IsAmong};
ghost use Rattle.ctd_transfer.specs.calls.Results.{IsPossible, FailsBy, as_number};
ghost use Rattle.ctd_transfer.specs.inner.Results.{as_text};
ghost use Rattle.ctd_transfer.specs.inner.Operators.{IsComputed, AreOperands, HasOperator, Operates, IsWithinRanges, operate, measured, negated};

use crate::operand::{blame_if, operand_of, wider};
use ctd_program::Expr;
use ctd_range::{Computed, Range};
use ctd_states::{
    AbstractValue, Blame, Faults, Lengths, NO_BLAME, Operand, PossibleValues, no_faults, union,
};

/// What an expression may give: values, and faults. Of the variables in it the one with the most values is to blame for what it gives.
#[derive(Clone, Copy)]
pub struct PossibleResult {
    pub values: PossibleValues,
    pub faults: Faults,
    pub operand: Option<Operand>,
}

/// A number and no other.
pub(crate) fn of_number(n: i128) -> PossibleResult
    ensures { (k : ℕ) → IsPossible result k (Ok (values.Int n)) }
{
    let range = Range {
        low: n,
        high: n,
        rise: 0,
        fall: 0,
    };
    PossibleResult {
        values: PossibleValues {
            text: None,
            number: Some(range),
        },
        faults: no_faults(),
        operand: None,
    }
}

/// A string and no other.
pub(crate) fn of_text(bytes: &[u8]) -> PossibleResult
    ensures { (k : ℕ) → IsPossible result k (Ok (values.Text bytes.now)) }
{
    let length = bytes.len() as u64;
    let lengths = Lengths {
        least: length,
        most: length,
    };
    PossibleResult {
        values: PossibleValues {
            text: Some(lengths),
            number: None,
        },
        faults: no_faults(),
        operand: None,
    }
}

/// The value of a name without indices.
pub(crate) fn of_name(index: Option<usize>, value: AbstractValue) -> PossibleResult
    ensures { (k : ℕ) (o : Option Value) → MayHave value k o → IsPossible result k (value_or_undefined o) }
{
    let blame = Blame {
        no_value: if value.may_lack { index } else { None },
        ..NO_BLAME
    };
    PossibleResult {
        values: value.alone,
        faults: Faults {
            no_value: value.may_lack,
            blame,
            ..no_faults()
        },
        operand: operand_of(index, false, value.alone),
    }
}

/// The value of an element, if it may lack one.
pub(crate) fn of_element(
    index: Option<usize>,
    value: AbstractValue,
    may_lack: bool,
) -> PossibleResult
    ensures value { (k : ℕ) (o : Option Value) → (may_lack ≡ false → IsTrue (is_some o)) → ((v : Value) → o ≡ Some v → MayBe value.elements k v) → IsPossible result k (value_or_undefined o) }
{
    let blame = Blame {
        no_element: if may_lack { index } else { None },
        ..NO_BLAME
    };
    PossibleResult {
        values: value.elements,
        faults: Faults {
            no_element: may_lack,
            blame,
            ..no_faults()
        },
        operand: operand_of(index, true, value.elements),
    }
}

/// An operator between two numbers.
#[derive(Clone, Copy)]
pub(crate) enum Operator {
    Sum,
    Difference,
    Product,
    Quotient,
    Remainder,
    Power,
}

/// The operator between the two operands of an expression that has two.
pub(crate) fn operator_of(e: &Expr) -> Operator
    ensures { HasOperator result e.now }
{
    match e {
        Expr::Sub(_, _) => Operator::Difference,
        Expr::Mul(_, _) => Operator::Product,
        Expr::Div(_, _) => Operator::Quotient,
        Expr::Rem(_, _) => Operator::Remainder,
        Expr::Pow(_, _) => Operator::Power,
        Expr::Add(_, _)
        | Expr::Numeral(_)
        | Expr::Text(_)
        | Expr::Name(_)
        | Expr::Element(_)
        | Expr::Strlen(_)
        | Expr::Minus(_) => Operator::Sum,
    }
}

/// What an operator gives of numbers of two ranges.
fn compute(operator: Operator, a: Range, b: Range) -> Computed
    ensures { IsWithinRanges operator a b result }
{
    match operator {
        Operator::Sum => ctd_range::sum(a, b),
        Operator::Difference => ctd_range::difference(a, b),
        Operator::Product => ctd_range::product(a, b),
        Operator::Quotient => ctd_range::quotient(a, b),
        Operator::Remainder => ctd_range::remainder(a, b),
        Operator::Power => ctd_range::power(a, b),
    }
}

/// What two numbers may be, if both operands may be numbers, and whether one may be no number.
fn operands(a: PossibleValues, b: PossibleValues) -> (Option<(Range, Range)>, bool)
    ensures operands { AreOperands a b result }
{
    let wrong_type = a.text.is_some() | b.text.is_some();
    match (a.number, b.number) {
        (Some(x), Some(y)) => (Some((x, y)), wrong_type),
        _ => (None, wrong_type),
    }
}

/// No value, and no fault.
fn no_value() -> PossibleResult {
    PossibleResult {
        values: PossibleValues {
            text: None,
            number: None,
        },
        faults: no_faults(),
        operand: None,
    }
}

/// One of some values, and no fault.
pub(crate) fn of_values(values: PossibleValues) -> PossibleResult
    ensures { (k : ℕ) (v : Value) → MayBe values k v → IsPossible result k (Ok v) }
{
    PossibleResult {
        values,
        ..no_value()
    }
}

/// The numbers and the faults of a computation.
fn of_computed(computed: Computed) -> PossibleResult
    ensures { (k : ℕ) (r : Result ℤ Fault) → Covers computed k r → IsComputed result k r }
{
    PossibleResult {
        values: PossibleValues {
            text: None,
            number: Some(computed.range),
        },
        faults: Faults {
            overflow: computed.overflows,
            division_by_zero: computed.divides_by_zero,
            exponent: computed.has_bad_exponent,
            ..no_faults()
        },
        operand: None,
    }
}

/// What an operator gives of its operands.
fn operate(operator: Operator, operands: Option<(Range, Range)>) -> PossibleResult
    ensures operates { Operates operator operands result }
{
    match operands {
        Some((x, y)) => of_computed(compute(operator, x, y)),
        None => no_value(),
    }
}

/// The same, with these faults too.
pub(crate) fn with_faults(found: PossibleResult, faults: Faults) -> PossibleResult
    ensures values { result.values ≡ found.values }
    ensures own { (f : Fault) → IsAmong found.faults f → IsAmong result.faults f }
    ensures others { (f : Fault) → IsAmong faults f → IsAmong result.faults f }
{
    PossibleResult {
        values: found.values,
        faults: union(found.faults, faults),
        operand: found.operand,
    }
}

/// The same of an operation on two operands, of which the wider is to blame for an overflow, and the second for what it divides by or raises to.
fn with_operands(found: PossibleResult, a: Option<Operand>, b: Option<Operand>) -> PossibleResult
    ensures values { result.values ≡ found.values }
    ensures own { (f : Fault) → IsAmong found.faults f → IsAmong result.faults f }
{
    let operand = wider(a, b);
    let faults = found.faults;
    let blame = Blame {
        overflow: blame_if(faults.overflow, operand),
        division_by_zero: blame_if(faults.division_by_zero, b),
        exponent: blame_if(faults.exponent, b),
        ..faults.blame
    };
    PossibleResult {
        values: found.values,
        faults: Faults { blame, ..faults },
        operand,
    }
}

/// The same, with the fault of a wrong type where this is so, for which an operand is to blame.
fn with_type_fault(
    found: PossibleResult,
    wrong_type: bool,
    operand: Option<Operand>,
) -> PossibleResult
    ensures values { result.values ≡ found.values }
    ensures own { (f : Fault) → IsAmong found.faults f → IsAmong result.faults f }
    ensures wrong_type { wrong_type ≡ true → IsAmong result.faults WrongType }
{
    let blame = Blame {
        wrong_type: blame_if(wrong_type, operand),
        ..NO_BLAME
    };
    let faults = Faults {
        wrong_type,
        blame,
        ..no_faults()
    };
    with_faults(found, faults)
}

/// What an operator gives of what its operands may give.
pub(crate) fn apply(operator: Operator, a: PossibleResult, b: PossibleResult) -> PossibleResult
    ensures { (k : ℕ) (left right : Result Value Fault) → IsPossible a k left → IsPossible b k right → IsPossible result k (arithmetic (operate operator) left right) }
{
    let (numbers, wrong_type) = operands(a.values, b.values);
    let mistyped = if may_be_text(a.values) { a } else { b };
    let computed = with_operands(operate(operator, numbers), a.operand, b.operand);
    let own = with_type_fault(computed, wrong_type, mistyped.operand);
    with_faults(with_faults(own, a.faults), b.faults)
}

/// Whether two expressions are the same name.
fn are_one_name(a: &Expr, b: &Expr) -> bool
    ensures { result ≡ true → expr_tree a.now ≡ expr_tree b.now }
{
    match (a, b) {
        (Expr::Name(name), Expr::Name(other)) => name.as_slice() == other.as_slice(),
        _ => false,
    }
}

/// Whether an expression is the product of a name and itself.
pub(crate) fn is_square(e: &Expr) -> bool
    ensures { result ≡ true → (t : ExprTree) × (expr_tree e.now ≡ Tree.times t t) }
{
    match e {
        Expr::Mul(a, b) => are_one_name(a, b),
        _ => false,
    }
}

/// Whether a value may be a string.
pub(crate) fn may_be_text(possible: PossibleValues) -> bool
    ensures { (k : ℕ) (bytes : List ℕ) → MayBe possible k (values.Text bytes) → result ≡ true }
{
    possible.text.is_some()
}

/// Whether a value may be a number.
pub(crate) fn may_be_number(possible: PossibleValues) -> bool
    ensures { (k : ℕ) (x : ℤ) → MayBe possible k (values.Int x) → result ≡ true }
{
    possible.number.is_some()
}

/// The negation of a possible number.
fn negate_number(possible: PossibleValues) -> PossibleResult
    ensures { (k : ℕ) (x : ℤ) → MayBe possible k (values.Int x) → IsComputed result k (in_range (neg_ℤ x)) }
{
    match possible.number {
        Some(x) => of_computed(ctd_range::negation(x)),
        None => no_value(),
    }
}

/// The negation of what an expression may give.
pub(crate) fn negate(a: PossibleResult) -> PossibleResult
    ensures { (k : ℕ) (r : Result Value Fault) → IsPossible a k r → IsPossible result k (negated r) }
{
    let computed = with_operands(negate_number(a.values), a.operand, None);
    let own = with_type_fault(computed, may_be_text(a.values), a.operand);
    with_faults(own, a.faults)
}

/// The numbers that are lengths of strings.
pub(crate) fn range_of(lengths: Lengths) -> Range
    ensures { (k n : ℕ) → lengths.least ≤ n → n ≤ lengths.most → IsIn result k (pos n) }
{
    Range {
        low: i128::from(lengths.least),
        high: i128::from(lengths.most),
        rise: 0,
        fall: 0,
    }
}

/// The length of a string of these lengths.
fn of_length(lengths: Lengths) -> PossibleResult
    ensures { (k n : ℕ) → lengths.least ≤ n → n ≤ lengths.most → IsPossible result k (Ok (values.Int (pos n))) }
{
    PossibleResult {
        values: PossibleValues {
            text: None,
            number: Some(range_of(lengths)),
        },
        faults: no_faults(),
        operand: None,
    }
}

/// The length of a possible string.
fn measure_text(possible: PossibleValues) -> PossibleResult
    ensures { (k : ℕ) (bytes : List ℕ) → MayBe possible k (values.Text bytes) → IsPossible result k (Ok (values.Int (pos (length bytes)))) }
{
    match possible.text {
        Some(lengths) => of_length(lengths),
        None => no_value(),
    }
}

/// The length of what an expression may give.
pub(crate) fn measure(a: PossibleResult) -> PossibleResult
    ensures { (k : ℕ) (r : Result Value Fault) → IsPossible a k r → IsPossible result k (measured r) }
{
    let own = with_type_fault(measure_text(a.values), may_be_number(a.values), a.operand);
    with_faults(own, a.faults)
}

/// The strings of some values.
pub(crate) fn text_alone(possible: PossibleValues) -> PossibleValues
    ensures { (k : ℕ) (bytes : List ℕ) → MayBe possible k (values.Text bytes) → MayBe result k (values.Text bytes) }
{
    PossibleValues {
        text: possible.text,
        number: None,
    }
}

/// The faults of an expression that has to be a string.
pub(crate) fn text_faults(a: PossibleResult) -> Faults
    ensures { (k : ℕ) (r : Result Value Fault) → IsPossible a k r → FailsBy result (as_text r) }
{
    with_type_fault(a, may_be_number(a.values), a.operand).faults
}

/// The faults of an expression that has to be a number.
pub fn number_faults(a: PossibleResult) -> Faults
    ensures { (k : ℕ) (r : Result Value Fault) → IsPossible a k r → FailsBy result (as_number r) }
{
    with_type_fault(a, may_be_text(a.values), a.operand).faults
}
