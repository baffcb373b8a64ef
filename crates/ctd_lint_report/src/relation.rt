//! What is known of variables, as relations between expressions.

ghost use Rattle.std.specs.Prelude.{◌≡◌, ◌++◌, ◌∷◌, [], IfOk, OnOk, ◌-ℤ◌};
ghost use Rattle.ctd_lint_report.specs.calls.Numbers.{integer_entry};
ghost use Rattle.ctd_lint_report.specs.calls.Expressions.{elements_text, name_text, sum_text};
ghost use Rattle.ctd_lint_report.specs.calls.Relations.{between_relations, bound_relations, elements_relations, fact_relations, filling_in, least_length, least_relations, length_text, less_relation, most_length, most_of, most_relations, order_relation, range_relations, relation, same_relations, sums_relation, value_relations};

use crate::expression::{write_elements, write_name, write_sum};
use crate::number::write_integer;
use crate::setup::Form;
use ctd_elements::{Bound, Fact, Filling, Term};
use ctd_source::WINDOW;
use ctd_states::PossibleValues;
use ctd_token::Bytes;
use std::alloc::{AllocError, Global};

/// The sign between two expressions.
#[derive(Clone, Copy)]
pub(crate) enum Sign {
    AtMost,
    Less,
    Equal,
    Unequal,
}

/// What stands left and right of a sign.
#[derive(Drop)]
pub(crate) struct Relation {
    pub(crate) left: Bytes,
    pub(crate) sign: Sign,
    pub(crate) right: Bytes,
}

/// The text of a number.
fn integer_of(alloc: Global, form: Form, number: i128) -> Result<Bytes, AllocError>
    ensures { IfOk result (λ text. text ≡ integer_entry form number) }
{
    let mut text = Vec::new(alloc);
    write_integer(form, number, &mut text)?;
    Bytes::copy(alloc, text.as_slice())
}

/// The text of a sum.
pub(crate) fn sum_of(
    alloc: Global,
    form: Form,
    names: &[&[u8]],
    term: Option<Term>,
    number: i128,
) -> Result<Bytes, AllocError>
    ensures { IfOk result (λ text. text ≡ sum_text form names.now term number) }
{
    let mut text = Vec::new(alloc);
    write_sum(form, names, term, number, &mut text)?;
    Bytes::copy(alloc, text.as_slice())
}

/// Adds a relation.
pub(crate) fn add_relation(
    left: Bytes,
    sign: Sign,
    right: Bytes,
    relations: &mut Vec<Relation>,
) -> Result<(), AllocError>
    ensures { OnOk result (relations.new.items ≡ relations.old.items ++ relation left sign right ∷ []) }
{
    relations.push(Relation { left, sign, right })?;
    Ok(())
}

/// Adds that a number is at least this one, unless each number is.
fn add_least(
    alloc: Global,
    form: Form,
    subject: &[u8],
    low: i128,
    relations: &mut Vec<Relation>,
) -> Result<(), AllocError>
    ensures { OnOk result (relations.new.items ≡ relations.old.items ++ least_relations form subject.now low) }
{
    if low == i128::MIN {
        return Ok(());
    }
    let left = integer_of(alloc, form, low)?;
    add_relation(left, Sign::AtMost, Bytes::copy(alloc, subject)?, relations)
}

/// Adds that a number is at most this one, unless each number is.
fn add_most(
    alloc: Global,
    form: Form,
    subject: &[u8],
    high: i128,
    relations: &mut Vec<Relation>,
) -> Result<(), AllocError>
    ensures { OnOk result (relations.new.items ≡ relations.old.items ++ most_relations form subject.now high) }
{
    if high == i128::MAX {
        return Ok(());
    }
    let right = integer_of(alloc, form, high)?;
    add_relation(Bytes::copy(alloc, subject)?, Sign::AtMost, right, relations)
}

/// Adds that elements are at most the bound that is known with them, if there is one.
fn add_bound(
    alloc: Global,
    form: Form,
    names: &[&[u8]],
    subject: &[u8],
    bound: Option<Bound>,
    relations: &mut Vec<Relation>,
) -> Result<(), AllocError>
    ensures { OnOk result (relations.new.items ≡ relations.old.items ++ bound_relations form names.now subject.now bound) }
{
    let Some(bound) = bound else {
        return Ok(());
    };
    let right = sum_of(alloc, form, names, bound.term, i128::from(bound.add))?;
    add_relation(Bytes::copy(alloc, subject)?, Sign::AtMost, right, relations)
}

/// Adds that a number is this one, and under a bound, if there is one.
fn add_same(
    alloc: Global,
    form: Form,
    names: &[&[u8]],
    subject: &[u8],
    bound: Option<Bound>,
    number: i128,
    relations: &mut Vec<Relation>,
) -> Result<(), AllocError>
    ensures { OnOk result (relations.new.items ≡ relations.old.items ++ same_relations form names.now subject.now bound number) }
{
    let right = integer_of(alloc, form, number)?;
    add_relation(Bytes::copy(alloc, subject)?, Sign::Equal, right, relations)?;
    add_bound(alloc, form, names, subject, bound, relations)
}

/// Adds that a number lies between two, and under a bound, if there is one.
fn add_between(
    alloc: Global,
    form: Form,
    names: &[&[u8]],
    subject: &[u8],
    bound: Option<Bound>,
    low: i128,
    high: i128,
    relations: &mut Vec<Relation>,
) -> Result<(), AllocError>
    ensures { OnOk result (relations.new.items ≡ relations.old.items ++ between_relations form names.now subject.now bound low high) }
{
    add_least(alloc, form, subject, low, relations)?;
    add_bound(alloc, form, names, subject, bound, relations)?;
    add_most(alloc, form, subject, high, relations)
}

/// Adds what is known of a number by its least and its greatest value.
fn add_range(
    alloc: Global,
    form: Form,
    names: &[&[u8]],
    subject: &[u8],
    bound: Option<Bound>,
    low: i128,
    high: i128,
    relations: &mut Vec<Relation>,
) -> Result<(), AllocError>
    ensures { OnOk result (relations.new.items ≡ relations.old.items ++ range_relations form names.now subject.now bound low high) }
{
    if low == high {
        return add_same(alloc, form, names, subject, bound, low, relations);
    }
    add_between(alloc, form, names, subject, bound, low, high, relations)
}

/// The least length that says something, as a number.
fn least_length(length: u64) -> i128
    ensures { result ≡ least_length length }
{
    if length == 0 {
        i128::MIN
    } else {
        i128::from(length)
    }
}

/// The greatest length that says something.
fn most_length(length: u64) -> i128
    ensures { result ≡ most_length length }
{
    if WINDOW as u64 <= length {
        i128::MAX
    } else {
        i128::from(length)
    }
}

/// The length of a string.
fn length_of(alloc: Global, subject: &[u8]) -> Result<Vec<u8>, AllocError>
    ensures { IfOk result (λ text. text.items ≡ length_text subject.now) }
{
    let mut text = b"STRLEN(".to_vec(alloc)?;
    text.extend_from_slice(subject)?;
    text.extend_from_slice(b")")?;
    Ok(text)
}

/// Adds what is known of a value: of a number itself, and of a string its length.
fn add_value(
    alloc: Global,
    form: Form,
    names: &[&[u8]],
    subject: &[u8],
    bound: Option<Bound>,
    possible: PossibleValues,
    relations: &mut Vec<Relation>,
) -> Result<(), AllocError>
    ensures { OnOk result (relations.new.items ≡ relations.old.items ++ value_relations form names.now subject.now bound possible.text possible.number) }
{
    match (possible.text, possible.number) {
        (None, Some(range)) => {
            add_range(
                alloc, form, names, subject, bound, range.low, range.high, relations,
            )
        }
        (Some(lengths), None) => {
            let subject = length_of(alloc, subject)?;
            let least = least_length(lengths.least);
            let most = most_length(lengths.most);
            add_range(
                alloc,
                form,
                names,
                subject.as_slice(),
                None,
                least,
                most,
                relations,
            )
        }
        _ => Ok(()),
    }
}

/// Adds what is known of a name without indices.
pub(crate) fn add_name(
    alloc: Global,
    form: Form,
    names: &[&[u8]],
    index: usize,
    possible: PossibleValues,
    relations: &mut Vec<Relation>,
) -> Result<(), AllocError>
    ensures { OnOk result (relations.new.items ≡ relations.old.items ++ value_relations form names.now (name_text names.now index) None possible.text possible.number) }
{
    let mut subject = Vec::new(alloc);
    write_name(names, index, &mut subject)?;
    add_value(
        alloc,
        form,
        names,
        subject.as_slice(),
        None,
        possible,
        relations,
    )
}

/// The elements that are known to have values, if they are those of this array.
fn filling_in(array: usize, filling: Option<Filling>) -> Option<Filling>
    ensures { result ≡ filling_in array filling }
{
    match filling {
        Some(filling) if filling.array == array => Some(filling),
        _ => None,
    }
}

/// The bound of elements, if some are known to have values.
fn most_of(filling: Option<Filling>) -> Option<Bound>
    ensures { result ≡ most_of filling }
{
    match filling {
        Some(filling) => filling.most,
        None => None,
    }
}

/// Adds what is known of elements, by which are known to have values.
pub(crate) fn add_elements(
    alloc: Global,
    form: Form,
    names: &[&[u8]],
    array: usize,
    possible: PossibleValues,
    before: Option<Filling>,
    relations: &mut Vec<Relation>,
) -> Result<(), AllocError>
    ensures { OnOk result (relations.new.items ≡ relations.old.items ++ elements_relations form names.now array possible (filling_in array before)) }
{
    let filling = filling_in(array, before);
    let mut subject = Vec::new(alloc);
    write_elements(form, names, array, filling, &mut subject)?;
    add_value(
        alloc,
        form,
        names,
        subject.as_slice(),
        most_of(filling),
        possible,
        relations,
    )
}

/// How far one number of a bound lies above another.
pub(crate) fn gap_of(a: Bound, b: Bound) -> i128
    ensures { result ≡ b.add -ℤ a.add }
{
    i128::from(b.add) - i128::from(a.add)
}

/// Adds one number by another: what is added stands on the right.
pub(crate) fn add_sums(
    alloc: Global,
    form: Form,
    names: &[&[u8]],
    sign: Sign,
    a: Bound,
    b: Bound,
    relations: &mut Vec<Relation>,
) -> Result<(), AllocError>
    ensures { OnOk result (relations.new.items ≡ relations.old.items ++ sums_relation form names.now sign a b ∷ []) }
{
    let left = sum_of(alloc, form, names, a.term, 0)?;
    let right = sum_of(alloc, form, names, b.term, gap_of(a, b))?;
    add_relation(left, sign, right, relations)
}

/// Adds that a number is less than another.
fn add_less(
    alloc: Global,
    form: Form,
    names: &[&[u8]],
    a: Bound,
    b: Bound,
    relations: &mut Vec<Relation>,
) -> Result<(), AllocError>
    ensures { OnOk result (relations.new.items ≡ relations.old.items ++ less_relation form names.now a b ∷ []) }
{
    let left = sum_of(alloc, form, names, a.term, 0)?;
    let right = sum_of(alloc, form, names, b.term, 0)?;
    add_relation(left, Sign::Less, right, relations)
}

/// Adds that a number is at most another, or less.
fn add_order(
    alloc: Global,
    form: Form,
    names: &[&[u8]],
    a: Bound,
    b: Bound,
    relations: &mut Vec<Relation>,
) -> Result<(), AllocError>
    ensures { OnOk result (relations.new.items ≡ relations.old.items ++ order_relation form names.now a b ∷ []) }
{
    if gap_of(a, b) == -1 {
        return add_less(alloc, form, names, a, b, relations);
    }
    add_sums(alloc, form, names, Sign::AtMost, a, b, relations)
}

/// Adds what a fact says, but for which elements have values.
pub(crate) fn add_fact(
    alloc: Global,
    form: Form,
    names: &[&[u8]],
    fact: Fact,
    relations: &mut Vec<Relation>,
) -> Result<(), AllocError>
    ensures { OnOk result (relations.new.items ≡ relations.old.items ++ fact_relations form names.now fact) }
{
    match fact {
        Fact::AtMost(a, b) => add_order(alloc, form, names, a, b, relations),
        Fact::Unequal(a, b) => add_sums(alloc, form, names, Sign::Unequal, a, b, relations),
        Fact::Filled(_) | Fact::KeysWithin(_) | Fact::ValuesAreKeys(_) => Ok(()),
    }
}
