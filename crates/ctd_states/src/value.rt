//! Abstract values of names, and states as lists of them.

ghost use Rattle.std.specs.Prelude.{◌≡◌, ◌≤◌, ◌<◌, ◌^◌, true, false, ℕ, ℤ, Some, None, IfSome, IfOk, map, length, List};
ghost use Rattle.ctd_store.specs.declared.value.Value.{Value};
ghost use Rattle.ctd_range.specs.declared.range.Range.{Range};
ghost use Rattle.ctd_range.specs.calls.Ranges.{IsIn};
ghost use Rattle.ctd_states.specs.declared.value.Lengths.{Lengths};
ghost use Rattle.std.specs.Borrow.{Bor};
ghost use Rattle.ctd_states.specs.calls.States.{MayBe, named_values, Tells, name_at, IsImpossible, StateIsWithin};
ghost use Rattle.ctd_states.specs.inner.Changed.{NameIsWithin};
ghost use Rattle.ctd_states.specs.calls.Changed.{with_value};

use crate::stop::Stop;
use ctd_range::Range;
use std::alloc::Global;

/// The lengths of strings, in bytes.
#[derive(Clone, Copy)]
pub struct Lengths {
    pub least: u64,
    pub most: u64,
}

/// Which values a variable may have: strings of these lengths, if any, and integers of this range, if any.
#[derive(Clone, Copy)]
pub struct PossibleValues {
    pub text: Option<Lengths>,
    pub number: Option<Range>,
}

/// The abstract value of a name: whether it may have no value without indices, which it may have, and which it may have at indices. The name itself
/// stands in a list of names, at the same index.
#[derive(Clone, Copy)]
pub struct AbstractValue {
    pub may_lack: bool,
    pub alone: PossibleValues,
    pub elements: PossibleValues,
}

/// The name at an index: behind the last there is the empty one, which no variable has.
fn name_at<'n>(names: &[&'n [u8]], i: usize) -> &'n [u8]
    ensures { result.now ≡ name_at names.now i }
{
    match names.get(i) {
        Some(name) => name,
        None => &[],
    }
}

/// The index of a name, if it is listed among names that stand in order.
pub fn index_of(names: &[&[u8]], entries: &[AbstractValue], name: &[u8]) -> Option<usize>
    ensures inside { IfSome result (λ i. i < length entries.now) }
    ensures named { IfSome result (λ i. name_at names.now i ≡ name.now) }
{
    match names.binary_search(&name) {
        Ok(i) if i < entries.len() && name_at(names, i) == name => Some(i),
        _ => None,
    }
}

/// The abstract value of a name, if it is listed.
pub fn abstract_value(
    names: &[&[u8]],
    entries: &[AbstractValue],
    name: &[u8],
) -> Option<AbstractValue>
    ensures tells { IfSome result (λ value. Tells (named_values names.now entries.now) name.now value) }
{
    match index_of(names, entries, name) {
        Some(i) => Some(entries[i]),
        None => None,
    }
}

/// Whether all lengths are among others.
fn lengths_are_within(a: Option<Lengths>, b: Option<Lengths>) -> bool
    ensures within { result ≡ true → (l : Lengths) → a ≡ Some l → (m : Lengths) × (b ≡ Some m) × (m.least ≤ l.least) × (l.most ≤ m.most) }
{
    match (a, b) {
        (None, _) => true,
        (Some(a), Some(b)) => b.least <= a.least && a.most <= b.most,
        (Some(_), None) => false,
    }
}

/// Whether all numbers are among others.
fn numbers_are_within(a: Option<Range>, b: Option<Range>) -> bool
    ensures within { result ≡ true → (r : Range) → a ≡ Some r → (s : Range) × (b ≡ Some s) × ((n : ℕ) (x : ℤ) → n < 2 ^ 64 → IsIn r n x → IsIn s n x) }
{
    match (a, b) {
        (None, _) => true,
        (Some(a), Some(b)) => ctd_range::is_within(a, b),
        (Some(_), None) => false,
    }
}

/// Whether all values are among others.
pub(crate) fn values_are_within(a: PossibleValues, b: PossibleValues) -> bool
    ensures within { result ≡ true → (n : ℕ) (v : Value) → n < 2 ^ 64 → MayBe a n v → MayBe b n v }
{
    lengths_are_within(a.text, b.text) && numbers_are_within(a.number, b.number)
}

/// Whether a name may lack a value only where another abstract value of it says so.
fn lacks_are_within(a: bool, b: bool) -> bool
    ensures { result ≡ true → a ≡ true → b ≡ true }
{
    !a || b
}

/// Whether an abstract value is within another.
fn name_is_within(a: AbstractValue, b: AbstractValue) -> bool
    ensures within { result ≡ true → NameIsWithin a b }
{
    if !lacks_are_within(a.may_lack, b.may_lack) {
        return false;
    }
    values_are_within(a.alone, b.alone) && values_are_within(a.elements, b.elements)
}

/// Whether no value is possible where a value is sure.
fn is_impossible(value: AbstractValue) -> bool
    ensures none { result ≡ true → (value.may_lack ≡ false) × (value.alone.text ≡ None) × (value.alone.number ≡ None) }
{
    !value.may_lack && value.alone.text.is_none() && value.alone.number.is_none()
}

/// Whether no run comes to a state.
pub fn is_unreachable(entries: &[AbstractValue]) -> bool
    ensures never { result ≡ true → (names : List (Bor (List ℕ))) → IsImpossible (named_values names entries.now) }
{
    for value in entries {
        if is_impossible(*value) {
            return true;
        }
    }
    false
}

/// Whether each abstract value of a state is within that of another.
fn follow(entries: &[AbstractValue], others: &[AbstractValue]) -> bool
    ensures all { result ≡ true → (names : List (Bor (List ℕ))) → StateIsWithin (named_values names entries.now) (named_values names others.now) }
{
    for (i, other) in others.iter().enumerate() {
        match entries.get(i) {
            Some(value) if name_is_within(*value, *other) => (),
            _ => return false,
        }
    }
    true
}

/// Whether a state is within another, or unreachable.
pub fn is_within(entries: &[AbstractValue], others: &[AbstractValue]) -> bool
    ensures all { result ≡ true → (names : List (Bor (List ℕ))) → StateIsWithin (named_values names entries.now) (named_values names others.now) }
{
    is_unreachable(entries) || follow(entries, others)
}

/// The abstract value of a name, or a new one where it is this name.
fn with_value(own: &[u8], entry: AbstractValue, name: &[u8], value: AbstractValue) -> AbstractValue
    ensures { record { name = own.now; value = result } ≡ with_value name.now value (record { name = own.now; value = entry }) }
{
    if own == name { value } else { entry }
}

/// Gives a name another abstract value.
pub fn replace_value(
    names: &[&[u8]],
    entries: &mut [AbstractValue],
    name: &[u8],
    value: AbstractValue,
)
    ensures { named_values names.now entries.new ≡ map (with_value name.now value) (named_values names.now entries.old) }
{
    for (i, entry) in entries.iter_mut().enumerate() {
        *entry = with_value(name_at(names, i), *entry, name, value);
    }
}

/// A copy of a state.
pub fn copy_of(alloc: Global, entries: &[AbstractValue]) -> Result<Vec<AbstractValue>, Stop>
    ensures { IfOk result (λ after. after.items ≡ entries.now) }
{
    let copy = entries.to_vec(alloc)?;
    Ok(copy)
}
