//! Values that are not copied.

ghost use Rattle.std.specs.Int.{w64};
ghost use Rattle.std.specs.List.{list_any};
ghost use Rattle.std.specs.Prelude.{◌≡◌, ◌≤◌, ℤ, ℕ, List, length, true, false, FitsSigned, IfNone, IfOk, IfSome, OnOk, OnErr};
ghost use Rattle.ctd_store.specs.calls.ValueRef.{value_of_ref};
ghost use Rattle.ctd_store.specs.Order.{value_cmp, same_value};
ghost use Rattle.ctd_store.specs.declared.value.Value.TheVariants as values;

use crate::value::{Value, as_i64};
use ctd_token::Bytes;
use std::alloc::{AllocError, Global};
use std::cmp::Ordering;
use std::mem::replace;

/// A number, or the bytes of a literal or a variable where they stand.
#[derive(Clone, Copy)]
pub enum ValueRef<'v> {
    /// A number, which is copied.
    Int(i128),
    /// The bytes of a string, in the program or in a store.
    Text(&'v [u8]),
}

impl<'v> ValueRef<'v> {
    /// The value of a variable.
    pub fn of(value: &'v Value) -> ValueRef<'v>
        ensures same { value_of_ref result ≡ value.now }
    {
        match value {
            Value::Int(n) => ValueRef::Int(*n),
            Value::Text(bytes) => ValueRef::Text(bytes.as_slice()),
        }
    }

    /// A copy of the value; a number takes no memory.
    #[inline(always)]
    pub fn to_value(self, alloc: Global) -> Result<Value, AllocError>
        ensures same { IfOk result (λ value. value ≡ value_of_ref self.entry) }
    {
        match self {
            ValueRef::Int(n) => Ok(Value::Int(n)),
            ValueRef::Text(bytes) => text_value(alloc, bytes),
        }
    }

    /// Takes the place of a value of its kind, where that takes no memory, and tells whether it did; otherwise leaves it unchanged. A number takes
    /// none, and neither does a string that is no longer than the one in its place.
    #[inline(always)]
    pub fn replaces(self, value: &mut Value) -> bool
        ensures done { result ≡ true → value.new ≡ value_of_ref self.entry }
        ensures stays { result ≡ false → value.new ≡ value.old }
        ensures number { (n m : ℤ) → value_of_ref self.entry ≡ values.Int n → value.old ≡ values.Int m → result ≡ true }
        ensures text { (bytes stored : List ℕ) → value_of_ref self.entry ≡ values.Text bytes → value.old ≡ values.Text stored →
            length bytes ≤ length stored → result ≡ true }
    {
        match (self, value) {
            (ValueRef::Int(n), Value::Int(stored)) => {
                *stored = n;
                true
            }
            (ValueRef::Text(bytes), Value::Text(stored)) => stored.overwrite(bytes),
            _ => false,
        }
    }

    /// Takes the place of a value. A number takes no memory for it, and neither does a string that is no longer than one in its place; after an
    /// error that value is as it was.
    #[inline(always)]
    pub(crate) fn put_into(self, alloc: Global, value: &mut Value) -> Result<(), AllocError>
        ensures ok { OnOk result (value.new ≡ value_of_ref self.entry) }
        ensures err { OnErr result (value.new ≡ value.old) }
    {
        if self.replaces(value) {
            return Ok(());
        }
        match self {
            ValueRef::Int(n) => {
                put_number(value, n);
                Ok(())
            }
            ValueRef::Text(bytes) => put_text(alloc, value, bytes),
        }
    }

    /// The number, where it is one and has 64 bits.
    #[inline(always)]
    pub fn as_i64(self) -> Option<i64>
        ensures value { IfSome result (λ n. value_of_ref self.entry ≡ values.Int n) }
        ensures none { IfNone result ((n : ℤ) → value_of_ref self.entry ≡ values.Int n → FitsSigned w64 n → ⊥) }
    {
        match self {
            ValueRef::Int(n) => as_i64(n),
            ValueRef::Text(_) => None,
        }
    }

    /// How it stands to another value in the order of values.
    pub fn order(self, other: ValueRef<'_>) -> Ordering
        ensures value { result ≡ value_cmp (value_of_ref self.entry) (value_of_ref other.entry) }
    {
        match (self, other) {
            (ValueRef::Int(a), ValueRef::Int(b)) => a.cmp(&b),
            (ValueRef::Int(_), ValueRef::Text(_)) => Ordering::Less,
            (ValueRef::Text(_), ValueRef::Int(_)) => Ordering::Greater,
            (ValueRef::Text(a), ValueRef::Text(b)) => a.cmp(b),
        }
    }

    /// Whether it is the value of a variable.
    pub(crate) fn is_same(self, value: &Value) -> bool
        ensures value { result ≡ same_value (value_of_ref self.entry) value.now }
    {
        self.order(ValueRef::of(value)).is_eq()
    }

    /// Whether it is one of some values.
    pub(crate) fn is_among(self, values: &[Value]) -> bool
        ensures value { result ≡ list_any (λ x. same_value (value_of_ref self.entry) x) values.now }
    {
        for value in values {
            if self.is_same(value) {
                return true;
            }
        }
        false
    }
}

/// Puts a number in the place of a value.
#[cold]
#[inline(never)]
fn put_number(value: &mut Value, n: i128)
    ensures same { value.new ≡ values.Int n }
{
    drop(replace(value, Value::Int(n)));
}

/// Puts a copy of a string in the place of a value; after an error that value is as it was.
#[cold]
#[inline(never)]
fn put_text(alloc: Global, value: &mut Value, bytes: &[u8]) -> Result<(), AllocError>
    ensures ok { OnOk result (value.new ≡ values.Text bytes.now) }
    ensures err { OnErr result (value.new ≡ value.old) }
{
    drop(replace(value, text_value(alloc, bytes)?));
    Ok(())
}

/// The string with a copy of these bytes.
#[inline(never)]
fn text_value(alloc: Global, bytes: &[u8]) -> Result<Value, AllocError>
    ensures same { IfOk result (λ value. value ≡ values.Text bytes.now) }
{
    Ok(Value::Text(Bytes::copy(alloc, bytes)?))
}
