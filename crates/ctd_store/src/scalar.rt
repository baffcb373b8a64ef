//! The value of a name without indices.

ghost use Rattle.std.specs.Prelude.{◌≡◌, ℕ, List, true, false, None, Some, Ok, IfSome, OnErr, is_some};
ghost use Rattle.std.specs.Option.{option_copied};
ghost use Rattle.ctd_store.specs.calls.ValueRef.{value_of_ref};
ghost use Rattle.ctd_store.specs.declared.value.Value.TheVariants as values;

use crate::value::Value;
use crate::value_ref::ValueRef;
use std::alloc::{AllocError, Global};
use std::marker::Model;
use std::mem::replace;

/// The value without indices, if there is one, which contracts see as such. Most are numbers of 64 bits: these stand here twice, so that one
/// look tells the kind, the size and the number.
pub(crate) struct Scalar {
    value: Option<Value>,
    number: Option<i64>,
}

// Written out, and not derived, as that of `Value`.
impl Drop for Scalar {
    fn drop(self) {
        let Scalar {
            value: _,
            number: _,
        } = self;
    }
}

impl Model for Scalar {
    ghost use Rattle.std.specs.Prelude.{◌≡◌, Option, Some, IfSome};
    ghost use Rattle.ctd_store.specs.declared.value.Value as declared;
    ghost use Rattle.ctd_store.specs.declared.value.Value.TheVariants as values;

    ghost Value = { Option declared.Value };

    ghost view = { λ s. s.value };

    ghost invariant = { λ s. IfSome s.number (λ n. s.value ≡ Some (values.Int n)) };
}

impl Scalar {
    /// No value.
    pub(crate) fn none() -> Scalar
        ensures { result ≡ None }
    {
        Scalar {
            value: None,
            number: None,
        }
    }

    /// The value.
    #[inline(always)]
    pub(crate) fn value(&self) -> Option<&Value>
        ensures { option_copied result ≡ self.now }
    {
        self.value.as_ref()
    }

    /// Whether there is one.
    pub(crate) fn is_some(&self) -> bool
        ensures { result ≡ is_some self.now }
    {
        self.value.is_some()
    }

    /// The value, where it is a number of 64 bits that stands here as such.
    #[inline(always)]
    pub(crate) fn fast_number(&self) -> Option<i64>
        ensures { IfSome result (λ n. self.now ≡ Some (values.Int n)) }
    {
        self.number
    }

    /// Puts a number in the place of one of 64 bits that stands here as such, and tells whether one did. Else all is as it was.
    #[inline(always)]
    pub(crate) fn put_number(&mut self, n: i64) -> bool
        ensures done { result ≡ true → self.new ≡ Some (values.Int n) }
        ensures there { result ≡ true → is_some self.old ≡ true }
        ensures stays { result ≡ false → self.new ≡ self.old }
    {
        match &mut self.number {
            Some(number) => *number = n,
            None => return false,
        }
        match &mut self.value {
            Some(stored) => put_in_number(stored, n),
            None => unreachable!(),
        }
        true
    }

    /// Takes a value in the place of any other.
    pub(crate) fn put(&mut self, value: Value)
        ensures { self.new ≡ Some value }
    {
        self.number = ValueRef::of(&value).as_i64();
        drop(replace(&mut self.value, Some(value)));
    }

    /// Puts a value in the place of another, if there is one, and tells whether it did. Else all is as it was; so it is after an error.
    #[inline(always)]
    pub(crate) fn write(&mut self, alloc: Global, value: ValueRef<'_>) -> Result<bool, AllocError>
        ensures done { result ≡ Ok true → self.new ≡ Some (value_of_ref value.entry) }
        ensures stays { result ≡ Ok false → self.new ≡ self.old }
        ensures err { OnErr result (self.new ≡ self.old) }
    {
        match &mut self.value {
            Some(stored) => {
                value.put_into(alloc, stored)?;
                self.number = value.as_i64();
                Ok(true)
            }
            None => Ok(false),
        }
    }

    /// Removes the value.
    pub(crate) fn clear(&mut self)
        ensures { self.new ≡ None }
    {
        self.number = None;
        drop(replace(&mut self.value, None));
    }
}

/// Puts a number in the place of another.
#[inline(always)]
fn put_in_number(stored: &mut Value, n: i64)
    requires { (bytes : List ℕ) → stored.old ≡ values.Text bytes → ⊥ }
    ensures { stored.new ≡ values.Int n }
{
    match stored {
        Value::Int(stored) => *stored = i128::from(n),
        Value::Text(_) => unreachable!(),
    }
}
