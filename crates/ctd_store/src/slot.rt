//! The slot of a name: what is pinned of it, and what is assigned to it.

ghost use Rattle.std.specs.Prelude.{◌≡◌, [], ◌∷◌, true, false, None, Some, IfSome, IfOk, IsOk, IsTrue, OnOk, OnErr};
ghost use Rattle.std.specs.Option.{option_copied, option_or, unwrap_or};
ghost use Rattle.std.specs.FinMap.{find, put};
ghost use Rattle.ctd_store.specs.calls.Index.{indices_at};
ghost use Rattle.ctd_store.specs.calls.ValueRef.{value_of_ref};
ghost use Rattle.ctd_store.specs.Order.{values_cmp};
ghost use Rattle.ctd_store.specs.Store.{has_indices};
ghost use Rattle.ctd_store.specs.inner.Store.{are_apart, with_unpinned};
ghost use Rattle.ctd_store.specs.declared.value.Value.TheVariants as values;

use crate::array::Array;
use crate::index::Index;
use crate::value::Value;
use crate::value_ref::ValueRef;
use ctd_token::{Name, NameKey};
use std::alloc::{AllocError, Global};
use std::mem::replace;

/// A name with the values that presets pin, if there are any, and those that were assigned, which are at other index lists. A name that
/// lost all has no values.
pub(crate) struct Slot {
    pub(crate) name: NameKey,
    pub(crate) pins: Option<Array>,
    pub(crate) values: Array,
    ghost apart: { IsTrue (are_apart (unwrap_or pins []) values) },
}

// Written out, and not derived, as that of `Value`.
impl Drop for Slot {
    fn drop(self) {
        let Slot {
            name: _,
            pins: _,
            values: _,
        } = self;
    }
}

impl Slot {
    ghost use Rattle.ctd_store.specs.calls.Slot.{pins_in};

    /// A name with no values, or an error where no memory is left for it.
    pub(crate) fn new(alloc: Global, name: &Name) -> Result<Slot, AllocError>
        ensures name { IfOk result (λ slot. slot.name ≡ name.now) }
        ensures pins { IfOk result (λ slot. pins_in slot ≡ []) }
        ensures values { IfOk result (λ slot. slot.values ≡ []) }
    {
        let copied = Name::copy(alloc, name.as_slice())?;
        Ok(Slot {
            name: NameKey::new(copied),
            pins: None,
            values: Array::new(alloc),
        })
    }

    /// A name with a single value that is assigned, or an error where no memory is left for it.
    pub(crate) fn of_value(
        alloc: Global,
        name: &Name,
        index: Index<'_>,
        value: ValueRef<'_>,
    ) -> Result<Slot, AllocError>
        ensures name { IfOk result (λ slot. slot.name ≡ name.now) }
        ensures pins { IfOk result (λ slot. pins_in slot ≡ []) }
        ensures values { IfOk result (λ slot. slot.values ≡ (indices_at index.entry, value_of_ref value.entry) ∷ []) }
    {
        let mut slot = Slot::new(alloc, name)?;
        slot.assign(alloc, index, value)?;
        Ok(slot)
    }

    /// A name with a single pin, or an error where no memory is left for it.
    pub(crate) fn of_pin(
        alloc: Global,
        name: &Name,
        index: Index<'_>,
        value: ValueRef<'_>,
    ) -> Result<Slot, AllocError>
        ensures name { IfOk result (λ slot. slot.name ≡ name.now) }
        ensures pins { IfOk result (λ slot. pins_in slot ≡ (indices_at index.entry, value_of_ref value.entry) ∷ []) }
        ensures values { IfOk result (λ slot. slot.values ≡ []) }
    {
        let mut slot = Slot::new(alloc, name)?;
        slot.pin(alloc, index, value)?;
        Ok(slot)
    }

    /// What is pinned and what is assigned.
    #[inline(always)]
    pub(crate) fn arrays(&self) -> (Option<&Array>, Option<&Array>)
        ensures pins { unwrap_or (option_copied result.0) [] ≡ pins_in self.now }
        ensures assigned { unwrap_or (option_copied result.1) [] ≡ self.now.values }
    {
        (self.pins.as_ref(), Some(&self.values))
    }

    /// The value at an index list: its pin, or else what was assigned. Allocates nothing.
    #[inline(always)]
    pub(crate) fn value(&self, index: Index<'_>) -> Option<&Value>
        ensures value { option_copied result ≡ option_or (find values_cmp (indices_at index.entry) (pins_in self.now)) (find values_cmp (indices_at index.entry) self.now.values) }
    {
        match &self.pins {
            Some(pins) => { value_under_pins(pins, &self.values, index.to_indices().as_slice()) }
            None => self.values.value(index),
        }
    }

    /// The number without indices, where it is assigned and has 64 bits: then none is pinned. `None` means: take the general path. Calls nothing.
    #[inline(always)]
    pub(crate) fn fast_number(&self) -> Option<i64>
        ensures value { IfSome result (λ n. option_or (find values_cmp [] (pins_in self.now)) (find values_cmp [] self.now.values) ≡ Some (values.Int n)) }
    {
        self.values.fast_number()
    }

    /// Puts a number in the place of one of 64 bits without indices that is assigned, and tells whether there was one. Else all is as it was.
    /// Calls nothing.
    #[inline(always)]
    pub(crate) fn put_number(&mut self, n: i64) -> bool
        ensures name { self.new.name ≡ self.old.name }
        ensures pins { pins_in self.new ≡ pins_in self.old }
        ensures done { result ≡ true → self.new.values ≡ with_unpinned (pins_in self.old) [] (values.Int n) self.old.values }
        ensures stays { result ≡ false → self.new.values ≡ self.old.values }
    {
        self.values.put_number(n)
    }

    /// The value at an index, where it is assigned and stands in its place: then none is pinned. `None` means: take the general path. Calls
    /// nothing.
    #[inline(always)]
    pub(crate) fn fast_value(&self, index: Index<'_>) -> Option<&Value>
        ensures value { IfSome result (λ x. option_or (find values_cmp (indices_at index.entry) (pins_in self.now)) (find values_cmp (indices_at index.entry) self.now.values) ≡ Some x.now) }
    {
        self.values.fast_value(index)
    }

    /// Gives an index list a value, unless a preset pins it; after an error all is as it was.
    #[inline(always)]
    pub(crate) fn assign(
        &mut self,
        alloc: Global,
        index: Index<'_>,
        value: ValueRef<'_>,
    ) -> Result<(), AllocError>
        ensures name { self.new.name ≡ self.old.name }
        ensures pins { pins_in self.new ≡ pins_in self.old }
        ensures ok { OnOk result (self.new.values ≡ with_unpinned (pins_in self.old) (indices_at index.entry) (value_of_ref value.entry) self.old.values) }
        ensures pinned { IsTrue (has_indices (pins_in self.old) (indices_at index.entry)) → IsOk result }
        ensures err { OnErr result (self.new.values ≡ self.old.values) }
    {
        match self.pins {
            None => self.values.insert(alloc, index, value),
            Some(_) => self.assign_beside_pins(alloc, index, value),
        }
    }

    /// Gives an index list a value, unless a preset pins it; after an error all is as it was. In line, so that only this way makes room for
    /// what it passes on.
    #[inline(always)]
    fn assign_beside_pins(
        &mut self,
        alloc: Global,
        index: Index<'_>,
        value: ValueRef<'_>,
    ) -> Result<(), AllocError>
        ensures name { self.new.name ≡ self.old.name }
        ensures pins { pins_in self.new ≡ pins_in self.old }
        ensures ok { OnOk result (self.new.values ≡ with_unpinned (pins_in self.old) (indices_at index.entry) (value_of_ref value.entry) self.old.values) }
        ensures pinned { IsTrue (has_indices (pins_in self.old) (indices_at index.entry)) → IsOk result }
        ensures err { OnErr result (self.new.values ≡ self.old.values) }
    {
        self.assign_unpinned(alloc, index, value)
    }

    /// Gives an index list a value, unless a preset pins it; after an error all is as it was. Out of line: keeps the caller small.
    #[cold]
    #[inline(never)]
    fn assign_unpinned(
        &mut self,
        alloc: Global,
        index: Index<'_>,
        value: ValueRef<'_>,
    ) -> Result<(), AllocError>
        ensures name { self.new.name ≡ self.old.name }
        ensures pins { pins_in self.new ≡ pins_in self.old }
        ensures ok { OnOk result (self.new.values ≡ with_unpinned (pins_in self.old) (indices_at index.entry) (value_of_ref value.entry) self.old.values) }
        ensures pinned { IsTrue (has_indices (pins_in self.old) (indices_at index.entry)) → IsOk result }
        ensures err { OnErr result (self.new.values ≡ self.old.values) }
    {
        if self.is_pinned(index) {
            return Ok(());
        }
        self.values.insert(alloc, index, value)
    }

    /// Pins an index list to a value, and removes what was assigned; after an error the pins are as they were. Where the index is a number,
    /// a row of assigned values may begin behind it.
    pub(crate) fn pin(
        &mut self,
        alloc: Global,
        index: Index<'_>,
        value: ValueRef<'_>,
    ) -> Result<(), AllocError>
        ensures name { self.new.name ≡ self.old.name }
        ensures values { self.new.values ≡ [] }
        ensures ok { OnOk result (pins_in self.new ≡ put values_cmp (indices_at index.entry) (value_of_ref value.entry) (pins_in self.old)) }
        ensures err { OnErr result (pins_in self.new ≡ pins_in self.old) }
    {
        self.unset();
        self.values.begin_behind(index);
        match &mut self.pins {
            Some(pins) => pins.insert(alloc, index, value),
            None => {
                let mut pins = Array::new(alloc);
                pins.insert(alloc, index, value)?;
                drop(replace(&mut self.pins, Some(pins)));
                Ok(())
            }
        }
    }

    /// Removes what was assigned; pins stay. Allocates nothing.
    pub(crate) fn unset(&mut self)
        ensures name { self.new.name ≡ self.old.name }
        ensures pins { pins_in self.new ≡ pins_in self.old }
        ensures values { self.new.values ≡ [] }
    {
        self.values.clear();
    }

    /// Whether a preset pins an index list.
    fn is_pinned(&self, index: Index<'_>) -> bool
        ensures value { result ≡ has_indices (pins_in self.now) (indices_at index.entry) }
    {
        match &self.pins {
            Some(pins) => is_among(pins, index),
            None => false,
        }
    }
}

/// Whether an array has a value at an index.
fn is_among(array: &Array, index: Index<'_>) -> bool
    ensures value { result ≡ has_indices array.now (indices_at index.entry) }
{
    array.get(index.to_indices().as_slice()).is_some()
}

/// The value at an index list: that of the first array, or else that of the second. Out of line: keeps the caller small.
#[cold]
#[inline(never)]
fn value_under_pins<'s>(pins: &'s Array, values: &'s Array, indices: &[Value]) -> Option<&'s Value>
    ensures value { option_copied result ≡ option_or (find values_cmp indices.now pins.now) (find values_cmp indices.now values.now) }
{
    match pins.get(indices) {
        Some(value) => Some(value),
        None => values.get(indices),
    }
}
