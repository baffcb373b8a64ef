//! The variables: what is pinned, and what is assigned.

ghost use Rattle.std.specs.Prelude.{◌≡◌, ◌≢◌, ◌↔◌, ℕ, [], ◌∷◌, ◌++◌, true, false, length, None, Some, IfSome, IfNone, IfOk, OnOk, OnErr, IsOk, IsTrue, IsPermutation, AllPairs, map};
ghost use Rattle.std.specs.List.{list_any};
ghost use Rattle.std.specs.Option.{option_copied, unwrap_or};
ghost use Rattle.std.specs.FinMap.{find, put};
ghost use Rattle.ctd_store.specs.calls.Index.{indices_at, indices_of};
ghost use Rattle.ctd_store.specs.calls.ValueRef.{value_of_ref};
ghost use Rattle.ctd_store.specs.Order.{bytes_cmp, values_cmp, same_value};
ghost use Rattle.ctd_store.specs.inner.Slot.{name_in};
ghost use Rattle.ctd_store.specs.Store.{initial, is_pinned, value_at, array_of, assign, unset, values_of, value_of, with_pin, with_value, has_indices};
ghost use Rattle.ctd_store.specs.calls.Store.{numbered};
ghost use Rattle.ctd_store.specs.calls.Showing.{entry};
ghost use Rattle.ctd_store.specs.declared.value.Value.TheVariants as values;

use crate::array::{Array, add_entries, get, has_value};
use crate::index::{Index, Indices};
use crate::line::Row;
use crate::positions::Positions;
use crate::slot::Slot;
use crate::value::{Key, Value};
use crate::value_ref::ValueRef;
use ctd_program::{Preset, PresetValue, Presets};
use ctd_token::Name;
use std::alloc::{AllocError, Global};
use std::marker::Model;

/// The variables with their values. A pinned variable keeps the value of its preset.
pub struct Store {
    // Each name once, in the order in which they came.
    slots: Vec<Slot>,
    // Where each name stands in the list.
    positions: Positions,
}

// Written out, and not derived, as that of `Value`.
impl Drop for Store {
    fn drop(self) {
        let Store {
            slots: _,
            positions: _,
        } = self;
    }
}

impl Model for Store {
    ghost use Rattle.std.specs.Prelude.{T};
    ghost use Rattle.ctd_store.specs.calls.Slot.{arrays_by, pins_in, values_in};
    ghost use Rattle.ctd_store.specs.Store.{Bindings};
    ghost use Rattle.ctd_store.specs.calls.Store.{in_order, have_positions};

    ghost Value = { Bindings };

    ghost view = { λ s. record { pins = in_order (arrays_by pins_in s.slots.items); assigned = in_order (arrays_by values_in s.slots.items) } };

    ghost invariant = { λ s. T (have_positions 0 (arrays_by pins_in s.slots.items) s.positions) × T (have_positions 0 (arrays_by values_in s.slots.items) s.positions) };
}

/// The indices of an entry of a name, and its value.
pub struct EntryRef<'s> {
    pub indices: Indices<'s>,
    pub value: &'s Value,
}

// Written out, and not derived, as that of `Value`.
impl Drop for EntryRef<'_> {
    fn drop(self) {
        let EntryRef {
            indices: _,
            value: _,
        } = self;
    }
}

impl Store {
    /// The presets pinned, the last of a key, and nothing assigned; or an error where no memory is left for them.
    pub fn new(alloc: Global, presets: &Presets) -> Result<Store, AllocError>
        ensures pins { IfOk result (λ store. store ≡ initial presets.now) }
    {
        let mut store = Store {
            slots: Vec::new(alloc),
            positions: Positions::new(alloc),
        };
        for preset in presets.pins() {
            store.pin(alloc, preset)?;
        }
        Ok(store)
    }

    /// Pins what a preset says, and unsets its name.
    fn pin(&mut self, alloc: Global, preset: &Preset) -> Result<(), AllocError>
        ensures ok { OnOk result (self.new ≡ unset (record { pins = with_pin self.old.pins preset.now; assigned = self.old.assigned }) preset.now.name) }
    {
        let indices = literal_values(alloc, preset.indices.as_slice())?;
        let value = literal_ref(&preset.value);
        self.pin_at(alloc, &preset.name, Index::of(indices.as_slice()), value)
    }

    /// Pins a name at an index to a value, and unsets the name. Presets are pinned before anything is assigned, so nothing is lost.
    fn pin_at(
        &mut self,
        alloc: Global,
        name: &Name,
        index: Index<'_>,
        value: ValueRef<'_>,
    ) -> Result<(), AllocError>
        ensures ok { OnOk result (self.new ≡ unset (record { pins = with_value (record { name = name.now; indices = indices_at index.entry }) (value_of_ref value.entry) self.old.pins; assigned = self.old.assigned }) name.now) }
    {
        match position(&self.slots, &self.positions, name) {
            Some(at) => self.slots[at].pin(alloc, index, value),
            None => {
                let slot = Slot::of_pin(alloc, name, index, value)?;
                add_slot(alloc, &mut self.slots, &mut self.positions, name, slot)
            }
        }
    }

    /// The value of a key: its pin, or else what was assigned last. Allocates nothing.
    pub fn get(&self, key: &Key) -> Option<&Value>
        ensures value { option_copied result ≡ value_at self.now key.now }
    {
        self.value_at(key.stored_name(), Index::of(key.indices()))
    }

    /// The value of a name at an index: its pin, or else what was assigned last. Allocates nothing.
    #[inline(always)]
    pub fn value_at(&self, name: &Name, index: Index<'_>) -> Option<&Value>
        ensures value { option_copied result ≡ value_at self.now (record { name = name.now; indices = indices_at index.entry }) }
        ensures listed { option_copied result ≡ find values_cmp (indices_at index.entry) (values_of self.now name.now) }
    {
        match fast_position(&self.slots, &self.positions, name) {
            Some(at) => self.slots[at].value(index),
            None => self.value_by_list(name, index),
        }
    }

    /// The value of a name at an index, where its hint leads to the name and the value stands in its place. `None` means: take the general path.
    /// Calls nothing.
    #[inline(always)]
    pub fn fast_value_at(&self, name: &Name, index: Index<'_>) -> Option<&Value>
        ensures value { IfSome result (λ x. value_at self.now (record { name = name.now; indices = indices_at index.entry }) ≡ Some x.now) }
    {
        let at = fast_position(&self.slots, &self.positions, name)?;
        self.slots[at].fast_value(index)
    }

    /// The number that a name has without indices, where its hint leads to the name and the number has 64 bits. `None` means: take the
    /// general path. Calls nothing.
    #[inline(always)]
    pub fn fast_number(&self, name: &Name) -> Option<i64>
        ensures value { IfSome result (λ n. value_at self.now (record { name = name.now; indices = [] }) ≡ Some (values.Int n)) }
    {
        let at = fast_position(&self.slots, &self.positions, name)?;
        self.slots[at].fast_number()
    }

    /// Gives a name a number, as `assign` does, where its hint leads to the name and it has another one of 64 bits, and tells whether it did. Else
    /// all is as it was. Calls nothing.
    #[inline(always)]
    pub fn put_number(&mut self, name: &Name, n: i64) -> bool
        ensures done { result ≡ true → self.new ≡ assign self.old (record { name = name.now; indices = [] }) (values.Int n) }
        ensures stays { result ≡ false → self.new ≡ self.old }
    {
        match fast_position(&self.slots, &self.positions, name) {
            Some(at) => self.slots[at].put_number(n),
            None => false,
        }
    }

    /// The value of a name at an index, by a search. In line, so that only this rare way makes room for the values of the index.
    #[inline(always)]
    fn value_by_list(&self, name: &Name, index: Index<'_>) -> Option<&Value>
        ensures value { option_copied result ≡ value_at self.now (record { name = name.now; indices = indices_at index.entry }) }
    {
        self.value_at_list(name, index.to_indices().as_slice())
    }

    /// The value of a name at an index list, by a search. Out of line: keeps the caller small.
    #[cold]
    #[inline(never)]
    fn value_at_list(&self, name: &Name, indices: &[Value]) -> Option<&Value>
        ensures value { option_copied result ≡ value_at self.now (record { name = name.now; indices = indices.now }) }
    {
        let (pins, assigned) = self.arrays(name);
        match get(pins, indices) {
            Some(value) => Some(value),
            None => get(assigned, indices),
        }
    }

    /// What is pinned of a name and what is assigned to it. Allocates nothing.
    #[inline(always)]
    fn arrays(&self, name: &Name) -> (Option<&Array>, Option<&Array>)
        ensures pins { unwrap_or (option_copied result.0) [] ≡ array_of name.now self.now.pins }
        ensures assigned { unwrap_or (option_copied result.1) [] ≡ array_of name.now self.now.assigned }
        ensures values { values_of self.now name.now ≡ unwrap_or (option_copied result.0) [] ++ unwrap_or (option_copied result.1) [] }
    {
        match position(&self.slots, &self.positions, name) {
            Some(at) => self.slots[at].arrays(),
            None => (None, None),
        }
    }

    /// The values of a name, where nothing of it is pinned and they are a row alone. `None` means: take the general path.
    pub fn row(&self, name: &Name) -> Option<Row<'_>>
        ensures value { IfSome result (λ row. values_of self.now name.now ≡ numbered [] row.base row.values.now) }
    {
        let (pins, assigned) = self.arrays(name);
        match pins {
            Some(_) => None,
            None => assigned?.row(),
        }
    }

    /// Whether a name has a value at some indices. Allocates nothing.
    pub fn has_indices(&self, name: &Name, indices: &[Value]) -> bool
        ensures value { result ≡ has_indices (values_of self.now name.now) indices.now }
    {
        self.value_at(name, Index::List(indices)).is_some()
    }

    /// Whether a value is among those of a name. Allocates nothing.
    pub fn has_value(&self, name: &Name, value: ValueRef<'_>) -> bool
        ensures value { result ≡ list_any (λ e. same_value (value_of_ref value.entry) e.1) (values_of self.now name.now) }
    {
        let (pins, assigned) = self.arrays(name);
        has_value(pins, value) || has_value(assigned, value)
    }

    /// Gives a key a value. A pinned key stays as it is, and that takes no memory; after an error the variables are as they
    /// were.
    pub fn assign(&mut self, key: Key, value: Value) -> Result<(), AllocError>
        ensures ok { OnOk result (self.new ≡ assign self.old key value) }
        ensures pinned { IsTrue (is_pinned self.old key) → IsOk result }
        ensures err { OnErr result (self.new ≡ self.old) }
    {
        let (name, indices) = key.into_parts();
        let alloc = *indices.allocator();
        self.assign_at(alloc, &name, Index::of(&indices), ValueRef::of(&value))
    }

    /// Gives a name a value at an index, as `assign` does. A number takes no memory at an index that has a value, and neither does a string
    /// that is no longer than the one in its place.
    #[inline(always)]
    pub fn assign_at(
        &mut self,
        alloc: Global,
        name: &Name,
        index: Index<'_>,
        value: ValueRef<'_>,
    ) -> Result<(), AllocError>
        ensures ok { OnOk result (self.new ≡ assign self.old (record { name = name.now; indices = indices_at index.entry }) (value_of_ref value.entry)) }
        ensures pinned { IsTrue (is_pinned self.old (record { name = name.now; indices = indices_at index.entry })) → IsOk result }
        ensures err { OnErr result (self.new ≡ self.old) }
    {
        match fast_position(&self.slots, &self.positions, name) {
            Some(at) => self.slots[at].assign(alloc, index, value),
            None => self.assign_out_of_line(alloc, name, index, value),
        }
    }

    /// Gives a name a value at an index, by a search for the name. In line, so that only this rare way makes room for what it passes on.
    #[inline(always)]
    fn assign_out_of_line(
        &mut self,
        alloc: Global,
        name: &Name,
        index: Index<'_>,
        value: ValueRef<'_>,
    ) -> Result<(), AllocError>
        ensures ok { OnOk result (self.new ≡ assign self.old (record { name = name.now; indices = indices_at index.entry }) (value_of_ref value.entry)) }
        ensures pinned { IsTrue (is_pinned self.old (record { name = name.now; indices = indices_at index.entry })) → IsOk result }
        ensures err { OnErr result (self.new ≡ self.old) }
    {
        self.assign_by_search(alloc, name, index, value)
    }

    /// Gives a name a value at an index, by a search for the name. Out of line: keeps the caller small.
    #[cold]
    #[inline(never)]
    fn assign_by_search(
        &mut self,
        alloc: Global,
        name: &Name,
        index: Index<'_>,
        value: ValueRef<'_>,
    ) -> Result<(), AllocError>
        ensures ok { OnOk result (self.new ≡ assign self.old (record { name = name.now; indices = indices_at index.entry }) (value_of_ref value.entry)) }
        ensures pinned { IsTrue (is_pinned self.old (record { name = name.now; indices = indices_at index.entry })) → IsOk result }
        ensures err { OnErr result (self.new ≡ self.old) }
    {
        match position(&self.slots, &self.positions, name) {
            Some(at) => self.slots[at].assign(alloc, index, value),
            None => {
                let slot = Slot::of_value(alloc, name, index, value)?;
                add_slot(alloc, &mut self.slots, &mut self.positions, name, slot)
            }
        }
    }

    /// Removes all that was assigned to a name, at whatever indices; pins stay. Allocates nothing.
    pub fn unset(&mut self, name: &Name)
        ensures value { self.new ≡ unset self.old name.now }
    {
        if let Some(at) = position(&self.slots, &self.positions, name) {
            self.slots[at].unset();
        }
    }

    /// Each key of a name that has a value, once and with its value, in no stated order; or an error where no memory is left
    /// for the list.
    pub fn entries(&self, alloc: Global, name: &Name) -> Result<Vec<EntryRef<'_>>, AllocError>
        ensures each_once { IfOk result (λ list. IsPermutation (values_of self.now name.now) (map entry list.items)) }
        ensures distinct { IfOk result (λ list. AllPairs (λ a b. indices_of a.indices ≢ indices_of b.indices) list.items) }
    {
        let (pins, assigned) = self.arrays(name);
        let mut entries = Vec::new(alloc);
        add_entries(pins, &mut entries)?;
        add_entries(assigned, &mut entries)?;
        Ok(entries)
    }
}

/// Where a name stands in a list. Only where its hint leads elsewhere, the name is searched for.
#[inline(always)]
fn position(slots: &[Slot], positions: &Positions, name: &Name) -> Option<usize>
    ensures found { IfSome result (λ at. name_in slots.now at ≡ Some name.now) }
    ensures none { IfNone result ((at : ℕ) → find bytes_cmp name.now positions.now ≡ Some at → name_in slots.now at ≢ Some name.now) }
{
    match fast_position(slots, positions, name) {
        Some(at) => Some(at),
        None => position_by_search(slots, positions, name),
    }
}

/// Where a short name stands in a list, where its hint leads there. `None` means: take the general path.
#[inline(always)]
fn fast_position(slots: &[Slot], positions: &Positions, name: &Name) -> Option<usize>
    ensures found { IfSome result (λ at. name_in slots.now at ≡ Some name.now) }
{
    let at = positions.hint(name);
    match slots.get(at) {
        Some(slot) if slot.name.is_same_short(name) => Some(at),
        _ => None,
    }
}

/// Where a name stands in a list, by its bytes: where its hint leads, or else by a search. Out of line: keeps the caller small.
#[cold]
#[inline(never)]
fn position_by_search(slots: &[Slot], positions: &Positions, name: &Name) -> Option<usize>
    ensures found { IfSome result (λ at. name_in slots.now at ≡ Some name.now) }
    ensures none { IfNone result ((at : ℕ) → find bytes_cmp name.now positions.now ≡ Some at → name_in slots.now at ≢ Some name.now) }
{
    let at = positions.hint(name);
    if has_name(slots, at, name) {
        return Some(at);
    }
    match positions.get(name) {
        Some(at) if has_name(slots, at, name) => Some(at),
        _ => None,
    }
}

/// Whether a name stands at a position of a list.
fn has_name(slots: &[Slot], at: usize, name: &Name) -> bool
    ensures value { IsTrue result ↔ (name_in slots.now at ≡ Some name.now) }
{
    match slots.get(at) {
        Some(slot) => slot.name.as_slice() == name.as_slice(),
        None => false,
    }
}

/// Adds a slot with its name; after an error the list and the positions are as they were.
fn add_slot(
    alloc: Global,
    slots: &mut Vec<Slot>,
    positions: &mut Positions,
    name: &Name,
    slot: Slot,
) -> Result<(), AllocError>
    ensures ok { OnOk result ((slots.new.items ≡ slots.old.items ++ slot ∷ []) × (positions.new ≡ put bytes_cmp name.now (length slots.old.items) positions.old)) }
    ensures err { OnErr result ((slots.new.items ≡ slots.old.items) × (positions.new ≡ positions.old)) }
{
    slots.reserve(1)?;
    positions.insert(alloc, name, slots.len())?;
    slots.push_reserved(slot);
    Ok(())
}

/// The value that a literal is, where it stands.
fn literal_ref(literal: &PresetValue) -> ValueRef<'_>
    ensures value { value_of_ref result ≡ value_of literal.now }
{
    match literal {
        PresetValue::Int(n) => ValueRef::Int(*n),
        PresetValue::Text(bytes) => ValueRef::Text(bytes.as_slice()),
    }
}

/// The values that literals are.
fn literal_values(alloc: Global, literals: &[PresetValue]) -> Result<Vec<Value>, AllocError>
    ensures values { IfOk result (λ values. values.items ≡ map value_of literals.now) }
{
    let mut values = Vec::new(alloc);
    for literal in literals {
        values.push(literal_ref(literal).to_value(alloc)?)?;
    }
    Ok(values)
}
