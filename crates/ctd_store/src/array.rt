//! The array of a name: index lists with their values.

ghost use Rattle.std.specs.Prelude.{◌≡◌, [], ◌∷◌, ◌++◌, map, true, false, Some, IfSome, IsPermutation, OnOk, OnErr};
ghost use Rattle.std.specs.List.{list_any};
ghost use Rattle.std.specs.Option.{option_copied, unwrap_or};
ghost use Rattle.std.specs.FinMap.{find, put};
ghost use Rattle.ctd_store.specs.calls.Index.{indices_at, indices_of};
ghost use Rattle.ctd_store.specs.calls.ValueRef.{value_of_ref};
ghost use Rattle.ctd_store.specs.calls.Places.{place_entries, listed};
ghost use Rattle.ctd_store.specs.inner.Reading.{visible_entries};
ghost use Rattle.ctd_store.specs.Order.{values_cmp, same_value};
ghost use Rattle.ctd_store.specs.calls.Showing.{entry};
ghost use Rattle.ctd_store.specs.calls.Store.{numbered};
ghost use Rattle.ctd_store.specs.Store.{first_of_each, has_indices};
ghost use Rattle.ctd_store.specs.declared.value.Value.TheVariants as values;

use crate::index::{Index, Indices, copy_all};
use crate::line::Row;
use crate::places::Places;
use crate::store::EntryRef;
use crate::value::Value;
use crate::value_list::ROOM_KEPT;
use crate::value_ref::ValueRef;
use indexmap::IndexMap;
use std::alloc::{AllocError, Global};
use std::marker::Model;
use std::mem::replace;

/// Index lists with their values, each index list once, which contracts see as the list of them in order.
pub(crate) struct Array {
    // The values that are found without a map.
    places: Places,
    // All others, by a hash of their index lists, none of which is empty. A value at an index list that has a place since then is hidden by the one in that place.
    rest: IndexMap<Vec<Value>, Value>,
}

// Written out, and not derived, as that of `Value`.
impl Drop for Array {
    fn drop(self) {
        let Array { places: _, rest: _ } = self;
    }
}

impl Model for Array {
    ghost use Rattle.std.specs.Prelude.{◌≡◌, ◌++◌, [], None};
    ghost use Rattle.std.specs.FinMap.{find};
    ghost use Rattle.ctd_store.specs.Order.{values_cmp};
    ghost use Rattle.ctd_store.specs.Store.{Array};
    ghost use Rattle.ctd_store.specs.calls.Store.{by_indices};
    ghost use Rattle.ctd_store.specs.calls.Places.{place_entries, listed};

    ghost Value = { Array };

    ghost view = { λ a. by_indices (place_entries a.places ++ listed a.rest.entries) };

    ghost invariant = { λ a. find values_cmp [] (listed a.rest.entries) ≡ None };
}

impl Array {
    /// The array with no values; takes no memory.
    pub(crate) fn new(alloc: Global) -> Array
        ensures empty { result ≡ [] }
    {
        Array {
            places: Places::new(alloc),
            rest: IndexMap::new(alloc),
        }
    }

    /// The value at an index. Allocates nothing.
    #[inline(always)]
    pub(crate) fn value(&self, index: Index<'_>) -> Option<&Value>
        ensures value { option_copied result ≡ find values_cmp (indices_at index.entry) self.now }
    {
        match index {
            Index::Scalar => self.places.scalar.value(),
            _ => match self.places.at(index) {
                Some(value) => Some(value),
                None => self.value_by_list(index),
            },
        }
    }

    /// The number that stands without indices, where it has 64 bits. `None` means: take the general path. Calls nothing.
    #[inline(always)]
    pub(crate) fn fast_number(&self) -> Option<i64>
        ensures value { IfSome result (λ n. find values_cmp [] self.now ≡ Some (values.Int n)) }
    {
        self.places.scalar.fast_number()
    }

    /// Puts a number in the place of one of 64 bits without indices, and tells whether there was one. Else all is as it was. Calls nothing.
    #[inline(always)]
    pub(crate) fn put_number(&mut self, n: i64) -> bool
        ensures done { result ≡ true → self.new ≡ put values_cmp [] (values.Int n) self.old }
        ensures there { result ≡ true → has_indices self.old [] ≡ true }
        ensures stays { result ≡ false → self.new ≡ self.old }
    {
        self.places.put_number(n)
    }

    /// The value at an index, where it stands in its place. `None` means: take the general path. Calls nothing.
    #[inline(always)]
    pub(crate) fn fast_value(&self, index: Index<'_>) -> Option<&Value>
        ensures value { IfSome result (λ x. find values_cmp (indices_at index.entry) self.now ≡ Some x.now) }
    {
        self.places.at(index)
    }

    /// The value at an index, by a list of its values. Out of line: keeps the caller small.
    #[cold]
    #[inline(never)]
    fn value_by_list(&self, index: Index<'_>) -> Option<&Value>
        ensures value { option_copied result ≡ find values_cmp (indices_at index.entry) self.now }
    {
        self.get(index.to_indices().as_slice())
    }

    /// The value at an index list. Allocates nothing.
    pub(crate) fn get(&self, indices: &[Value]) -> Option<&Value>
        ensures value { option_copied result ≡ find values_cmp indices.now self.now }
    {
        match self.places.get(indices) {
            Some(value) => Some(value),
            None => value_in_rest(&self.rest, indices),
        }
    }

    /// The values, where they are a row alone. `None` means: take the general path.
    pub(crate) fn row(&self) -> Option<Row<'_>>
        ensures value { IfSome result (λ row. self.now ≡ numbered [] row.base row.values.now) }
    {
        let row = self.places.row_alone()?;
        if self.rest.is_empty() {
            Some(row)
        } else {
            None
        }
    }

    /// Gives an index list a value; after an error all is as it was.
    #[inline(always)]
    pub(crate) fn insert(
        &mut self,
        alloc: Global,
        index: Index<'_>,
        value: ValueRef<'_>,
    ) -> Result<(), AllocError>
        ensures ok { OnOk result (self.new ≡ put values_cmp (indices_at index.entry) (value_of_ref value.entry) self.old) }
        ensures err { OnErr result (self.new ≡ self.old) }
    {
        if self.places.write(alloc, index, value)? {
            return Ok(());
        }
        self.insert_out_of_line(alloc, index, value)
    }

    /// Gives an index list a value; after an error all is as it was. In line, so that only this rare way makes room for what it passes on.
    #[inline(always)]
    fn insert_out_of_line(
        &mut self,
        alloc: Global,
        index: Index<'_>,
        value: ValueRef<'_>,
    ) -> Result<(), AllocError>
        ensures ok { OnOk result (self.new ≡ put values_cmp (indices_at index.entry) (value_of_ref value.entry) self.old) }
        ensures err { OnErr result (self.new ≡ self.old) }
    {
        self.insert_by_list(alloc, index, value)
    }

    /// Gives an index list a value; after an error all is as it was. Out of line: keeps the caller small.
    #[cold]
    #[inline(never)]
    fn insert_by_list(
        &mut self,
        alloc: Global,
        index: Index<'_>,
        value: ValueRef<'_>,
    ) -> Result<(), AllocError>
        ensures ok { OnOk result (self.new ≡ put values_cmp (indices_at index.entry) (value_of_ref value.entry) self.old) }
        ensures err { OnErr result (self.new ≡ self.old) }
    {
        self.insert_at_list(alloc, index.to_indices().as_slice(), value)
    }

    /// Gives an index list a value; after an error all is as it was. Apart from `insert_by_list`, so that no way out of it drops its values.
    fn insert_at_list(
        &mut self,
        alloc: Global,
        indices: &[Value],
        value: ValueRef<'_>,
    ) -> Result<(), AllocError>
        ensures ok { OnOk result (self.new ≡ put values_cmp indices.now (value_of_ref value.entry) self.old) }
        ensures err { OnErr result (self.new ≡ self.old) }
    {
        if self.places.insert(alloc, indices, value)? {
            return Ok(());
        }
        let list = copy_all(alloc, indices)?;
        let value = value.to_value(alloc)?;
        self.rest.insert(list, value)?;
        Ok(())
    }

    /// Lets a row with no values begin behind an index that is a number.
    pub(crate) fn begin_behind(&mut self, index: Index<'_>)
        ensures same { self.new ≡ self.old }
    {
        if let Index::One(number) = index {
            self.places.row.begin_behind(number);
        }
    }

    /// Removes all values; a small map keeps its room for the next ones.
    pub(crate) fn clear(&mut self)
        ensures empty { self.new ≡ [] }
    {
        self.places.clear();
        clear_map(&mut self.rest);
    }

    /// Adds the entries to others, in no stated order.
    fn add_entries<'s>(&'s self, entries: &mut Vec<EntryRef<'s>>) -> Result<(), AllocError>
        ensures added { OnOk result (IsPermutation (map entry entries.old.items ++ self.now) (map entry entries.new.items)) }
    {
        self.places.add_entries(entries)?;
        add_rest(&self.rest, &self.places, entries)
    }

    /// Whether a value is among those of the array. Allocates nothing.
    fn has_value(&self, value: ValueRef<'_>) -> bool
        ensures value { result ≡ list_any (λ e. same_value (value_of_ref value.entry) e.1) self.now }
    {
        self.places.has_value(value) || rest_has_value(&self.rest, &self.places, value)
    }
}

/// The value that an array, if there is one, has at an index list. Allocates nothing.
pub(crate) fn get<'s>(array: Option<&'s Array>, indices: &[Value]) -> Option<&'s Value>
    ensures value { option_copied result ≡ find values_cmp indices.now (unwrap_or (option_copied array.entry) []) }
{
    array?.get(indices)
}

/// Adds the entries of an array, if there is one, to others, in no stated order.
pub(crate) fn add_entries<'s>(
    array: Option<&'s Array>,
    entries: &mut Vec<EntryRef<'s>>,
) -> Result<(), AllocError>
    ensures added { OnOk result (IsPermutation (map entry entries.old.items ++ unwrap_or (option_copied array.entry) []) (map entry entries.new.items)) }
{
    match array {
        Some(array) => array.add_entries(entries),
        None => Ok(()),
    }
}

/// Whether a value is among those of an array, if there is one. Allocates nothing.
pub(crate) fn has_value(array: Option<&Array>, value: ValueRef<'_>) -> bool
    ensures value { result ≡ list_any (λ e. same_value (value_of_ref value.entry) e.1) (unwrap_or (option_copied array.entry) []) }
{
    match array {
        Some(array) => array.has_value(value),
        None => false,
    }
}

/// Adds an entry to others.
pub(crate) fn add_entry<'s>(
    indices: Indices<'s>,
    value: &'s Value,
    entries: &mut Vec<EntryRef<'s>>,
) -> Result<(), AllocError>
    ensures added { OnOk result (map entry entries.new.items ≡ map entry entries.old.items ++ (indices_of indices.entry, value.now) ∷ []) }
{
    entries.push(EntryRef { indices, value })?;
    Ok(())
}

/// Adds those entries of a map to others whose index lists have no place.
fn add_rest<'s>(
    rest: &'s IndexMap<Vec<Value>, Value>,
    places: &Places,
    entries: &mut Vec<EntryRef<'s>>,
) -> Result<(), AllocError>
    ensures added { OnOk result (map entry entries.new.items ≡ map entry entries.old.items ++ visible_entries (place_entries places.now) (first_of_each (listed rest.now.entries))) }
{
    for (indices, value) in rest {
        add_beside(places, indices.as_slice(), value, entries)?;
    }
    Ok(())
}

/// Adds an entry to others, unless its index list has a place.
fn add_beside<'s>(
    places: &Places,
    indices: &'s [Value],
    value: &'s Value,
    entries: &mut Vec<EntryRef<'s>>,
) -> Result<(), AllocError>
    ensures added { OnOk result (map entry entries.new.items ≡ map entry entries.old.items ++ visible_entries (place_entries places.now) ((indices.now, value.now) ∷ [])) }
{
    if places.get(indices).is_some() {
        return Ok(());
    }
    add_entry(Indices::List(indices), value, entries)
}

/// The value at an index list in a map. Out of line: keeps the caller small.
#[inline(never)]
fn value_in_rest<'a>(rest: &'a IndexMap<Vec<Value>, Value>, indices: &[Value]) -> Option<&'a Value>
    ensures value { option_copied result ≡ find values_cmp indices.now (listed rest.now.entries) }
{
    rest.get(indices)
}

/// Whether a value stands in a map, at an index list that has no place. Allocates nothing.
fn rest_has_value(rest: &IndexMap<Vec<Value>, Value>, places: &Places, value: ValueRef<'_>) -> bool
    ensures value { result ≡ list_any (λ e. same_value (value_of_ref value.entry) e.1) (visible_entries (place_entries places.now) (first_of_each (listed rest.now.entries))) }
{
    for (indices, stored) in rest {
        if value.is_same(stored) && places.get(indices.as_slice()).is_none() {
            return true;
        }
    }
    false
}

/// Removes all values of a map; if it has much room, also that.
fn clear_map(map: &mut IndexMap<Vec<Value>, Value>)
    ensures empty { map.new.entries ≡ [] }
{
    if map.capacity() <= ROOM_KEPT {
        map.clear();
    } else {
        let empty = IndexMap::new(*map.allocator());
        drop(replace(map, empty));
    }
}
