//! The values of an array that are found without a map: the one without indices, a row and a grid.

ghost use Rattle.std.specs.Prelude.{◌≡◌, ◌≢◌, ◌++◌, ◌∷◌, [], map, true, false, None, Some, Ok, OnOk, OnErr};
ghost use Rattle.std.specs.List.{list_any};
ghost use Rattle.std.specs.Option.{option_copied, IfSome};
ghost use Rattle.std.specs.FinMap.{find};
ghost use Rattle.ctd_store.specs.calls.Index.{indices_at};
ghost use Rattle.ctd_store.specs.calls.Showing.{entry};
ghost use Rattle.ctd_store.specs.calls.Store.{numbered};
ghost use Rattle.ctd_store.specs.calls.ValueRef.{value_of_ref};
ghost use Rattle.ctd_store.specs.calls.Places.{place_entries, scalar_entry};
ghost use Rattle.ctd_store.specs.inner.Reading.{ReadsAs};
ghost use Rattle.ctd_store.specs.Order.{values_cmp, same_value};
ghost use Rattle.ctd_store.specs.Store.{has_indices};
ghost use Rattle.ctd_store.specs.declared.value.Value.TheVariants as values;

use crate::array::add_entry;
use crate::grid::Grid;
use crate::index::{Index, Indices};
use crate::line::{Line, Row};
use crate::scalar::Scalar;
use crate::store::EntryRef;
use crate::value::Value;
use crate::value_ref::ValueRef;
use std::alloc::{AllocError, Global};

/// Values at no index, at one number and at two numbers.
pub(crate) struct Places {
    // The value without indices, which is asked for most.
    pub(crate) scalar: Scalar,
    // From 0, from 1 or from behind a pin on.
    pub(crate) row: Line,
    pub(crate) grid: Grid,
}

// Written out, and not derived, as that of `Value`.
impl Drop for Places {
    fn drop(self) {
        let Places {
            scalar: _,
            row: _,
            grid: _,
        } = self;
    }
}

impl Places {
    /// No values; takes no memory.
    pub(crate) fn new(alloc: Global) -> Places
        ensures empty { place_entries result ≡ [] }
    {
        Places {
            scalar: Scalar::none(),
            row: Line::new(alloc),
            grid: Grid::new(alloc),
        }
    }

    /// The value at an index whose numbers stand as such. `None` means: take the general path. Allocates nothing.
    #[inline(always)]
    pub(crate) fn at(&self, index: Index<'_>) -> Option<&Value>
        ensures value { IfSome result (λ value. find values_cmp (indices_at index.entry) (place_entries self.now) ≡ Some value.now) }
    {
        match index {
            Index::Scalar => self.scalar.value(),
            Index::One(number) => self.row.at(number),
            Index::Two(row, column) => self.grid.at(row, column),
            Index::List(_) => None,
        }
    }

    /// The value at an index list. Allocates nothing.
    pub(crate) fn get(&self, indices: &[Value]) -> Option<&Value>
        ensures value { option_copied result ≡ find values_cmp indices.now (place_entries self.now) }
    {
        match indices {
            [] => self.scalar.value(),
            [index] => self.row.get(index),
            [row, column] => self.grid.get(row, column),
            _ => None,
        }
    }

    /// The row, where there is nothing else.
    pub(crate) fn row_alone(&self) -> Option<Row<'_>>
        ensures value { IfSome result (λ row. place_entries self.now ≡ numbered [] row.base row.values.now) }
    {
        if self.scalar.is_some() {
            return None;
        }
        if !self.grid.rows.is_empty() {
            return None;
        }
        Some(Row {
            base: self.row.base,
            values: &self.row.values,
        })
    }

    /// Gives an index whose numbers stand as such a value, where that has a place or one just behind the others of a row, and tells whether it
    /// did. Else all is as it was; so it is after an error.
    #[inline(always)]
    pub(crate) fn write(
        &mut self,
        alloc: Global,
        index: Index<'_>,
        value: ValueRef<'_>,
    ) -> Result<bool, AllocError>
        ensures done { result ≡ Ok true → ReadsAs (place_entries self.new) ((indices_at index.entry, value_of_ref value.entry) ∷ place_entries self.old) }
        ensures stays { result ≡ Ok false → place_entries self.new ≡ place_entries self.old }
        ensures err { OnErr result (place_entries self.new ≡ place_entries self.old) }
    {
        match index {
            Index::Scalar => self.scalar.write(alloc, value),
            Index::One(number) => self.row.write(alloc, number, value),
            Index::Two(row, column) => self.grid.write(alloc, row, column, value),
            Index::List(_) => Ok(false),
        }
    }

    /// Puts a number in the place of one of 64 bits without indices, and tells whether there was one. Else all is as it was.
    #[inline(always)]
    pub(crate) fn put_number(&mut self, n: i64) -> bool
        ensures done { result ≡ true → ReadsAs (place_entries self.new) (([], values.Int n) ∷ place_entries self.old) }
        ensures there { result ≡ true → has_indices (place_entries self.old) [] ≡ true }
        ensures stays { result ≡ false → place_entries self.new ≡ place_entries self.old }
    {
        self.scalar.put_number(n)
    }

    /// Gives an index list a value, where that has a place here or begins one, and tells whether it did. Else all is as it was; so it is after
    /// an error.
    pub(crate) fn insert(
        &mut self,
        alloc: Global,
        indices: &[Value],
        value: ValueRef<'_>,
    ) -> Result<bool, AllocError>
        ensures done { result ≡ Ok true → ReadsAs (place_entries self.new) ((indices.now, value_of_ref value.entry) ∷ place_entries self.old) }
        ensures stays { result ≡ Ok false → place_entries self.new ≡ place_entries self.old }
        ensures elsewhere { result ≡ Ok false → find values_cmp indices.now (place_entries self.old) ≡ None }
        ensures indexed { result ≡ Ok false → indices.now ≢ [] }
        ensures err { OnErr result (place_entries self.new ≡ place_entries self.old) }
    {
        match indices {
            [] => {
                self.scalar.put(value.to_value(alloc)?);
                Ok(true)
            }
            [index] => self.row.insert(alloc, index, value),
            [row, column] => self.grid.insert(alloc, row, column, value),
            _ => Ok(false),
        }
    }

    /// Removes all values; a short row keeps its room for the next ones.
    pub(crate) fn clear(&mut self)
        ensures empty { place_entries self.new ≡ [] }
    {
        self.scalar.clear();
        self.row.clear();
        self.grid.clear();
    }

    /// Adds the entries to others.
    pub(crate) fn add_entries<'s>(
        &'s self,
        entries: &mut Vec<EntryRef<'s>>,
    ) -> Result<(), AllocError>
        ensures added { OnOk result (map entry entries.new.items ≡ map entry entries.old.items ++ place_entries self.now) }
    {
        add_scalar(&self.scalar, entries)?;
        self.row.add_entries(None, entries)?;
        self.grid.add_entries(entries)
    }

    /// Whether a value is among these. Allocates nothing.
    pub(crate) fn has_value(&self, value: ValueRef<'_>) -> bool
        ensures value { result ≡ list_any (λ e. same_value (value_of_ref value.entry) e.1) (place_entries self.now) }
    {
        if is_scalar(&self.scalar, value) {
            return true;
        }
        if value.is_among(&self.row.values) {
            return true;
        }
        self.grid.has_value(value)
    }
}

/// Adds the entry of a value without indices, if there is one, to others.
fn add_scalar<'s>(scalar: &'s Scalar, entries: &mut Vec<EntryRef<'s>>) -> Result<(), AllocError>
    ensures added { OnOk result (map entry entries.new.items ≡ map entry entries.old.items ++ scalar_entry scalar.now) }
{
    match scalar.value() {
        Some(value) => add_entry(Indices::List(&[]), value, entries),
        None => Ok(()),
    }
}

/// Whether a value is the one without indices.
fn is_scalar(scalar: &Scalar, value: ValueRef<'_>) -> bool
    ensures value { result ≡ list_any (λ e. same_value (value_of_ref value.entry) e.1) (scalar_entry scalar.now) }
{
    match scalar.value() {
        Some(stored) => value.is_same(stored),
        None => false,
    }
}
