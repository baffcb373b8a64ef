//! Values at two numbers: rows of values, whose numbers follow one another.

ghost use Rattle.std.specs.Prelude.{◌≡◌, ◌+◌, ◌<◌, ℕ, pos, ◌∷◌, ◌++◌, [], map, length, true, false, None, Ok, IfOk, OnOk, OnErr};
ghost use Rattle.std.specs.List.{list_any};
ghost use Rattle.std.specs.Option.{option_copied, IfSome};
ghost use Rattle.std.specs.FinMap.{find};
ghost use Rattle.ctd_store.specs.calls.Showing.{entry};
ghost use Rattle.ctd_store.specs.calls.Store.{cell};
ghost use Rattle.ctd_store.specs.calls.ValueRef.{value_of_ref};
ghost use Rattle.ctd_store.specs.declared.value.Value.TheVariants as values;
ghost use Rattle.ctd_store.specs.calls.Places.{cells, grid};
ghost use Rattle.ctd_store.specs.inner.Reading.{ReadsAs};
ghost use Rattle.ctd_store.specs.Order.{values_cmp, same_value};

use crate::line::{Line, base_for, number_below, place_of};
use crate::store::EntryRef;
use crate::value::Value;
use crate::value_list::clear_list;
use crate::value_ref::ValueRef;
use std::alloc::{AllocError, Global};

/// Values at a row and a column.
pub(crate) struct Grid {
    // The number of the first row.
    pub(crate) base: usize,
    // The values of each row, at the numbers of its columns.
    pub(crate) rows: Vec<Line>,
}

// Written out, and not derived, as that of `Value`.
impl Drop for Grid {
    fn drop(self) {
        let Grid { base: _, rows: _ } = self;
    }
}

impl Grid {
    /// No values; takes no memory.
    pub(crate) fn new(alloc: Global) -> Grid
        ensures empty { cells result ≡ [] }
    {
        Grid {
            base: 0,
            rows: Vec::new(alloc),
        }
    }

    /// The value at a row and a column of 64 bits. Allocates nothing.
    #[inline(always)]
    pub(crate) fn at(&self, row: usize, column: usize) -> Option<&Value>
        ensures value { option_copied result ≡ find values_cmp (cell row column) (cells self.now) }
    {
        self.rows[number_below(self.base, self.rows.len(), row)?].at(column)
    }

    /// The value at two indices. Allocates nothing.
    pub(crate) fn get(&self, row: &Value, column: &Value) -> Option<&Value>
        ensures value { option_copied result ≡ find values_cmp (row.now ∷ column.now ∷ []) (cells self.now) }
    {
        self.rows[place_of(self.base, self.rows.len(), row)?].get(column)
    }

    /// Gives a row and a column of 64 bits a value, where the grid has the row and the column stands in it or just behind it, and tells
    /// whether it did. Else all is as it was; so it is after an error.
    #[inline(always)]
    pub(crate) fn write(
        &mut self,
        alloc: Global,
        row: usize,
        column: usize,
        value: ValueRef<'_>,
    ) -> Result<bool, AllocError>
        ensures done { result ≡ Ok true → ReadsAs (cells self.new) ((cell row column, value_of_ref value.entry) ∷ cells self.old) }
        ensures stays { result ≡ Ok false → cells self.new ≡ cells self.old }
        ensures err { OnErr result (cells self.new ≡ cells self.old) }
    {
        match number_below(self.base, self.rows.len(), row) {
            Some(at) => self.rows[at].write(alloc, column, value),
            None => Ok(false),
        }
    }

    /// Gives two indices a value, as `write` does, or where they begin the next row. A grid with no rows begins anywhere.
    pub(crate) fn insert(
        &mut self,
        alloc: Global,
        row: &Value,
        column: &Value,
        value: ValueRef<'_>,
    ) -> Result<bool, AllocError>
        ensures done { result ≡ Ok true → ReadsAs (cells self.new) ((row.now ∷ column.now ∷ [], value_of_ref value.entry) ∷ cells self.old) }
        ensures stays { result ≡ Ok false → cells self.new ≡ cells self.old }
        ensures elsewhere { result ≡ Ok false → find values_cmp (row.now ∷ column.now ∷ []) (cells self.old) ≡ None }
        ensures err { OnErr result (cells self.new ≡ cells self.old) }
    {
        match place_of(self.base, self.rows.len(), row) {
            Some(at) => self.rows[at].insert(alloc, column, value),
            None => self.begin_row(alloc, row, column, value),
        }
    }

    /// Begins the next row with a value, or the first one anywhere, and tells whether it did. Else all is as it was; so it is after an error.
    fn begin_row(
        &mut self,
        alloc: Global,
        row: &Value,
        column: &Value,
        value: ValueRef<'_>,
    ) -> Result<bool, AllocError>
        ensures done { result ≡ Ok true → ReadsAs (cells self.new) ((row.now ∷ column.now ∷ [], value_of_ref value.entry) ∷ cells self.old) }
        ensures stays { result ≡ Ok false → cells self.new ≡ cells self.old }
        ensures err { OnErr result (cells self.new ≡ cells self.old) }
    {
        let (Some(row), Some(column)) = (number_of(row), number_of(column)) else {
            return Ok(false);
        };
        self.base = base_for(self.base, self.rows.len(), row);
        if row < self.base || row - self.base != self.rows.len() {
            return Ok(false);
        }
        add_row(alloc, &mut self.rows, column, value)?;
        Ok(true)
    }

    /// Removes all values; few rows keep their room for the next ones.
    pub(crate) fn clear(&mut self)
        ensures empty { cells self.new ≡ [] }
    {
        clear_list(&mut self.rows);
    }

    /// Adds the entries to others.
    pub(crate) fn add_entries<'s>(
        &'s self,
        entries: &mut Vec<EntryRef<'s>>,
    ) -> Result<(), AllocError>
        ensures added { OnOk result (map entry entries.new.items ≡ map entry entries.old.items ++ cells self.now) }
    {
        for at in 0..self.rows.len() {
            let front = Some((self.base, at));
            self.rows[at].add_entries(front, entries)?;
        }
        Ok(())
    }

    /// Whether a value is among those of the grid. Allocates nothing.
    pub(crate) fn has_value(&self, value: ValueRef<'_>) -> bool
        ensures value { result ≡ list_any (λ e. same_value (value_of_ref value.entry) e.1) (cells self.now) }
    {
        for row in &self.rows {
            if value.is_among(&row.values) {
                return true;
            }
        }
        false
    }
}

/// The number that an index is, where it is one that is not below 0 and has 64 bits.
fn number_of(index: &Value) -> Option<usize>
    ensures value { IfSome result (λ n. index.now ≡ values.Int (pos n)) }
{
    match index {
        Value::Int(number) => usize::try_from(*number).ok(),
        Value::Text(_) => None,
    }
}

/// Adds a row with a single value, with room for as many as the row before it has; after an error the rows are as they were.
fn add_row(
    alloc: Global,
    rows: &mut Vec<Line>,
    column: usize,
    value: ValueRef<'_>,
) -> Result<(), AllocError>
    ensures ok { OnOk result ((base : ℕ) → ReadsAs (grid base rows.new.items) ((cell (base + length rows.old.items) column, value_of_ref value.entry) ∷ grid base rows.old.items)) }
    ensures err { OnErr result (rows.new.items ≡ rows.old.items) }
{
    let room = rows.last().map_or(1, |row| row.values.len());
    rows.reserve(1)?;
    let values = list_of(alloc, room, value)?;
    rows.push_reserved(Line {
        base: column,
        values,
    });
    Ok(())
}

/// A list with a single value, with room for so many.
fn list_of(alloc: Global, room: usize, value: ValueRef<'_>) -> Result<Vec<Value>, AllocError>
    ensures value { IfOk result (λ list. list.items ≡ value_of_ref value.entry ∷ []) }
{
    let mut list = Vec::with_capacity(alloc, room)?;
    list.push(value.to_value(alloc)?)?;
    Ok(list)
}
