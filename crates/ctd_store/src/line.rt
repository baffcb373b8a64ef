//! Values at numbers that follow one another.

ghost use Rattle.std.specs.Prelude.{◌≡◌, ◌≢◌, ℕ, pos, ◌+◌, ◌<◌, List, [], ◌∷◌, ◌++◌, map, true, false, None, Ok, OnOk, OnErr};
ghost use Rattle.std.specs.Option.{option_copied, IfSome, IfNone};
ghost use Rattle.std.specs.FinMap.{find};
ghost use Rattle.ctd_store.specs.calls.Index.{indices_of};
ghost use Rattle.ctd_store.specs.calls.Showing.{entry};
ghost use Rattle.ctd_store.specs.calls.Store.{slot};
ghost use Rattle.ctd_store.specs.calls.ValueRef.{value_of_ref};
ghost use Rattle.ctd_store.specs.declared.value.Value.{Value};
ghost use Rattle.ctd_store.specs.declared.value.Value.TheVariants as values;
ghost use Rattle.ctd_store.specs.calls.Places.{along};
ghost use Rattle.ctd_store.specs.inner.Reading.{front_list, ReadsAs};
ghost use Rattle.ctd_store.specs.Order.{values_cmp};

use crate::array::add_entry;
use crate::index::Indices;
use crate::store::EntryRef;
use crate::value::Value;
use crate::value_list::{clear_list, write};
use crate::value_ref::ValueRef;
use std::alloc::{AllocError, Global};

/// Values at the numbers from a base on. The numbers are the last index of index lists that all begin alike.
pub(crate) struct Line {
    pub(crate) base: usize,
    pub(crate) values: Vec<Value>,
}

// Written out, and not derived, as that of `Value`.
impl Drop for Line {
    fn drop(self) {
        let Line { base: _, values: _ } = self;
    }
}

/// Values at the numbers from a base on, where they stand.
#[derive(Clone, Copy)]
pub struct Row<'s> {
    /// The number of the first value.
    pub base: usize,
    /// The values, each at the number behind that of the one before it.
    pub values: &'s [Value],
}

impl Line {
    /// No values; takes no memory.
    pub(crate) fn new(alloc: Global) -> Line
        ensures empty { (front : List Value) → along front result ≡ [] }
    {
        Line {
            base: 0,
            values: Vec::new(alloc),
        }
    }

    /// The value at a number of 64 bits. Allocates nothing.
    #[inline(always)]
    pub(crate) fn at(&self, number: usize) -> Option<&Value>
        ensures value { (front : List Value) → option_copied result ≡ find values_cmp (front ++ slot number) (along front self.now) }
    {
        Some(&self.values[number_below(self.base, self.values.len(), number)?])
    }

    /// The value at an index. Allocates nothing.
    pub(crate) fn get(&self, index: &Value) -> Option<&Value>
        ensures value { (front : List Value) → option_copied result ≡ find values_cmp (front ++ index.now ∷ []) (along front self.now) }
    {
        Some(&self.values[place_of(self.base, self.values.len(), index)?])
    }

    /// Gives a number of 64 bits a value, where it stands among the values or just behind them, and tells whether it did. Else all is as it
    /// was; so it is after an error.
    #[inline(always)]
    pub(crate) fn write(
        &mut self,
        alloc: Global,
        number: usize,
        value: ValueRef<'_>,
    ) -> Result<bool, AllocError>
        ensures done { result ≡ Ok true → (front : List Value) → ReadsAs (along front self.new) ((front ++ slot number, value_of_ref value.entry) ∷ along front self.old) }
        ensures stays { result ≡ Ok false → (front : List Value) → along front self.new ≡ along front self.old }
        ensures err { OnErr result ((front : List Value) → along front self.new ≡ along front self.old) }
    {
        match number_below(self.base, self.values.len() + 1, number) {
            Some(at) => {
                write(alloc, &mut self.values, at, value)?;
                Ok(true)
            }
            None => Ok(false),
        }
    }

    /// Gives an index a value, as `write` does. Where there are no values, they begin at 0 or 1 if that is the index.
    pub(crate) fn insert(
        &mut self,
        alloc: Global,
        index: &Value,
        value: ValueRef<'_>,
    ) -> Result<bool, AllocError>
        ensures done { result ≡ Ok true → (front : List Value) → ReadsAs (along front self.new) ((front ++ index.now ∷ [], value_of_ref value.entry) ∷ along front self.old) }
        ensures stays { result ≡ Ok false → (front : List Value) → along front self.new ≡ along front self.old }
        ensures elsewhere { result ≡ Ok false → (front : List Value) → find values_cmp (front ++ index.now ∷ []) (along front self.old) ≡ None }
        ensures err { OnErr result ((front : List Value) → along front self.new ≡ along front self.old) }
    {
        self.base = base_for(self.base, self.values.len(), first_number(self.base, index));
        match place_of(self.base, self.values.len() + 1, index) {
            Some(at) => {
                write(alloc, &mut self.values, at, value)?;
                Ok(true)
            }
            None => Ok(false),
        }
    }

    /// Lets values that are yet to come begin behind a number.
    pub(crate) fn begin_behind(&mut self, number: usize)
        ensures same { (front : List Value) → along front self.new ≡ along front self.old }
    {
        self.base = base_for(self.base, self.values.len(), number.saturating_add(1));
    }

    /// Removes all values; where they are few, their room stays for the next ones.
    pub(crate) fn clear(&mut self)
        ensures empty { (front : List Value) → along front self.new ≡ [] }
    {
        clear_list(&mut self.values);
    }

    /// Adds the entries to others, each behind the number at a place from a base on, if there is one.
    pub(crate) fn add_entries<'s>(
        &'s self,
        front: Option<(usize, usize)>,
        entries: &mut Vec<EntryRef<'s>>,
    ) -> Result<(), AllocError>
        ensures added { OnOk result (map entry entries.new.items ≡ map entry entries.old.items ++ along (front_list front) self.now) }
    {
        for at in 0..self.values.len() {
            let indices = indices_behind(front, self.base, at);
            add_entry(indices, &self.values[at], entries)?;
        }
        Ok(())
    }
}

/// The index list of the number at a place from a base on, behind another such number, if there is one.
fn indices_behind<'s>(front: Option<(usize, usize)>, base: usize, at: usize) -> Indices<'s>
    ensures value { indices_of result ≡ front_list front ++ slot (base + at) }
{
    let number = Value::Int(base as i128 + at as i128);
    match front {
        Some((first, place)) => Indices::Two([Value::Int(first as i128 + place as i128), number]),
        None => Indices::One([number]),
    }
}

/// Where values begin: where they do, or where there are none yet at another number.
pub(crate) fn base_for(base: usize, count: usize, first: usize) -> usize
    ensures kept { 0 < count → result ≡ base }
    ensures begun { count ≡ 0 → result ≡ first }
{
    if count > 0 { base } else { first }
}

/// The number with which values begin: 0 or 1 if that is the first index that gets a value, and else a base.
fn first_number(base: usize, index: &Value) -> usize {
    match index {
        Value::Int(0) => 0,
        Value::Int(1) => 1,
        _ => base,
    }
}

/// Where a number of 64 bits stands from a base on, where it is below a bound there.
#[inline(always)]
pub(crate) fn number_below(base: usize, bound: usize, number: usize) -> Option<usize>
    ensures found { IfSome result (λ n. (n < bound) × (number ≡ base + n)) }
    ensures none { IfNone result ((n : ℕ) → n < bound → number ≢ base + n) }
{
    if number < base {
        return None;
    }
    let at = number - base;
    if at < bound { Some(at) } else { None }
}

/// Where an index stands from a base on, where it is a number below a bound there.
pub(crate) fn place_of(base: usize, bound: usize, index: &Value) -> Option<usize>
    ensures found { IfSome result (λ n. (n < bound) × (index.now ≡ values.Int (pos (base + n)))) }
    ensures none { IfNone result ((n : ℕ) → n < bound → index.now ≢ values.Int (pos (base + n))) }
{
    match index {
        Value::Int(number) => place_below(base, bound, *number),
        Value::Text(_) => None,
    }
}

/// Where a number stands from a base on, where it is below a bound there.
fn place_below(base: usize, bound: usize, number: i128) -> Option<usize>
    ensures found { IfSome result (λ n. (n < bound) × (number ≡ pos (base + n))) }
    ensures none { IfNone result ((n : ℕ) → n < bound → number ≢ pos (base + n)) }
{
    match usize::try_from(number.checked_sub(base as i128)?) {
        Ok(at) if at < bound => Some(at),
        _ => None,
    }
}
