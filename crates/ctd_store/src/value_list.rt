//! Lists of values, and of rows of them: a value at a place or behind the others, and a list emptied.

ghost use Rattle.std.specs.Prelude.{◌≡◌, suc, ◌<◌, ◌≤◌, length, take, drop, [], ◌∷◌, ◌++◌, OnOk, OnErr};
ghost use Rattle.ctd_store.specs.calls.ValueRef.{value_of_ref};
ghost use Rattle.ctd_store.specs.declared.value.Value.TheVariants.{Int, Text};

use crate::value::Value;
use crate::value_ref::ValueRef;
use std::alloc::{AllocError, Global};
use std::mem::replace;

/// How many elements the room is for that a list may keep while it has none. To fill a longer list costs far more than to make room for it again.
pub(crate) const ROOM_KEPT: usize = 64;

/// Gives a slot of a list a value, where one past its end is a slot too; after an error all is as it was.
#[inline(always)]
pub(crate) fn write(
    alloc: Global,
    values: &mut Vec<Value>,
    at: usize,
    value: ValueRef<'_>,
) -> Result<(), AllocError>
    requires { at ≤ length values.old.items }
    ensures ok { OnOk result (values.new.items ≡ take at values.old.items ++ value_of_ref value.entry ∷ drop (suc at) values.old.items) }
    ensures err { OnErr result (values.new.items ≡ values.old.items) }
{
    if at < values.len() {
        return write_over(alloc, values, at, value);
    }
    push(alloc, values, value)
}

/// Gives a slot that is there a value; after an error all is as it was.
#[inline(always)]
fn write_over(
    alloc: Global,
    values: &mut Vec<Value>,
    at: usize,
    value: ValueRef<'_>,
) -> Result<(), AllocError>
    requires { at < length values.old.items }
    ensures ok { OnOk result (values.new.items ≡ take at values.old.items ++ value_of_ref value.entry ∷ drop (suc at) values.old.items) }
    ensures err { OnErr result (values.new.items ≡ values.old.items) }
{
    value.put_into(alloc, &mut values[at])
}

/// Adds a value behind others; after an error all is as it was.
#[inline(always)]
fn push(alloc: Global, values: &mut Vec<Value>, value: ValueRef<'_>) -> Result<(), AllocError>
    ensures ok { OnOk result (values.new.items ≡ values.old.items ++ value_of_ref value.entry ∷ []) }
    ensures err { OnErr result (values.new.items ≡ values.old.items) }
{
    match value {
        ValueRef::Int(n) => push_number(values, n),
        ValueRef::Text(bytes) => push_text(alloc, values, bytes),
    }
}

/// Adds a number behind others; after an error all is as it was.
#[inline(always)]
fn push_number(values: &mut Vec<Value>, n: i128) -> Result<(), AllocError>
    ensures ok { OnOk result (values.new.items ≡ values.old.items ++ Int n ∷ []) }
    ensures err { OnErr result (values.new.items ≡ values.old.items) }
{
    if values.len() >= values.capacity() {
        return push_grown(values, n);
    }
    values.push_reserved(Value::Int(n));
    Ok(())
}

/// Makes room for a number and adds it behind others; after an error all is as it was. Out of line: keeps the caller small.
#[cold]
#[inline(never)]
fn push_grown(values: &mut Vec<Value>, n: i128) -> Result<(), AllocError>
    ensures ok { OnOk result (values.new.items ≡ values.old.items ++ Int n ∷ []) }
    ensures err { OnErr result (values.new.items ≡ values.old.items) }
{
    values.reserve(1)?;
    values.push_reserved(Value::Int(n));
    Ok(())
}

/// Adds a copy of a string behind others; after an error all is as it was.
#[inline(never)]
fn push_text(alloc: Global, values: &mut Vec<Value>, bytes: &[u8]) -> Result<(), AllocError>
    ensures ok { OnOk result (values.new.items ≡ values.old.items ++ Text bytes.now ∷ []) }
    ensures err { OnErr result (values.new.items ≡ values.old.items) }
{
    values.reserve(1)?;
    values.push_reserved(ValueRef::Text(bytes).to_value(alloc)?);
    Ok(())
}

/// Removes all elements of a list; if it has much room, also that.
pub(crate) fn clear_list<T: Drop>(list: &mut Vec<T>)
    ensures empty { list.new.items ≡ [] }
{
    if list.capacity() <= ROOM_KEPT {
        list.clear();
    } else {
        let empty = Vec::new(*list.allocator());
        drop(replace(list, empty));
    }
}
