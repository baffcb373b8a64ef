//! The public calls of the cursor, the store, expressions and tests, and what no run of the checker shows of them. What programs
//! answer is in the tables of `tests/tables/` at the top of the repository.

mod calls;
mod cursors;
mod large;
mod memory;
mod order;
mod pulls;
mod starts;
mod truths;

use ctd_source::LookFault;
use ctd_syntax::{Bytes, Name, Presets};
use ctd_value::{EvalFault, Key, Store, Value};
use std::alloc::{AllocError, Global};
use std::fmt::Debug;
use std::process::Abort;
use std::test::Fail;

/// That what was found somewhere is what is wanted there.
fn same<T: PartialEq + Debug>(rt: &impl Abort, found: &T, wanted: &T, place: &impl Debug) {
    if found != wanted {
        panic!(rt; "{found:?} in place of {wanted:?} at {place:?}");
    }
}

/// A store with some presets; of the empty text, with none.
fn store_of(alloc: Global, pinned: &str) -> Result<Store, Fail> {
    let presets = if pinned.is_empty() {
        Presets::none(alloc)
    } else {
        Presets::read(alloc, pinned)?
    };
    Ok(Store::new(alloc, &presets)?)
}

/// Some numbers, and some strings behind them, as values.
fn values(alloc: Global, numbers: &[i128], texts: &[&[u8]]) -> Result<Vec<Value>, AllocError> {
    let mut values = Vec::new(alloc);
    for n in numbers {
        values.push(Value::Int(*n))?;
    }
    for bytes in texts {
        values.push(Value::Text(Bytes::copy(alloc, bytes)?))?;
    }
    Ok(values)
}

/// The key of a name, and of some numbers and some strings behind them.
fn key(alloc: Global, name: &[u8], numbers: &[i128], texts: &[&[u8]]) -> Result<Key, AllocError> {
    Ok(Key::new(Name::copy(alloc, name)?, values(alloc, numbers, texts)?))
}

#[test]
fn numbers_of_the_faults(rt: HostRuntime) {
    let evaluations = [
        EvalFault::Undefined as u8,
        EvalFault::WrongType as u8,
        EvalFault::Overflow as u8,
        EvalFault::DivisionByZero as u8,
        EvalFault::Exponent as u8,
        EvalFault::Count as u8,
        EvalFault::Shape as u8,
        EvalFault::Memory as u8,
    ];
    let looks = [LookFault::Read as u8, LookFault::DataTooLong as u8];
    same(&rt, &evaluations, &[1, 2, 3, 4, 5, 6, 7, 8], &"evaluation");
    same(&rt, &looks, &[1, 2], &"looks");
}
