//! Where in the array of a name a value stands.

ghost use Rattle.std.specs.Prelude.{◌≡◌, IfOk};
ghost use Rattle.ctd_store.specs.calls.Index.{indices_at, indices_of};

use crate::value::Value;
use std::alloc::{AllocError, Global};

/// An index list. Up to two numbers that are not below 0 and have 64 bits may stand as such, so that no list is made for them; each may stand as a
/// list too.
#[derive(Clone, Copy)]
pub enum Index<'i> {
    /// No index.
    Scalar,
    /// One number.
    One(usize),
    /// Two numbers.
    Two(usize, usize),
    /// Any values.
    List(&'i [Value]),
}

/// The values of an index list: none, one or two numbers that are stored nowhere, or a list where it stands.
#[derive(Drop)]
pub enum Indices<'i> {
    One([Value; 1]),
    Two([Value; 2]),
    List(&'i [Value]),
}

impl<'i> Index<'i> {
    /// The index of some values, as numbers where they are one or two that may stand so.
    pub fn of(indices: &'i [Value]) -> Index<'i>
        ensures same { indices_at result ≡ indices.now }
    {
        match indices {
            [] => Index::Scalar,
            [Value::Int(n)] => match usize::try_from(*n) {
                Ok(n) => Index::One(n),
                Err(_) => Index::List(indices),
            },
            [Value::Int(m), Value::Int(n)] => match (usize::try_from(*m), usize::try_from(*n)) {
                (Ok(m), Ok(n)) => Index::Two(m, n),
                _ => Index::List(indices),
            },
            _ => Index::List(indices),
        }
    }

    /// The index list with its numbers as values.
    pub(crate) fn to_indices(self) -> Indices<'i>
        ensures same { indices_of result ≡ indices_at self.entry }
    {
        match self {
            Index::Scalar => Indices::List(&[]),
            Index::One(n) => Indices::One([Value::Int(n as i128)]),
            Index::Two(m, n) => Indices::Two([Value::Int(m as i128), Value::Int(n as i128)]),
            Index::List(indices) => Indices::List(indices),
        }
    }
}

impl Indices<'_> {
    /// The values of the indices.
    pub fn as_slice(&self) -> &[Value]
        ensures value { result.now ≡ indices_of self.now }
    {
        match self {
            Indices::One(index) => index.as_slice(),
            Indices::Two(indices) => indices.as_slice(),
            Indices::List(indices) => indices,
        }
    }
}

/// Copies of values.
pub(crate) fn copy_all(alloc: Global, values: &[Value]) -> Result<Vec<Value>, AllocError>
    ensures same { IfOk result (λ copies. copies.items ≡ values.now) }
{
    let mut copies = Vec::with_capacity(alloc, values.len())?;
    for value in values {
        copies.push(value.copy(alloc)?)?;
    }
    Ok(copies)
}
