//! The order of values and of keys.

use super::{key, same};
use ctd_value::Key;
use std::alloc::{AllocError, Global};
use std::test::Fail;

/// The name of a key, and the numbers and the strings that are its indices.
type Row<'r> = (&'r [u8], &'r [i128], &'r [&'r [u8]]);

/// The keys of some rows.
fn keys(alloc: Global, rows: &[Row]) -> Result<Vec<Key>, AllocError> {
    let mut keys = Vec::new(alloc);
    for (name, numbers, texts) in rows {
        keys.push(key(alloc, name, numbers, texts)?)?;
    }
    Ok(keys)
}

/// Whether each is less than those after it, greater than those before it, and equal to itself alone.
fn rises<T: Ord>(items: &[T]) -> bool {
    for (i, a) in items.iter().enumerate() {
        for (j, b) in items.iter().enumerate() {
            if a.cmp(b) != i.cmp(&j)
                || a.partial_cmp(b) != Some(i.cmp(&j))
                || (a == b) != (i == j)
            {
                return false;
            }
        }
    }
    true
}

/// Integers come before strings.
const INDICES: Row = (
    b"a",
    &[i128::MIN, -1, 0, 9, 10, i128::MAX],
    &[b"", b"10", b"9", b"99", b"\x7f", b"\x80"],
);

/// Keys go by name, and then by the indices, place by place.
const ROWS: [Row; 11] = [
    (b"a", &[], &[]),
    (b"a", &[-3], &[]),
    (b"a", &[2], &[]),
    (b"a", &[2, 1], &[]),
    (b"a", &[2], &[b""]),
    (b"a", &[10], &[]),
    (b"a", &[10, -5], &[]),
    (b"a", &[10], &[b"b"]),
    (b"ab", &[], &[]),
    (b"ab", &[-9], &[]),
    (b"b", &[], &[]),
];

/// Whether the keys of some rows rise.
fn keys_rise(alloc: Global, rows: &[Row]) -> Result<bool, AllocError> {
    let keys = keys(alloc, rows)?;
    Ok(rises(keys.as_slice()))
}

/// Whether the key of a row has its name and as many indices, which rise.
fn indices_rise(alloc: Global, row: Row) -> Result<bool, AllocError> {
    let (name, numbers, texts) = row;
    let key = key(alloc, name, numbers, texts)?;
    let count = numbers.len().saturating_add(texts.len());
    Ok(key.name() == name && key.indices().len() == count && rises(key.indices()))
}

#[test]
fn keys_and_their_indices_rise(rt: HostRuntime) -> Result<(), Fail> {
    same(&rt, &keys_rise(rt.alloc(), &ROWS)?, &true, &"keys");
    same(&rt, &indices_rise(rt.alloc(), INDICES)?, &true, &"indices");
    Ok(())
}
