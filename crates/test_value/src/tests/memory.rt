//! Small rows on the calls that take memory. `tests/allocations.py` at the top of the repository lets each allocation fail in turn: then
//! each row ends in `Memory` or in its own answer.

use super::calls::{READ, Row, SHAPE, Step, Steps, judge, judge_all};
use super::{key, same, store_of};
use ctd_value::{Store, Value};
use std::alloc::{AllocError, Global};
use std::process::Abort;
use std::test::Fail;

/// A test that holds with no look at the data.
const TRUE: Step = Step::Holds(b"", true, 10, Ok(true));

const A_VARIABLE: Steps = &[
    ("SET(a[1]=\"x\",b=a[1])", Step::SetExpression),
    ("ASSERT(b==\"x\")", TRUE),
];

const A_MEMBERSHIP: Steps = &[
    ("SET(a[1]=2)", Step::SetExpression),
    ("ASSERT(INARRAY(2,a))", TRUE),
];

const TUPLES: Steps = &[("ASSERT(UNIQUE(a,b))", TRUE)];

const DIFFERENT_INDICES: Steps = &[("ASSERT(UNIQUE(a,b))", Step::Holds(b"", true, 10, SHAPE))];

const A_BYTE: Steps = &[("ASSERT(MATCH(\"a\"))", Step::Holds(b"", true, 10, READ))];

const SMALL: [Row; 5] = [
    ("", "", A_VARIABLE),
    ("a=1", "", A_MEMBERSHIP),
    ("a=1,b=2", "", TUPLES),
    ("a=1", "", DIFFERENT_INDICES),
    ("", "", A_BYTE),
];

#[test]
fn small_rows_end_in_their_answers(rt: HostRuntime) -> Result<(), Fail> {
    judge_all(&rt, rt.alloc(), &SMALL)
}

/// The number at an index of a; none where there is no value or a string.
fn number_at(alloc: Global, store: &Store, index: i8) -> Result<Option<i128>, AllocError> {
    let key = key(alloc, b"a", &[i128::from(index)], &[])?;
    match store.get(&key) {
        Some(Value::Int(n)) => Ok(Some(*n)),
        _ => Ok(None),
    }
}

/// Assigns n at index n of a.
fn assign(alloc: Global, store: &mut Store, n: i8) -> Result<(), AllocError> {
    let n = i128::from(n);
    let key = key(alloc, b"a", &[n], &[])?;
    store.assign(key, Value::Int(n))
}

/// Assigns n at index n of a. Where that is refused, the store has to answer as before at every index so far; it is tried
/// again then. Whether it did.
fn is_kept(alloc: Global, store: &mut Store, n: i8) -> Result<bool, AllocError> {
    let refused = assign(alloc, store, n).is_err();
    for m in 0..n {
        if number_at(alloc, store, m)? != Some(i128::from(m)) {
            return Ok(false);
        }
    }
    if refused {
        if number_at(alloc, store, n)?.is_some() {
            return Ok(false);
        }
        assign(alloc, store, n)?;
    }
    Ok(number_at(alloc, store, n)? == Some(i128::from(n)))
}

const PINNED: Steps = &[("SET(n=5)", Step::Has)];

/// Assigns at each index of a from 0 to 19, and judges each time that all is kept, and at last what is pinned.
fn judge_assignments(rt: &impl Abort, alloc: Global, store: &mut Store) -> Result<(), Fail> {
    for n in 0..20i8 {
        same(rt, &is_kept(alloc, store, n)?, &true, &n);
    }
    judge(rt, alloc, store, "", PINNED)
}

/// Where an allocation fails an assignment may be refused, and then the store answers as before.
#[test]
fn a_refused_assignment_leaves_the_store_as_it_was(rt: HostRuntime) -> Result<(), Fail> {
    let mut store = store_of(rt.alloc(), "n=5")?;
    judge_assignments(&rt, rt.alloc(), &mut store)
}
