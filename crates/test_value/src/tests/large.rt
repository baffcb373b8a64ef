//! Large stores, keys, strings and tests, with ample memory: no size makes a call give up.

use super::calls::{Step, take_step_in};
use super::{key, same, store_of};
use ctd_syntax::Name;
use ctd_value::{Store, Value};
use std::alloc::{AllocError, Global};
use std::process::Abort;
use std::test::Fail;

/// How often the middle of a text is repeated.
const TIMES: usize = 100_000;

/// A text whose middle is repeated.
fn repeated(alloc: Global, text: [&str; 3]) -> Result<String, AllocError> {
    let [before, middle, behind] = text;
    let mut whole = String::from_str(alloc, before)?;
    for _ in 0..TIMES {
        whole.push_str(middle)?;
    }
    whole.push_str(behind)?;
    Ok(whole)
}

/// The start, the middle and the end of a command, and the step that it is of.
type Row = ([&'static str; 3], Step);

const ROWS: [Row; 6] = [
    (["SET(x=\"", "x", "\")"], Step::Text(&[b'x'; TIMES])),
    (
        ["SET(x=STRLEN(\"", "x", "\"))"],
        Step::Count(Ok(TIMES as u64)),
    ),
    (
        ["SET(a[", "1,", "1]=0)"],
        Step::Key(b"a", &[1; TIMES + 1], &[]),
    ),
    (
        ["ASSERT(MATCH(\"", "x", "b\"))"],
        Step::Holds(b"b", false, 10, Ok(true)),
    ),
    (
        ["ASSERT(UNIQUE(", "a,", "a))"],
        Step::Holds(b"", true, 10, Ok(true)),
    ),
    (["UNSET(", "a,", "b)"], Step::Unset),
];

/// Judges the steps of the rows with a store.
fn judge(rt: &impl Abort, alloc: Global, store: &mut Store) -> Result<(), Fail> {
    for (turn, (text, step)) in ROWS.iter().enumerate() {
        let text = repeated(alloc, *text)?;
        let is = take_step_in(alloc, store, text.as_str(), *step)?;
        same(rt, &is, &true, &turn);
    }
    Ok(())
}

#[test]
fn long_texts_answer_their_steps(rt: HostRuntime) -> Result<(), Fail> {
    let text = repeated(rt.alloc(), ["", "a=1,", "b=2"])?;
    let mut store = store_of(rt.alloc(), text.as_str())?;
    judge(&rt, rt.alloc(), &mut store)
}

/// Assigns n at index 3n of a, for each n below a hundred thousand.
fn fill(alloc: Global, store: &mut Store) -> Result<(), AllocError> {
    for n in 0..TIMES as u32 {
        let n = i128::from(n);
        let key = key(alloc, b"a", &[n.saturating_mul(3)], &[])?;
        store.assign(key, Value::Int(n))?;
    }
    Ok(())
}

/// How many entries a has whose index is three times its value, and how many others.
fn count(alloc: Global, store: &Store) -> Result<[usize; 2], AllocError> {
    let name = Name::copy(alloc, b"a")?;
    let entries = store.entries(alloc, &name)?;
    let mut right = 0usize;
    for entry in &entries {
        if let ([Value::Int(index)], Value::Int(n)) = (entry.indices.as_slice(), entry.value) {
            right = right.saturating_add(usize::from(*index == n.saturating_mul(3)));
        }
    }
    Ok([right, entries.len().saturating_sub(right)])
}

/// Whether the greatest index has its value.
fn has_last(alloc: Global, store: &Store) -> Result<bool, AllocError> {
    let last = key(alloc, b"a", &[299_997], &[])?;
    Ok(store.get(&last) == Some(&Value::Int(99_999)))
}

/// Fills a store, and judges what is there.
fn judge_filled(rt: &impl Abort, alloc: Global, store: &mut Store) -> Result<(), AllocError> {
    fill(alloc, store)?;
    same(rt, &count(alloc, store)?, &[TIMES, 0], &"the entries");
    same(rt, &has_last(alloc, store)?, &true, &"the last of them");
    Ok(())
}

#[test]
fn a_store_keeps_many_entries(rt: HostRuntime) -> Result<(), Fail> {
    let mut store = store_of(rt.alloc(), "")?;
    judge_filled(&rt, rt.alloc(), &mut store)?;
    Ok(())
}
