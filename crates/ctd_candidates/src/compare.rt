//! Candidates where two values compare so.

use crate::rename::{Renaming, add_renamed};
use ctd_elements::{Bound, Fact, Index, Limits};
use std::alloc::{AllocError, Global};

/// The bound that is one less.
fn one_less(b: Bound) -> Option<Bound> {
    let add = b.add.checked_sub(1)?;
    Some(Bound { term: b.term, add })
}

/// That each of some bounds is at most each of others, or less.
fn add_pairs(mut all: Vec<Fact>, lows: &[Bound], highs: &[Bound]) -> Result<Vec<Fact>, AllocError> {
    for low in lows {
        for high in highs {
            if low.term.is_some() && high.term.is_some() {
                if let Some(less) = one_less(*high) {
                    all.push(Fact::AtMost(*low, less))?;
                }
                all.push(Fact::AtMost(*low, *high))?;
            }
        }
    }
    Ok(all)
}

/// That two values differ.
fn add_unequal(mut all: Vec<Fact>, a: Limits, b: Limits) -> Result<Vec<Fact>, AllocError> {
    if let (Some(Index::Number(own)), Some(Index::Number(other))) = (a.exact, b.exact) {
        all.push(Fact::Unequal(own, other))?;
    }
    Ok(all)
}

/// Candidates where two values compare so: bounds of the one beside bounds of the other, and that the values differ.
pub fn candidates_compared(alloc: Global, a: Limits, b: Limits) -> Result<Vec<Fact>, AllocError> {
    let all = add_pairs(Vec::new(alloc), a.lows, b.highs)?;
    let more = add_pairs(all, b.lows, a.highs)?;
    add_unequal(more, a, b)
}

/// What stands in place of a name, taken once, which a value is with a number added, where another value is the same.
fn in_its_words(a: Limits, b: Limits) -> Option<Renaming> {
    let (Some(Index::Number(own)), Some(Index::Number(other))) = (a.exact, b.exact) else {
        return None;
    };
    let term = own.term?;
    if term.times != 1 {
        return None;
    }
    let add = other.add.checked_sub(own.add)?;
    Some(Renaming {
        from: term.name,
        to: Bound {
            term: other.term,
            add,
        },
    })
}

/// Candidates where two values are equal: the facts, and the same in words of the second value in place of the first.
pub fn candidates_equal(
    alloc: Global,
    facts: &[Fact],
    a: Limits,
    b: Limits,
) -> Result<Vec<Fact>, AllocError> {
    let all = facts.to_vec(alloc)?;
    match in_its_words(a, b) {
        Some(by) => add_renamed(all, facts, by),
        None => Ok(all),
    }
}
