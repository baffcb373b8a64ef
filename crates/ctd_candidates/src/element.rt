//! Candidates once an element got a value.

use crate::keys::add_keys;
use crate::rename::concerns;
use ctd_element_changes::Target;
use ctd_elements::{
    Block, Bound, Cell, Fact, Filling, Index, Interval, Limits, Side, block_of, is_same, next,
};
use ctd_states::Pair;
use std::alloc::{AllocError, Global};

/// Elements that have values, with no greatest value, with their own, and with each that is known of the new one.
fn add_mosts(mut all: Vec<Fact>, f: Filling, limits: Limits) -> Result<Vec<Fact>, AllocError> {
    all.push(Fact::Filled(f))?;
    for high in limits.highs {
        if high.term.is_some() {
            all.push(Fact::Filled(Filling {
                most: Some(*high),
                ..f
            }))?;
        }
    }
    all.push(Fact::Filled(Filling { most: None, ..f }))?;
    Ok(all)
}

/// An interval that grew by a number at its end.
fn grown_up(side: Side, at: Bound) -> Option<Side> {
    match side {
        Side::Between(s) => Some(Side::Between(Interval {
            low: s.low,
            high: next(at)?,
        })),
        Side::At(_) => None,
    }
}

/// An interval that grew by the number before its begin.
fn grown_down(side: Side, at: Bound) -> Option<Side> {
    match side {
        Side::Between(s) if is_same(s.low, next(at)?) => Some(Side::Between(Interval {
            low: at,
            high: s.high,
        })),
        _ => None,
    }
}

/// Elements that have values, with a side that grew by the new one.
fn add_grown_first(
    mut all: Vec<Fact>,
    f: Filling,
    at: Index,
    limits: Limits,
) -> Result<Vec<Fact>, AllocError> {
    if let Index::Number(b) = at {
        if let Some(first) = grown_up(f.block.first, b) {
            let block = Block { first, ..f.block };
            all = add_mosts(all, Filling { block, ..f }, limits)?;
        }
        if let Some(first) = grown_down(f.block.first, b) {
            let block = Block { first, ..f.block };
            all = add_mosts(all, Filling { block, ..f }, limits)?;
        }
    }
    Ok(all)
}

/// The same of the second side.
fn add_grown_second(
    mut all: Vec<Fact>,
    f: Filling,
    at: Index,
    limits: Limits,
) -> Result<Vec<Fact>, AllocError> {
    if let (Index::Number(b), Some(side)) = (at, f.block.second) {
        let up = grown_up(side, b);
        let down = grown_down(side, b);
        for second in [up, down] {
            if second.is_some() {
                let block = Block { second, ..f.block };
                all = add_mosts(all, Filling { block, ..f }, limits)?;
            }
        }
    }
    Ok(all)
}

/// The interval from a number up to an index that has this number.
fn from_number(at: Index, number: Option<i64>) -> Option<Side> {
    match at {
        Index::Number(b) => Some(Side::Between(Interval {
            low: Bound {
                term: None,
                add: number?,
            },
            high: next(b)?,
        })),
        _ => None,
    }
}

/// The element itself, and an interval that begins with it.
fn add_own(
    all: Vec<Fact>,
    array: usize,
    cell: Cell,
    number: Option<i64>,
    limits: Limits,
) -> Result<Vec<Fact>, AllocError> {
    let last = cell.second.unwrap_or(cell.first);
    let block = block_of(cell);
    let own = Filling {
        array,
        block,
        most: None,
    };
    let all = add_mosts(all, own, limits)?;
    match from_number(last, number) {
        Some(side) => {
            let block = match cell.second {
                Some(_) => Block {
                    second: Some(side),
                    ..block
                },
                None => Block {
                    first: side,
                    second: None,
                },
            };
            add_mosts(all, Filling { block, ..own }, limits)
        }
        None => Ok(all),
    }
}

/// The facts as they are, with other greatest values, and grown by an element.
fn add_grown(
    all: Vec<Fact>,
    f: Filling,
    cell: Cell,
    limits: Limits,
) -> Result<Vec<Fact>, AllocError> {
    let all = add_grown_first(all, f, cell.first, limits)?;
    match cell.second {
        Some(at) => add_grown_second(all, f, at, limits),
        None => Ok(all),
    }
}

/// Candidates once an element got a value of which something is known, for the facts that speak of its array: the facts as they are, with the greatest values that are known of it, and
/// grown by it; and what it may say of some pairs of arrays. The number is that of its last index, if this can only be one.
pub fn candidates_with_element(
    alloc: Global,
    facts: &[Fact],
    target: Target,
    number: Option<i64>,
    limits: Limits,
    pairs: &[Pair],
) -> Result<Vec<Fact>, AllocError> {
    let mut all = Vec::new(alloc);
    for fact in facts {
        if concerns(*fact, target.array) {
            all.push(*fact)?;
        }
    }
    all = add_keys(all, target, pairs)?;
    for fact in facts {
        match (*fact, target.cell) {
            (Fact::Filled(f), Some(cell)) if f.array == target.array => {
                all = add_mosts(all, f, limits)?;
                all = add_grown(all, f, cell, limits)?;
            }
            _ => {}
        }
    }
    match target.cell {
        Some(cell) => add_own(all, target.array, cell, number, limits),
        None => Ok(all),
    }
}
