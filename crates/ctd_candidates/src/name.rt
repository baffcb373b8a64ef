//! Candidates once a name without indices got a value.

use crate::rename::{Renaming, add_renamed, concerns, speaks_of};
use ctd_elements::{
    AbstractState, Bound, Fact, Filling, Index, Interval, Limits, Side, bound_of, with_first,
    with_second,
};
use std::alloc::{AllocError, Global};

/// A bound that is so much less.
fn less(b: Bound, by: i64) -> Option<Bound> {
    let add = b.add.checked_sub(by)?;
    Some(Bound { term: b.term, add })
}

/// What stands in place of a name whose value another gets: the other, less what is added.
fn backwards(exact: Option<Index>, name: usize) -> Option<Renaming> {
    match exact {
        Some(Index::Number(b)) => {
            let term = b.term?;
            if term.times != 1 {
                return None;
            }
            let to = less(bound_of(name), b.add)?;
            Some(Renaming {
                from: term.name,
                to,
            })
        }
        _ => None,
    }
}

/// What stands in place of a name by one fact: a bound that is at least its number, or at most.
fn other_words(fact: Fact, name: usize) -> Option<Renaming> {
    match fact {
        Fact::AtMost(a, b) if speaks_of(a, name) => Some(Renaming {
            from: name,
            to: less(b, a.add)?,
        }),
        Fact::AtMost(a, b) if speaks_of(b, name) => Some(Renaming {
            from: name,
            to: less(a, b.add)?,
        }),
        _ => None,
    }
}

/// That a name is at most bounds, and at least others.
fn add_orders(mut all: Vec<Fact>, name: usize, limits: Limits) -> Result<Vec<Fact>, AllocError> {
    let own = bound_of(name);
    for high in limits.highs {
        if high.term.is_some() {
            all.push(Fact::AtMost(own, *high))?;
        }
    }
    for low in limits.lows {
        if low.term.is_some() {
            all.push(Fact::AtMost(*low, own))?;
        }
    }
    Ok(all)
}

/// The number of a name, if it can only be one.
fn only_number(state: AbstractState, name: usize) -> Option<i64> {
    let range = state.entries.get(name)?.alone.number?;
    if range.low != range.high {
        return None;
    }
    i64::try_from(range.low).ok()
}

/// What stands in place of a name that can only be one number: this number.
fn by_number(state: AbstractState, name: usize) -> Option<Renaming> {
    let add = only_number(state, name)?;
    Some(Renaming {
        from: name,
        to: Bound { term: None, add },
    })
}

/// The facts, without greatest values that speak of a name.
fn add_without_most(
    mut all: Vec<Fact>,
    facts: &[Fact],
    name: usize,
) -> Result<Vec<Fact>, AllocError> {
    for fact in facts {
        if let Fact::Filled(f) = *fact
            && let Some(most) = f.most
            && speaks_of(most, name)
        {
            all.push(Fact::Filled(Filling { most: None, ..f }))?;
        }
    }
    Ok(all)
}

/// A side that is one index by a name which has a number: the numbers from that index up to, and without, the index by a greater number of the name.
fn opened(side: Side, name: usize, number: i64) -> Option<Side> {
    match side {
        Side::At(Index::Number(b)) if speaks_of(b, name) => {
            let add = number.checked_add(b.add)?;
            Some(Side::Between(Interval {
                low: Bound { term: None, add },
                high: b,
            }))
        }
        _ => None,
    }
}

/// Elements that have values, with each side opened.
fn add_opened(
    mut all: Vec<Fact>,
    state: AbstractState,
    name: usize,
) -> Result<Vec<Fact>, AllocError> {
    if let Some(number) = only_number(state, name) {
        for fact in state.facts {
            if let Fact::Filled(f) = *fact {
                if let Some(first) = opened(f.block.first, name, number) {
                    all.push(Fact::Filled(with_first(f, first)))?;
                }
                if let Some(side) = f.block.second
                    && let Some(second) = opened(side, name, number)
                {
                    all.push(Fact::Filled(with_second(f, second)))?;
                }
            }
        }
    }
    Ok(all)
}

/// Candidates once a name without indices got a value of which something is known, for the facts that speak of it: how it compares with bounds; the facts
/// with a side opened as where a counter counts on, in other words, of the other name of which this is a copy, and as they are. The facts as they are come
/// last, since of facts that say the same the last one is kept (`fewest`), and an invariant is found where they stay.
pub fn candidates_with_name(
    alloc: Global,
    state: AbstractState,
    name: usize,
    limits: Limits,
) -> Result<Vec<Fact>, AllocError> {
    let facts = state.facts;
    let mut all = add_orders(Vec::new(alloc), name, limits)?;
    all = add_without_most(all, facts, name)?;
    all = add_opened(all, state, name)?;
    if let Some(by) = by_number(state, name) {
        all = add_renamed(all, facts, by)?;
    }
    for fact in facts {
        if let Some(by) = other_words(*fact, name) {
            all = add_renamed(all, facts, by)?;
        }
    }
    if let Some(by) = backwards(limits.exact, name) {
        all = add_renamed(all, facts, by)?;
    }
    for fact in facts {
        if concerns(*fact, name) {
            all.push(*fact)?;
        }
    }
    Ok(all)
}
