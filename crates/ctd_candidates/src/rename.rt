//! Facts with the number of a bound in place of a name.

use ctd_element_changes::multiple;
use ctd_elements::{Block, Bound, Fact, Filling, Index, Interval, Side};
use std::alloc::AllocError;

/// What stands in place of a name.
#[derive(Clone, Copy)]
pub(crate) struct Renaming {
    pub(crate) from: usize,
    pub(crate) to: Bound,
}

/// Whether a bound speaks of a name.
pub(crate) fn speaks_of(b: Bound, name: usize) -> bool {
    match b.term {
        Some(term) => term.name == name,
        None => false,
    }
}

/// Whether a side speaks of a name.
fn side_speaks_of(side: Side, name: usize) -> bool {
    match side {
        Side::Between(s) => speaks_of(s.low, name) || speaks_of(s.high, name),
        Side::At(Index::Number(b)) => speaks_of(b, name),
        Side::At(Index::Value(i)) => i == name,
        Side::At(Index::Text(_)) => false,
    }
}

/// Whether a block speaks of a name.
fn block_speaks_of(block: Block, name: usize) -> bool {
    let second = match block.second {
        Some(side) => side_speaks_of(side, name),
        None => false,
    };
    second || side_speaks_of(block.first, name)
}

/// Whether a fact speaks of a name, or of its elements.
pub(crate) fn concerns(fact: Fact, name: usize) -> bool {
    match fact {
        Fact::AtMost(a, b) | Fact::Unequal(a, b) => speaks_of(a, name) || speaks_of(b, name),
        Fact::Filled(f) => {
            let most = match f.most {
                Some(bound) => speaks_of(bound, name),
                None => false,
            };
            most || f.array == name || block_speaks_of(f.block, name)
        }
        Fact::KeysWithin(k) | Fact::ValuesAreKeys(k) => {
            let except = match k.except {
                Some(block) => block_speaks_of(block, name),
                None => false,
            };
            except || k.array == name || k.other == name
        }
    }
}

/// A bound with the name replaced.
fn renamed_bound(b: Bound, by: Renaming) -> Option<Bound> {
    match b.term {
        Some(term) if term.name == by.from => multiple(term.times, by.to, b.add),
        _ => Some(b),
    }
}

/// A side with the name replaced.
fn renamed_side(side: Side, by: Renaming) -> Option<Side> {
    match side {
        Side::Between(s) => {
            let low = renamed_bound(s.low, by)?;
            let high = renamed_bound(s.high, by)?;
            Some(Side::Between(Interval { low, high }))
        }
        Side::At(Index::Number(b)) => Some(Side::At(Index::Number(renamed_bound(b, by)?))),
        Side::At(Index::Value(name)) if name == by.from => { Some(Side::At(Index::Number(by.to))) }
        Side::At(_) => Some(side),
    }
}

/// Elements that have values, with the name replaced.
fn renamed_filling(f: Filling, by: Renaming) -> Option<Filling> {
    let first = renamed_side(f.block.first, by)?;
    let second = match f.block.second {
        Some(side) => Some(renamed_side(side, by)?),
        None => None,
    };
    let most = match f.most {
        Some(bound) => Some(renamed_bound(bound, by)?),
        None => None,
    };
    Some(Filling {
        array: f.array,
        block: Block { first, second },
        most,
    })
}

/// A fact with the name replaced, if it can be said.
pub(crate) fn renamed(fact: Fact, by: Renaming) -> Option<Fact> {
    match fact {
        Fact::AtMost(a, b) => Some(Fact::AtMost(renamed_bound(a, by)?, renamed_bound(b, by)?)),
        Fact::Unequal(a, b) => Some(Fact::Unequal(renamed_bound(a, by)?, renamed_bound(b, by)?)),
        Fact::Filled(f) => Some(Fact::Filled(renamed_filling(f, by)?)),
        Fact::KeysWithin(_) | Fact::ValuesAreKeys(_) => None,
    }
}

/// The facts that speak of a name, with another in its place.
pub(crate) fn add_renamed(
    mut all: Vec<Fact>,
    facts: &[Fact],
    by: Renaming,
) -> Result<Vec<Fact>, AllocError> {
    for fact in facts {
        if concerns(*fact, by.from)
            && let Some(other) = renamed(*fact, by)
        {
            all.push(other)?;
        }
    }
    Ok(all)
}
