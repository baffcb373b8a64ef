//! Candidates for arrays whose keys are those of others.

use ctd_element_changes::Target;
use ctd_elements::{Block, Cell, Fact, Filling, Keys, Limits, Side, block_of};
use ctd_states::Pair;
use std::alloc::{AllocError, Global};

/// That keys, or values, of an array are keys of another, and this but for a cell.
fn add_pair(mut all: Vec<Fact>, pair: Pair, cell: Option<Cell>) -> Result<Vec<Fact>, AllocError> {
    let keys = Keys {
        array: pair.array,
        other: pair.other,
        except: None,
    };
    all.push(Fact::KeysWithin(keys))?;
    all.push(Fact::ValuesAreKeys(keys))?;
    if let Some(at) = cell {
        let except = Some(block_of(at));
        all.push(Fact::KeysWithin(Keys { except, ..keys }))?;
        all.push(Fact::ValuesAreKeys(Keys { except, ..keys }))?;
    }
    Ok(all)
}

/// What an element that got a value may say of the pairs of its array.
pub(crate) fn add_keys(
    mut all: Vec<Fact>,
    target: Target,
    pairs: &[Pair],
) -> Result<Vec<Fact>, AllocError> {
    for pair in pairs {
        if pair.array == target.array || pair.other == target.array {
            all = add_pair(all, *pair, target.cell)?;
        }
    }
    Ok(all)
}

/// Candidates where INARRAY is true of a value and an array: that arrays have an element at the value.
pub fn candidates_hit(
    alloc: Global,
    facts: &[Fact],
    limits: Limits,
    array: usize,
) -> Result<Vec<Fact>, AllocError> {
    let mut all = Vec::new(alloc);
    if let Some(index) = limits.exact {
        let block = Block {
            first: Side::At(index),
            second: None,
        };
        for fact in facts {
            if let Fact::ValuesAreKeys(keys) = *fact
                && keys.array == array
            {
                all.push(Fact::Filled(Filling {
                    array: keys.other,
                    block,
                    most: None,
                }))?;
            }
        }
    }
    Ok(all)
}
