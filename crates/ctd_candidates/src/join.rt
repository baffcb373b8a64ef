//! Candidates for the facts of a join.

use ctd_elements::{Fact, Filling};
use std::alloc::{AllocError, Global};

/// The facts, and those without their greatest value.
fn add_looser(mut all: Vec<Fact>, facts: &[Fact]) -> Result<Vec<Fact>, AllocError> {
    for fact in facts {
        all.push(*fact)?;
        if let Fact::Filled(f) = *fact
            && f.most.is_some()
        {
            all.push(Fact::Filled(Filling { most: None, ..f }))?;
        }
    }
    Ok(all)
}

/// Candidates for the facts of a join: those of each side, and those without their greatest value.
pub fn candidates_of_both(
    alloc: Global,
    one: &[Fact],
    other: &[Fact],
) -> Result<Vec<Fact>, AllocError> {
    let all = add_looser(Vec::new(alloc), one)?;
    add_looser(all, other)
}
