//! Names of a program, by their indices.

use std::alloc::{AllocError, Global};

/// The index of a name among the names of a program, which stand in order.
pub(crate) fn index_of(names: &[&[u8]], name: &[u8]) -> Option<usize> {
    names.binary_search(&name).ok()
}

/// Some of the names of a program.
#[derive(Drop)]
pub(crate) struct NameSet {
    has: Vec<bool>,
}

impl NameSet {
    /// None of so many names.
    pub(crate) fn none_of(alloc: Global, count: usize) -> Result<NameSet, AllocError> {
        let mut has = Vec::new(alloc);
        for _ in 0..count {
            has.push(false)?;
        }
        Ok(NameSet { has })
    }

    /// Whether a name is one of them.
    pub(crate) fn has(&self, name: usize) -> bool {
        name < self.has.len() && self.has[name]
    }

    /// Adds a name, and says whether it is new.
    pub(crate) fn add(&mut self, name: usize) -> bool {
        let is_new = name < self.has.len() && !self.has[name];
        if is_new {
            self.has[name] = true;
        }
        is_new
    }
}
