//! Why an analysis stops.

use std::alloc::{AllocError, AllocFailed};

/// Why an analysis stops.
#[derive(Clone, Copy)]
pub enum Stop {
    /// No memory was left.
    Memory,
    /// The program is too large for the budget, or no candidate of a loop was inductive.
    GaveUp,
}

impl From<AllocError> for Stop {
    fn from(_error: AllocError) -> Self {
        Stop::Memory
    }
}

impl<T: Drop> From<AllocFailed<T>> for Stop {
    fn from(_error: AllocFailed<T>) -> Self {
        Stop::Memory
    }
}
