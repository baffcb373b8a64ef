//! How a check ends: the verdict or the fault, and where.
#![tactic(auto)]

mod outcome;
mod reason;

pub use outcome::{Checked, Outcome, Site};
pub use reason::{Fault, Reason};
