//! What each command does: to the data that it passes, and to the variables.
#![tactic(auto)]

mod assertion;
mod assignment;
mod blanks;
mod byte;
mod digits;
mod evaluate;
mod failure;
mod integer;
mod machine;
mod regex;
mod string;

pub use failure::{CommandFailure, Failure};
pub use machine::Run;
