//! The patterns of REGEX: built from the bytes of a literal, and matched at the start of a window of data.
#![tactic(auto)]

mod matcher;
mod pattern;

pub use matcher::Matcher;
pub use pattern::{Pattern, PatternFault};
