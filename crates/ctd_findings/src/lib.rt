//! What a program of the checktestdata language cannot mean: names that nothing gives a value, tests that do not depend on the data, and the like.
#![tactic(auto)]

mod after_loop;
mod command;
mod condition;
mod finding;
mod kept_array;
mod kind;
mod loops;
mod names;
mod never;
mod no_index;
mod other_word;
mod outcome;
mod parameter;
mod pattern;
mod program;
mod same;
mod sides;
mod words;

pub use finding::{Finding, Remark};
pub use kind::{Kind, Rank};
pub use pattern::{PatternMistake, pattern_mistake};
pub use program::findings;
