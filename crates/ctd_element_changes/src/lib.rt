//! The facts of elements once variables got values, or lost them, where tests are true, and where ways meet.
#![tactic(auto)]

mod assign;
mod before;
mod beside;
mod compare;
mod element;
mod free;
mod join;
mod keys;

pub use assign::facts_with_name;
pub use before::multiple;
pub use beside::facts_beside;
pub use compare::facts_compared;
pub use element::{Target, facts_with_element};
pub use join::{all_follow, facts_of_both, facts_that_follow, fewest};
pub use keys::{facts_hit, have_one_shape};
