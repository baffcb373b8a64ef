//! Candidates for facts. No contract speaks of them: each is checked where it is used.
#![tactic(auto)]

mod compare;
mod element;
mod join;
mod keys;
mod name;
mod rename;

pub use compare::{candidates_compared, candidates_equal};
pub use element::candidates_with_element;
pub use join::candidates_of_both;
pub use keys::candidates_hit;
pub use name::candidates_with_name;
