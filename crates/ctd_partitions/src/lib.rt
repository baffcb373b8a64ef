//! Abstract states with facts of elements, and partitions of them: what is known of the variables of a program at one place of it.
#![tactic(auto)]

mod change;
mod compare;
mod denied;
mod partition;
mod question;
mod state;

pub use change::{Position, after_step, assign_alone, assign_element, clear, is_pinned};
pub use compare::{is_within, join};
pub use partition::{
    are_within, copy_of_state, join_all, join_partitions, join_state, widen_partition,
};
pub use question::{compared, equal, hit};
pub use state::{State, make_unreachable, view_of};
