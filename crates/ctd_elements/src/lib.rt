//! What is known of elements of arrays, and of one number beside another.
#![tactic(auto)]

mod fact;
mod follow;
mod limits;
mod names;
mod order;
mod part;
mod read;
mod same;

pub use fact::{
    AbstractState, Block, Bound, Cell, Fact, Filling, Index, Interval, Keys, Side, Source, Term,
};
pub use follow::{follows, follows_directly, greatest_element, with_first, with_second};
pub use limits::{Limits, differ, is_from, is_up_to};
pub use names::{is_name, is_same_name};
pub use order::{greatest, is_at_most, is_sure, least, moved};
pub use part::{block_of, bound_of, is_before, is_behind, is_excepted, is_part, next, number_of};
pub use read::{are_in, has_key, is_filled};
pub use same::is_same;
