//! The variables of a program: values, the keys that have them, and the store in which they stand.
#![tactic(auto)]

mod array;
mod grid;
mod index;
mod laws;
mod line;
mod order;
mod places;
mod positions;
mod scalar;
mod slot;
mod store;
mod value;
mod value_list;
mod value_ref;

pub use index::{Index, Indices};
pub use laws::{
    assignment_sets_one_key, presets_give_first_values, unset_clears_one_name,
    values_are_of_distinct_keys,
};
pub use line::Row;
pub use store::{EntryRef, Store};
pub use value::{Key, Value, as_i64};
pub use value_ref::ValueRef;
