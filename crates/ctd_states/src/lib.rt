//! Abstract states of the variables of a program at one place of it, and which faults there may be.
#![tactic(auto)]

mod assign;
mod faults;
mod join;
mod steps;
mod stop;
mod value;
mod widen;

pub use assign::{Context, Pair, assign_alone, assign_element, clear, listed};
pub use faults::{
    Blame, Faults, NO_BLAME, Operand, TrapKind, has, join_operands, no_faults, union,
};
pub use join::join_entries;
pub use steps::after_step;
pub use stop::Stop;
pub use value::{
    AbstractValue, Lengths, PossibleValues, abstract_value, copy_of, index_of, is_unreachable,
    is_within, replace_value,
};
pub use widen::widen_entries;
