//! Ranges of integers, and what the operators of the language do with them.
#![tactic(auto)]

mod arithmetic;
mod compare;
mod order;
mod range;

pub use arithmetic::{Computed, difference, negation, power, product, quotient, remainder, sum};
pub use compare::{opposite_of, restrict};
pub use order::{is_empty, is_within, less, pay, with_high, with_low};
pub use range::Range;
