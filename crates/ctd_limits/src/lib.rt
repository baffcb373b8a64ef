//! What is known of the values of expressions: bounds that they are at least, and at most.
#![tactic(auto)]

mod add;
mod bounds;
mod element;
mod known;
mod name;
mod numbers;
mod operators;
mod turn;
mod value;

pub use element::{cell_at, limits_of_element};
pub use known::{ValueLimits, anything, as_limits};
pub use numbers::{narrowed, with_range};
pub use operators::{difference, product, quotient, remainder, sum};
pub use turn::{between, next_turn};
pub use value::{limits_of_name, limits_of_number, limits_of_text};
