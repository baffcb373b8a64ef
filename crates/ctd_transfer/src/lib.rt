//! The transfer functions of commands in which no others stand, and of tests: what they do with what is known of variables.
#![tactic(auto)]

mod answer;
mod condition;
mod cut;
mod division;
mod expression;
mod indices;
mod operand;
mod result;
mod simple;
mod transfer;
mod variable;

pub use answer::{SplitStates, divide};
pub use expression::{Evaluation, evaluate};
pub use result::{PossibleResult, number_faults};
pub use transfer::{StatesAfter, transfer_each};
pub use variable::{StateAfter, assign, keep_nothing};
