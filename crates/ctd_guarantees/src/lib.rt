//! What every accepted file has, as a jury would write it down: lines chosen out of what is known of the variables.
#![tactic(auto)]

mod array;
mod chain;
mod guarantee;
mod here;
mod names;
mod order;
mod part;
mod plan;
mod scope;
mod told;

pub use guarantee::{GuaranteeGroup, guarantees};
pub use part::Guarantee;
