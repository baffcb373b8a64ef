//! Loading a program: its text, its tree, and the patterns of its literals.
#![tactic(auto)]

mod literals;
mod plan;
mod text;

pub use plan::Plan;
