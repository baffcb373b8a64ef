//! What is written of a program of the checktestdata language: its likely mistakes, and where it may stop without a verdict.
#![tactic(auto)]

mod entry;
mod expected;
mod explanation;
mod expression;
mod guarantee;
mod json;
mod kind;
mod line;
mod number;
mod part;
mod program;
mod reason;
mod relation;
mod setup;
mod text;
mod told;
mod traps;
mod unclosed;

pub use kind::LintKind;
pub use program::{NO_WARNINGS, lint, write_unopened};
pub use setup::{Form, LintSetup};
