//! What the command line ctd-lint does: it reads programs of the checktestdata language, and reports likely mistakes in each, and where it may stop
//! without a verdict.
#![tactic(auto)]

mod command_line;
mod files;
mod process;
mod programs;
mod usage;

pub use ctd_process::System;
pub use process::{Answered, answer};
pub use programs::ClosableFiles;
