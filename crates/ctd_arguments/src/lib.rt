//! The words of the command line, which `clap` reads, and the settings that they ask for.
#![tactic(auto)]

mod command_line;
mod laws;
mod setup;
mod words;

pub use command_line::{define_option, flag, option};
pub use laws::refusals_have_one_kind;
pub use setup::{Setup, UsageFault};
pub use words::{fault_for, is_set, presets_of, settings, texts_of, value_of};
