//! Checking data against a program: the run of its commands, and the outcome.
#![tactic(auto)]

mod checking;
mod command;
mod frame;
mod halt;
mod laws;
mod loops;
mod run;
mod stack;

pub use checking::check;
pub use ctd_loader::Plan;
pub use ctd_outcome::{Checked, Fault, Outcome, Reason, Site};
pub use ctd_program::{Limits, Mode};
pub use ctd_source::{Failed, FromRead, Seen, Source, Spot};
pub use ctd_syntax::{Bytes, LoadFault, LoadKind, Place, Presets};
pub use laws::{
    big_steps_are_the_run, commands_look_byte_by_byte, data_of_call_are_checked, lists_run_in_turn,
    looks_a_window_ahead, step_limits_only_stop, taken_bytes_decide, unread_bytes_do_not_count,
};
