//! The checktestdata program: the tool on the words, the files and the standard streams of the process.
#![tactic(auto)]

use ctd_tool::{System, answer};
use std::process::ExitCode;

fn main(rt: HostRuntime) -> ExitCode {
    ExitCode::from(answer(rt.alloc(), &mut System::new(&rt)).status)
}
