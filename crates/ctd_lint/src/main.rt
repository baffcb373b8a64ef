//! The ctd-lint program: reports likely mistakes in a program of the checktestdata language, and where it may stop without a verdict.
#![tactic(auto)]

use ctd_lint_tool::{System, answer};
use std::process::ExitCode;

fn main(rt: HostRuntime) -> ExitCode {
    ExitCode::from(answer(rt.alloc(), &mut System::new(&rt)).status)
}
