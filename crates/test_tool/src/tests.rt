//! Patterns by themselves, and checks and the tool on readers and writers in memory, a module for each subject. What a process shows is in
//! `tests/process.sh` and in the tables of `tests/tables/` at the top of the repository.

mod checks;
mod consumed;
mod hosts;
mod limits;
mod memory;
mod pattern_lengths;
mod processes;
mod programs;
mod readers;
mod reports;
mod runs;
mod words;
mod writers;

use std::fmt::Debug;
use std::process::Abort;

/// That what was found somewhere is what is wanted there.
fn same<T: PartialEq + Debug>(rt: &impl Abort, found: &T, wanted: &T, place: &impl Debug) {
    assert_eq!(rt; found, wanted, "at {place:?}");
}
