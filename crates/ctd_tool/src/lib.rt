//! The tool: the files of a run, and its report. `run_tool` reads a program and data and writes the verdict, over any sources
//! and sinks; `answer` gives it the words, files and streams of the process.
#![tactic(auto)]

mod files;
mod host;
mod run;
mod tool;

pub use ctd_arguments::{Setup, UsageFault, settings};
pub use ctd_process::{Files, Host, System, SystemFile};
pub use ctd_report::{
    Sink, ToWrite, ToolFault, Writer, report_usage, write_cannot_open, write_load_fault,
    write_outcome,
};
pub use files::{FilesRun, Sources, check_files};
pub use host::{Answered, answer};
pub use run::{WordsRun, run_words, usage_status};
pub use tool::run_tool;
