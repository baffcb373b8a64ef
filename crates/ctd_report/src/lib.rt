//! The report of a run: its texts, and the sinks that they are written to.
#![tactic(auto)]

mod load_line;
mod report;
mod sink;
mod written;

pub use report::{NO_VERDICT, report_usage, write_cannot_open, write_load_fault, write_outcome};
pub use sink::{Sink, ToWrite, Writer};
pub use written::{ToolFault, write_report};
