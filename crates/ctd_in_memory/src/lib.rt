//! The checker over the buffers of a caller: words, program and data are bytes in memory, and so are both texts of the answer.
#![tactic(auto)]

mod buffers;
mod memory_source;
mod run;
mod text_sink;
mod words;

pub use buffers::{Lengths, answer_in_buffers};
