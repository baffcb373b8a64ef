//! What a process asks of its system, for each program of this repository: the streams, the words and the files, as one trait, so that a
//! contract can say what was asked for and in which order; and the system itself.
#![tactic(auto)]

mod buffered;
mod host;
mod system;
mod words;

pub use buffered::buffered_source;
pub use host::{Files, Host};
pub use system::{System, SystemFile};
pub use words::copy_words;
