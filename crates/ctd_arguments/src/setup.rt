//! What the command line asks for.

use ctd_program::{Limits, Mode, Presets};
use ctd_token::Bytes;

/// The files to be checked and how: what the words of the command line ask for.
#[derive(Drop)]
pub struct Setup {
    /// The name of the program's file, in UTF-8.
    pub program: Bytes,
    /// The name of the data's file, in UTF-8, or none for standard input.
    pub testdata: Option<Bytes>,
    /// The variables that are pinned.
    pub presets: Presets,
    /// How blanks are matched.
    pub mode: Mode,
    /// Whether nothing goes to standard output.
    pub quiet: bool,
    /// How far the check may go.
    pub limits: Limits,
}

/// Why the words give no settings.
#[derive(Clone, Copy, PartialEq, Eq, Debug)]
pub enum UsageFault {
    /// The words are not those of a command line of this tool.
    Words = 1,
    /// The limit on steps is no number of 64 bits.
    BadSteps = 2,
    /// The text of the presets spells none.
    BadPreset = 3,
    /// Data are to be generated, which this tool does not do.
    Generate = 4,
    /// The help is asked for.
    Help = 5,
    /// The version is asked for.
    Version = 6,
    /// No memory was left for the words.
    Memory = 7,
}
