//! How blanks of the data are matched.

/// How blanks of the data are matched.
#[derive(Clone, Copy, PartialEq, Eq, Debug)]
pub enum Mode {
    /// Each blank is matched as it stands.
    Exact,
    /// Spaces, tabs, vertical tabs, form feeds and carriage returns are blanks: SPACE takes one or more of them, and they are
    /// skipped at the start of the data, around the line feed of NEWLINE, and before the end of the data.
    BlanksOk,
}
