//! What the report of a program is asked for.

use crate::kind::LintKind;
use ctd_program::Presets;

/// The form of a report.
#[derive(Clone, Copy)]
pub enum Form {
    /// Lines of text, those of errors on standard error.
    Text,
    /// An object of JSON a line, all of them on standard output.
    Json,
}

/// What the report of each program is asked for.
pub struct LintSetup {
    /// The presets of the checks.
    pub presets: Presets,
    /// The kinds that are left out.
    pub ignored: Vec<LintKind>,
    /// Whether a line tells of verdicts, and the status depends on them.
    pub verdicts: bool,
    /// Whether it is told what every accepted file has.
    pub guarantees: bool,
    /// The form.
    pub form: Form,
}

impl Drop for LintSetup {
    fn drop(self) {
        let LintSetup {
            presets: _,
            ignored: _,
            verdicts: _,
            guarantees: _,
            form: _,
        } = self;
    }
}
