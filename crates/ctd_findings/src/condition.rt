//! The tests of commands.

use ctd_program::{Action, Command, LoopGuard, Test};

/// The test of ASSERT, IF or WHILE, if a command is one of these.
pub(crate) fn test_of(command: &Command) -> Option<&Test> {
    match &command.action {
        Action::Assert(t) => Some(t),
        Action::If(choice) => Some(&choice.condition),
        Action::Loop(repeated) => match &repeated.guard {
            LoopGuard::Times(_) => None,
            LoopGuard::While(t) => Some(t),
        },
        _ => None,
    }
}
