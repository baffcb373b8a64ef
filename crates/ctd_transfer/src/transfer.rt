//! The transfer function of a command in which no others stand.

ghost use Rattle.std.specs.Prelude.{IfOk};
ghost use Rattle.ctd_program.specs.calls.View.{command_tree};
ghost use Rattle.ctd_transfer.specs.calls.Acts.{ActsKeep};
ghost use Rattle.ctd_transfer.specs.inner.Acts.{ActKeeps};

use crate::simple::{take_integer, take_match, take_string};
use crate::variable::{StateAfter, clear_all, set_all, stay};
use ctd_partitions::{State, join_state};
use ctd_program::{Action, Command};
use ctd_states::{Context, Faults, Stop, no_faults, union};

/// The states behind a command, and the faults that it may have.
#[derive(Drop)]
pub struct StatesAfter {
    pub after: Vec<State>,
    pub faults: Faults,
}

/// The transfer function of a command on one state; gives the faults that it may have.
fn transfer(command: &Command, context: Context, state: &State) -> Result<StateAfter, Stop>
    ensures { IfOk result (λ a. ActKeeps context.entry state.now a.after a.faults (command_tree command.now)) }
{
    match &command.action {
        Action::Space | Action::Newline | Action::Eof => stay(context, state),
        Action::Int(int) => take_integer(int, context, state),
        Action::String(e) => take_string(e, context, state),
        Action::Regex(regex) => take_match(regex, context, state),
        Action::Set(assignments) => set_all(context, assignments.as_slice(), state),
        Action::Unset(names) => clear_all(context, names.as_slice(), state),
        Action::Assert(_) | Action::Loop(_) | Action::If(_) => Err(Stop::GaveUp),
    }
}

/// The states behind a command, by the transfer function on each state before it.
pub fn transfer_each(
    command: &Command,
    context: Context,
    states: &[State],
) -> Result<StatesAfter, Stop>
    ensures { IfOk result (λ a. ActsKeep context.entry states.now a.after.items a.faults (command_tree command.now)) }
{
    let mut after = Vec::new(context.alloc);
    let mut faults = no_faults();
    for state in states {
        let own = transfer(command, context, state)?;
        after = join_state(context, after, own.after)?;
        faults = union(faults, own.faults);
    }
    Ok(StatesAfter { after, faults })
}
