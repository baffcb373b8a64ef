//! The traps of a program of which nothing is known.

ghost use Rattle.std.specs.Prelude.{OnOk, IfOk};
ghost use Rattle.ctd_program.specs.calls.View.{command_tree, command_trees};
ghost use Rattle.ctd_traps.specs.calls.Commands.{all_commands};
ghost use Rattle.ctd_traps.specs.calls.Traps.{faults_of};
ghost use Rattle.ctd_traps.specs.inner.Anything.{AreAllListed, AreAmong, IsListed, of_expressions, of_loops, of_tests, possible_in};
ghost use Rattle.ctd_traps.specs.inner.Holds.{ArePart};

use crate::block::all_commands;
use crate::trap::{Trap, report};
use ctd_program::{Action, Command};
use ctd_states::{Faults, no_faults};
use std::alloc::{AllocError, Global};

/// The faults of expressions.
fn expression_faults() -> Faults
    ensures { AreAmong of_expressions result }
{
    Faults {
        no_value: true,
        no_element: true,
        wrong_type: true,
        overflow: true,
        division_by_zero: true,
        exponent: true,
        ..no_faults()
    }
}

/// The faults of tests.
fn test_faults() -> Faults
    ensures { AreAmong of_tests result }
{
    Faults {
        shape: true,
        ..expression_faults()
    }
}

/// The faults of loops.
fn loop_faults() -> Faults
    ensures { AreAmong of_loops result }
{
    Faults {
        count: true,
        ..test_faults()
    }
}

/// The faults that a command can have, whatever the variables are.
fn possible_faults(command: &Command) -> Faults
    ensures { AreAmong (possible_in (command_tree command.now)) result }
{
    match &command.action {
        Action::Space | Action::Newline | Action::Eof | Action::Unset(_) => no_faults(),
        Action::Int(_) | Action::String(_) => expression_faults(),
        Action::Regex(_) | Action::Set(_) => expression_faults(),
        Action::Assert(_) | Action::If(_) => test_faults(),
        Action::Loop(_) => loop_faults(),
    }
}

/// Adds a trap for each fault that a command can have.
fn list_command(command: &Command, traps: &mut Vec<Trap>) -> Result<(), AllocError>
    ensures more { OnOk result (ArePart (faults_of traps.old.items) (faults_of traps.new.items)) }
    ensures listed { OnOk result (IsListed (faults_of traps.new.items) (command_tree command.now)) }
{
    report(command.place, possible_faults(command), traps)?;
    Ok(())
}

/// A trap for each fault that the commands of a program can have.
pub(crate) fn all_traps(alloc: Global, commands: &[Command]) -> Result<Vec<Trap>, AllocError>
    ensures { IfOk result (λ traps. AreAllListed (faults_of traps.items) (all_commands (command_trees commands.now))) }
{
    let entries = all_commands(alloc, commands)?;
    let mut traps = Vec::new(alloc);
    for entry in entries.as_slice() {
        list_command(entry.command, &mut traps)?;
    }
    Ok(traps)
}
