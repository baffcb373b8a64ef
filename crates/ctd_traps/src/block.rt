//! The commands of a program, one after the other.

ghost use Rattle.std.specs.Prelude.{◌≡◌, IfOk};
ghost use Rattle.ctd_program.specs.inner.View.{boxed_separator};
ghost use Rattle.ctd_program.specs.calls.View.{command_tree, command_trees};
ghost use Rattle.ctd_traps.specs.calls.Commands.{all_commands, commands_within, separator_commands, trees_of};
ghost use Rattle.ctd_traps.specs.calls.Collector.{Adds};
ghost use Rattle.ctd_traps.specs.inner.Listed.{trees_in};

use crate::collector::Collector;
use ctd_program::{Action, Choice, Command, Loop};
use std::alloc::{AllocError, Global};

/// A command, with the one that stands before it in its list, if there is one, and those behind it.
#[derive(Clone, Copy)]
pub struct CommandInBlock<'p> {
    pub previous: Option<&'p Command>,
    pub command: &'p Command,
    pub behind: &'p [Command],
}

/// Adds the commands of a list, and those in them.
#[cycle(block)]
fn list_block<'p>(commands: &'p [Command], found: &mut Collector<CommandInBlock<'p>>)
    ensures adds { Adds (trees_in found.old) (all_commands (command_trees commands.now)) (trees_in found.new) }
{
    let mut previous = None;
    for (i, command) in commands.iter().enumerate() {
        let behind = &commands[i + 1..];
        found.add(CommandInBlock {
            previous,
            command,
            behind,
        });
        list_within(command, found);
        previous = Some(command);
    }
}

/// Adds the commands in a command.
#[cycle(block)]
fn list_within<'p>(command: &'p Command, found: &mut Collector<CommandInBlock<'p>>)
    ensures adds { Adds (trees_in found.old) (commands_within (command_tree command.now)) (trees_in found.new) }
{
    match &command.action {
        Action::Loop(repeated) => {
            let Loop { between, body, .. } = &**repeated;
            list_separator(between, found);
            list_block(body.as_slice(), found)
        }
        Action::If(choice) => {
            let Choice {
                then_do,
                else_do,
                ..
            } = &**choice;
            list_block(then_do.as_slice(), found);
            list_block(else_do.as_slice(), found)
        }
        Action::Space | Action::Newline | Action::Eof | Action::Int(_) => (),
        Action::String(_) | Action::Regex(_) | Action::Assert(_) => (),
        Action::Set(_) | Action::Unset(_) => (),
    }
}

/// Adds a separator, if there is one.
#[cycle(block)]
fn list_separator<'p>(between: &'p Option<Box<Command>>, found: &mut Collector<CommandInBlock<'p>>)
    ensures adds { Adds (trees_in found.old) (separator_commands (boxed_separator between.now)) (trees_in found.new) }
{
    match between {
        Some(command) => {
            found.add(CommandInBlock {
                previous: None,
                command,
                behind: &[],
            });
            list_within(command, found)
        }
        None => (),
    }
}

/// All commands of a program, in the order of the text.
pub fn all_commands(
    alloc: Global,
    commands: &[Command],
) -> Result<Vec<CommandInBlock<'_>>, AllocError>
    ensures all { IfOk result (λ found. trees_of found.items ≡ all_commands (command_trees commands.now)) }
{
    let mut found = Collector::new(alloc);
    list_block(commands, &mut found);
    found.finish()
}

/// All commands in a loop, in the order of the text.
pub(crate) fn commands_in_loop(
    alloc: Global,
    repeated: &Loop,
) -> Result<Vec<CommandInBlock<'_>>, AllocError> {
    let Loop { between, body, .. } = repeated;
    let mut found = Collector::new(alloc);
    list_separator(between, &mut found);
    list_block(body.as_slice(), &mut found);
    found.finish()
}
