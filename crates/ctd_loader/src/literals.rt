//! The literals of REGEX in a program, in the order of the text.
ghost use Rattle.std.specs.Prelude.{◌≡◌, ◌++◌, OnOk, IfOk};
ghost use Rattle.ctd_program.specs.inner.View.{boxed_separator};
ghost use Rattle.ctd_program.specs.calls.View.{command_tree, command_trees};
ghost use Rattle.ctd_syntax.specs.inner.PatternLiterals.{literals, command_literals, separator_literals};
ghost use Rattle.ctd_loader.specs.inner.Literals.{literals_at};

use ctd_syntax::{Action, Choice, Command, Loop, RegexArguments};
use std::alloc::{AllocError, Global};

/// Appends the literals of commands to those found before.
#[cycle(literals)]
fn list_literals<'p>(
    commands: &'p [Command],
    found: &mut Vec<&'p RegexArguments>,
) -> Result<(), AllocError>
    ensures lists { OnOk result (literals_at found.new.items ≡ literals_at found.old.items ++ literals (command_trees commands.now)) }
{
    for command in commands {
        command_literals(command, found)?;
    }
    Ok(())
}

/// Those of a command.
#[cycle(literals)]
fn command_literals<'p>(
    command: &'p Command,
    found: &mut Vec<&'p RegexArguments>,
) -> Result<(), AllocError>
    ensures lists { OnOk result (literals_at found.new.items ≡ literals_at found.old.items ++ command_literals (command_tree command.now)) }
{
    match &command.action {
        Action::Space | Action::Newline | Action::Eof => Ok(()),
        Action::Int(_) | Action::String(_) | Action::Assert(_) => Ok(()),
        Action::Set(_) | Action::Unset(_) => Ok(()),
        Action::Regex(regex) => {
            found.push(&**regex)?;
            Ok(())
        }
        Action::Loop(repeated) => {
            let Loop { between, body, .. } = &**repeated;
            separator_literals(between, found)?;
            list_literals(body.as_slice(), found)
        }
        Action::If(choice) => {
            let Choice {
                then_do,
                else_do,
                ..
            } = &**choice;
            list_literals(then_do.as_slice(), found)?;
            list_literals(else_do.as_slice(), found)
        }
    }
}

/// Those of a separator, if there is one.
#[cycle(literals)]
fn separator_literals<'p>(
    between: &'p Option<Box<Command>>,
    found: &mut Vec<&'p RegexArguments>,
) -> Result<(), AllocError>
    ensures lists { OnOk result (literals_at found.new.items ≡ literals_at found.old.items ++ separator_literals (boxed_separator between.now)) }
{
    match between {
        Some(separator) => command_literals(separator, found),
        None => Ok(()),
    }
}

/// The literals of a program, each with what else stands in its REGEX.
pub(crate) fn literals_of(
    alloc: Global,
    commands: &[Command],
) -> Result<Vec<&RegexArguments>, AllocError>
    ensures literals { IfOk result (λ found. literals_at found.items ≡ literals (command_trees commands.now)) }
{
    let mut found = Vec::new(alloc);
    list_literals(commands, &mut found)?;
    Ok(found)
}
