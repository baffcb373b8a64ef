//! Remarks on counters that are read behind their loops.

use crate::command::remark_about_if;
use crate::finding::Remark;
use crate::kind::Kind;
use crate::loops::{is_element, is_set_by, loop_of, turns_counter};
use ctd_program::{Command, Var};
use ctd_traps::{
    Collector, CommandInBlock, MentionedName, Role, all_commands, all_mentions, has_role,
    is_in_role, mentions_of,
};
use std::alloc::{AllocError, Global};
use std::slice;

/// Whether a variable may be read where a name stands: UNIQUE and INARRAY look at all values of the name, and else both are elements or neither is.
fn may_be_read(variable: &Var, mention: &MentionedName) -> bool {
    has_role(Role::Reads, mention)
        && variable.name.as_slice() == mention.name.as_slice()
        && (has_role(Role::LooksAtAll, mention)
            || is_element(variable) != mention.indices.is_empty())
}

/// Whether a command, or one in it, may read a variable.
fn is_read_by(alloc: Global, variable: &Var, command: &Command) -> Result<bool, AllocError> {
    let commands = all_commands(alloc, slice::from_ref(command))?;
    let mentions = all_mentions(alloc, commands.as_slice())?;
    Ok(mentions.as_slice().iter().any(|m| may_be_read(variable, m)))
}

/// Whether a command, or one in it, may give a variable a value, or the command forgets the values of its name.
fn is_changed_by(alloc: Global, variable: &Var, command: &Command) -> Result<bool, AllocError> {
    let mentions = mentions_of(alloc, command)?;
    let is_forgotten = is_in_role(&variable.name, Role::Forgets, mentions.as_slice());
    Ok(is_set_by(variable, command) | is_forgotten)
}

/// Whether a variable is read in the commands behind a loop: by the first of them that changes or reads it, where it does not change it. They are
/// followed up to the next loop.
fn is_read_behind(alloc: Global, variable: &Var, commands: &[Command]) -> Result<bool, AllocError> {
    for command in commands {
        if is_changed_by(alloc, variable, command)? {
            return Ok(false);
        }
        if is_read_by(alloc, variable, command)? {
            return Ok(true);
        }
        if loop_of(command).is_some() {
            return Ok(false);
        }
    }
    Ok(false)
}

/// Adds a remark on a loop whose counter is read behind it.
pub(crate) fn list_behind<'p>(
    alloc: Global,
    entry: &CommandInBlock<'p>,
    found: &mut Collector<Remark>,
) {
    let Some(counter) = turns_counter(entry.command) else {
        return;
    };
    match is_read_behind(alloc, counter, entry.behind) {
        Ok(is_read) => remark_about_if(alloc, is_read, Kind::CounterBehind, &counter.name, found),
        Err(_) => found.fail(),
    }
}
