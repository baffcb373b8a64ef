//! Remarks on arrays that each turn of a loop fills, and in which what the turns before put may still stand.

use crate::command::remark_about_if;
use crate::finding::Remark;
use crate::kind::Kind;
use crate::loops::{counter_of, loop_body};
use crate::names::ProgramNames;
use ctd_program::Command;
use ctd_traps::{Collector, MentionedName, Role, has_role, list_mentions, names_in_role};
use std::alloc::{AllocError, Global};

/// Adds the names in some commands, but for those in commands that stand in them.
fn list_body<'p>(commands: &'p [Command], found: &mut Collector<MentionedName<'p>>) {
    for command in commands {
        list_mentions(command, found);
    }
}

/// The names in some commands, but for those in commands that stand in them.
fn body_mentions<'p>(
    alloc: Global,
    commands: &'p [Command],
) -> Result<Vec<MentionedName<'p>>, AllocError> {
    let mut found = Collector::new(alloc);
    list_body(commands, &mut found);
    found.finish()
}

/// The names in what the loops among some commands do in each turn.
fn loops_mentions<'p>(
    alloc: Global,
    commands: &'p [Command],
) -> Result<Vec<MentionedName<'p>>, AllocError> {
    let mut found = Collector::new(alloc);
    for command in commands {
        list_body(loop_body(command), &mut found);
    }
    found.finish()
}

/// Adds a remark for each array at which a body looks as a whole, which its loops fill and it does not forget.
fn list_kept_in<'p>(
    alloc: Global,
    body: &'p [Command],
    found: &mut Collector<Remark>,
) -> Result<(), AllocError> {
    let own = body_mentions(alloc, body)?;
    let loops = loops_mentions(alloc, body)?;
    let filled = names_in_role(alloc, Role::Fills, loops.as_slice(), &[])?;
    let unset = names_in_role(alloc, Role::Forgets, own.as_slice(), &[])?;
    for m in &own {
        if has_role(Role::LooksAtAll, m) {
            let is_kept = filled.contains(&m.name.as_slice())
                && !unset.contains(&m.name.as_slice());
            remark_about_if(alloc, is_kept, Kind::KeptArray, m.name, found);
        }
    }
    Ok(())
}

/// Adds the remarks on the arrays of a loop, if nothing reads its counter.
pub(crate) fn list_kept<'p>(
    alloc: Global,
    command: &'p Command,
    names: &ProgramNames<'p>,
    found: &mut Collector<Remark>,
) {
    if let Some(counter) = counter_of(command)
        && names.read.contains(&counter.name.as_slice())
    {
        return;
    }
    match list_kept_in(alloc, loop_body(command), found) {
        Ok(()) => (),
        Err(_) => found.fail(),
    }
}
