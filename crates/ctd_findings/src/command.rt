//! The remarks on a command.

use crate::after_loop::list_behind;
use crate::condition::test_of;
use crate::finding::Remark;
use crate::kept_array::list_kept;
use crate::kind::Kind;
use crate::loops::{counter_of, is_set_in, loop_body, some_set_fixed};
use crate::names::ProgramNames;
use crate::never::NeverAt;
use crate::no_index::list_no_index;
use crate::other_word::list_other_word;
use crate::outcome::{
    Outcomes, list_empty_range, list_mistyped, list_one_answer, list_unreachable,
};
use crate::pattern::list_pattern;
use crate::sides::{has_same_names, has_same_sides};
use ctd_program::{Action, Command, Expr};
use ctd_token::{Bytes, Name};
use ctd_traps::{Collector, CommandInBlock, MentionedName, Role, has_role, mentions_of};
use std::alloc::{AllocError, Global};
use std::collections::BTreeSet;

/// Adds a remark where this is so.
pub(crate) fn remark_if(is_so: bool, kind: Kind, found: &mut Collector<Remark>) {
    if is_so {
        found.add(Remark { kind, name: None });
    }
}

/// Adds a remark about a name.
pub(crate) fn remark_about(alloc: Global, kind: Kind, name: &Name, found: &mut Collector<Remark>) {
    match Bytes::copy(alloc, name.as_slice()) {
        Ok(bytes) => found.add(Remark {
            kind,
            name: Some(bytes),
        }),
        Err(_) => found.fail(),
    }
}

/// Adds a remark about a name where this is so.
pub(crate) fn remark_about_if(
    alloc: Global,
    is_so: bool,
    kind: Kind,
    name: &Name,
    found: &mut Collector<Remark>,
) {
    if is_so {
        remark_about(alloc, kind, name, found)
    }
}

/// Whether a name says that nothing reads it.
fn is_set_aside(name: &Name) -> bool {
    let bytes = name.as_slice();
    bytes.starts_with(b"skip") || bytes.starts_with(b"unused")
}

/// Adds a remark for each name that a command needs and nothing gives a value.
fn list_without_value<'p>(
    alloc: Global,
    mentions: &[MentionedName<'p>],
    names: &ProgramNames<'p>,
    found: &mut Collector<Remark>,
) {
    for m in mentions {
        let needs = has_role(Role::Needs, m) && !names.given.contains(&m.name.as_slice());
        remark_about_if(alloc, needs, Kind::NoValue, m.name, found);
    }
}

/// Adds a remark for each name that a command sets and nothing but its own assignments reads, but for those that say so.
fn list_unread<'p>(
    alloc: Global,
    mentions: &[MentionedName<'p>],
    names: &ProgramNames<'p>,
    found: &mut Collector<Remark>,
) {
    for m in mentions {
        if has_role(Role::Sets, m)
            && !(names.read_elsewhere.contains(&m.name.as_slice()) || is_set_aside(m.name))
        {
            let kind = if names.read.contains(&m.name.as_slice()) {
                Kind::OwnReads
            } else {
                Kind::Unread
            };
            remark_about(alloc, kind, m.name, found);
        }
    }
}

/// Adds the remarks on the names in a command.
fn list_names<'p>(
    alloc: Global,
    command: &'p Command,
    names: &ProgramNames<'p>,
    found: &mut Collector<Remark>,
) {
    match mentions_of(alloc, command) {
        Ok(mentions) => {
            list_without_value(alloc, mentions.as_slice(), names, found);
            list_unread(alloc, mentions.as_slice(), names, found)
        }
        Err(_) => found.fail(),
    }
}

/// Whether a command takes a byte of the data in every run that it does not end.
fn takes_bytes(command: &Command) -> bool {
    matches!(
        &command.action,
        Action::Space | Action::Newline | Action::Int(_)
    )
}

/// Adds a remark where the command before is EOF, and this one takes a byte.
fn list_after_eof(previous: Option<&Command>, command: &Command, found: &mut Collector<Remark>) {
    let is_behind_eof = previous.is_some_and(|p| matches!(&p.action, Action::Eof));
    remark_if(is_behind_eof && takes_bytes(command), Kind::AfterEof, found)
}

/// Adds the remarks on the counter of a loop.
fn list_counter<'p>(
    alloc: Global,
    command: &'p Command,
    names: &ProgramNames<'p>,
    found: &mut Collector<Remark>,
) {
    let Some(counter) = counter_of(command) else {
        return;
    };
    let name = &counter.name;
    let body = loop_body(command);
    let is_fixed = !names.read.contains(&name.as_slice()) && some_set_fixed(body);
    remark_about_if(alloc, is_fixed, Kind::LiteralIndex, name, found);
    remark_about_if(
        alloc,
        is_set_in(counter, body),
        Kind::CounterSet,
        name,
        found,
    )
}

/// Whether an expression is the empty string.
fn is_empty_text(e: &Expr) -> bool {
    matches!(e, Expr::Text(bytes) if bytes.as_slice().is_empty())
}

/// Adds the remarks on the form of the test of a command.
fn list_test(command: &Command, found: &mut Collector<Remark>) {
    let Some(t) = test_of(command) else {
        return;
    };
    remark_if(has_same_sides(t), Kind::SameSides, found);
    remark_if(has_same_names(t), Kind::SameNames, found)
}

/// Adds the remarks that follow from a command alone.
fn list_own(
    alloc: Global,
    command: &Command,
    at: NeverAt,
    outcomes: &Outcomes,
    found: &mut Collector<Remark>,
) {
    match &command.action {
        Action::Int(_) => list_empty_range(command.place, at, outcomes, found),
        Action::String(e) => remark_if(is_empty_text(e), Kind::EmptyString, found),
        Action::Regex(regex) => list_pattern(alloc, regex.literal.bytes.as_slice(), found),
        _ => (),
    }
}

/// Which of some remarks say what none before them says.
fn are_new(alloc: Global, remarks: &[Remark]) -> Result<Vec<bool>, AllocError> {
    let mut seen = BTreeSet::new(alloc);
    let mut new = Vec::new(alloc);
    for remark in remarks {
        let name: &[u8] = remark.name.as_ref().map_or(&[], |name| name.as_slice());
        new.push(seen.insert((remark.kind.name(), name))?)?;
    }
    Ok(new)
}

/// The remarks, each once.
fn each_once(alloc: Global, remarks: Vec<Remark>) -> Result<Vec<Remark>, AllocError> {
    let new = are_new(alloc, remarks.as_slice())?;
    let mut once = Vec::new(alloc);
    for (remark, is_new) in remarks.into_iter().zip(new) {
        if is_new {
            once.push(remark)?;
        }
    }
    Ok(once)
}

/// The remarks on a command, each once, where these events never happen.
pub(crate) fn command_remarks<'p>(
    alloc: Global,
    entry: &CommandInBlock<'p>,
    names: &ProgramNames<'p>,
    outcomes: &Outcomes,
    at: NeverAt,
) -> Result<Vec<Remark>, AllocError> {
    let CommandInBlock {
        previous,
        command,
        ..
    } = *entry;
    let mut found = Collector::new(alloc);
    list_unreachable(entry, at, outcomes, &mut found);
    list_after_eof(previous, command, &mut found);
    list_names(alloc, command, names, &mut found);
    list_mistyped(command, at, outcomes, &mut found);
    list_counter(alloc, command, names, &mut found);
    list_behind(alloc, entry, &mut found);
    list_one_answer(command, &names.parameters, at, outcomes, &mut found);
    list_kept(alloc, command, names, &mut found);
    list_no_index(alloc, command, names, &mut found);
    list_other_word(alloc, command, &names.words, &mut found);
    list_test(command, &mut found);
    list_own(alloc, command, at, outcomes, &mut found);
    each_once(alloc, found.finish()?)
}
