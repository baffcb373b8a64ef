//! Which names are told at all.

use crate::names::{NameSet, index_of};
use ctd_program::{Action, Assignment, Command, Expr, Preset, Var};
use ctd_traps::CommandInBlock;
use std::alloc::{AllocError, Global};

/// Whether an expression is a number or a string as written.
fn is_literal(e: &Expr) -> bool {
    match e {
        Expr::Numeral(_) | Expr::Text(_) => true,
        Expr::Minus(e) => matches!(&**e, Expr::Numeral(_)),
        _ => false,
    }
}

/// What is told of the names of a program: those that INT or REGEX reads; those that SET gives one literal; those that it gives another value, or one
/// more; and those in which a loop counts, or that a preset pins.
#[derive(Drop)]
struct Gifts<'n> {
    names: &'n [&'n [u8]],
    read: NameSet,
    literal: NameSet,
    more: NameSet,
    hidden: NameSet,
}

/// Notes that a variable is read, if there is one.
fn note_target(target: &Option<Var>, gifts: &mut Gifts<'_>) {
    if let Some(variable) = target {
        if let Some(i) = index_of(gifts.names, variable.name.as_slice()) {
            gifts.read.add(i);
        }
    }
}

/// Notes an assignment. A literal for an element is not more than one: arrays of literals are tables and marks.
fn note_assignment(assignment: &Assignment, gifts: &mut Gifts<'_>) {
    let Assignment { target, value } = assignment;
    let Some(i) = index_of(gifts.names, target.name.as_slice()) else {
        return;
    };
    let is_more = !is_literal(value)
        || target.indices.as_slice().is_empty() && !gifts.literal.add(i);
    if is_more {
        gifts.more.add(i);
    }
}

/// Notes that a name is not told.
fn hide(name: &[u8], gifts: &mut Gifts<'_>) {
    if let Some(i) = index_of(gifts.names, name) {
        gifts.hidden.add(i);
    }
}

/// Notes what a command gives values.
fn note_command(command: &Command, gifts: &mut Gifts<'_>) {
    match &command.action {
        Action::Int(int) => note_target(&int.target, gifts),
        Action::Regex(regex) => note_target(&regex.target, gifts),
        Action::Set(assignments) => {
            for assignment in assignments.as_slice() {
                note_assignment(assignment, gifts);
            }
        }
        Action::Loop(repeated) => {
            if let Some(counter) = &repeated.counter {
                hide(counter.name.as_slice(), gifts);
            }
        }
        _ => (),
    }
}

/// Which names are told: those that the data may give different values. So not the names in which loops count, those of presets, nor those that are only
/// given one literal, by SET. Of those that are told, some are read.
#[derive(Drop)]
pub(crate) struct ToldNames {
    pub(crate) told: NameSet,
    pub(crate) read: NameSet,
}

/// The names that are told, by the commands of a program and the presets.
pub(crate) fn told_names(
    alloc: Global,
    names: &[&[u8]],
    commands: &[CommandInBlock<'_>],
    presets: &[Preset],
) -> Result<ToldNames, AllocError> {
    let count = names.len();
    let mut gifts = Gifts {
        names,
        read: NameSet::none_of(alloc, count)?,
        literal: NameSet::none_of(alloc, count)?,
        more: NameSet::none_of(alloc, count)?,
        hidden: NameSet::none_of(alloc, count)?,
    };
    for entry in commands {
        note_command(entry.command, &mut gifts);
    }
    for preset in presets {
        hide(preset.name.as_slice(), &mut gifts);
    }
    let mut told = NameSet::none_of(alloc, count)?;
    for i in 0..count {
        if (gifts.read.has(i) || gifts.more.has(i)) && !gifts.hidden.has(i) {
            told.add(i);
        }
    }
    let Gifts { read, .. } = gifts;
    Ok(ToldNames { told, read })
}
