//! Remarks on comparisons of a variable with a string that it can never be.

use crate::command::remark_about_if;
use crate::condition::test_of;
use crate::finding::Remark;
use crate::kind::Kind;
use crate::words::{Words, regex_of};
use ctd_program::{Command, Compare, Expr, Preset, Test};
use ctd_token::Name;
use ctd_traps::{Collector, CommandInBlock, Role, has_role, list_mentions};
use std::alloc::{AllocError, Global};
use std::collections::BTreeSet;

/// A variable that a test compares with a string: whether it is that string.
#[derive(Clone, Copy)]
struct Comparison<'p> {
    name: &'p Name,
    text: &'p [u8],
}

/// The name of a variable, if an expression is one.
fn variable_in(e: &Expr) -> Option<&Name> {
    match e {
        Expr::Name(name) => Some(name),
        Expr::Element(element) => Some(&element.name),
        _ => None,
    }
}

/// The bytes of a string, if an expression is one.
fn string_in(e: &Expr) -> Option<&[u8]> {
    match e {
        Expr::Text(bytes) => Some(bytes.as_slice()),
        _ => None,
    }
}

/// The comparison of a variable with a string, if two sides are these.
fn comparison_of<'p>(variable: &'p Expr, string: &'p Expr) -> Option<Comparison<'p>> {
    let name = variable_in(variable)?;
    let text = string_in(string)?;
    Some(Comparison { name, text })
}

/// Adds a comparison, if two sides are a variable and a string.
fn list_sides<'p>(a: &'p Expr, b: &'p Expr, found: &mut Collector<Comparison<'p>>) {
    if let Some(c) = comparison_of(a, b).or(comparison_of(b, a)) {
        found.add(c);
    }
}

/// Adds the comparisons of variables with strings in a test.
fn list_comparisons<'p>(t: &'p Test, found: &mut Collector<Comparison<'p>>) {
    match t {
        Test::Or(a, b) | Test::And(a, b) => {
            list_comparisons(a, found);
            list_comparisons(b, found)
        }
        Test::Not(t) => list_comparisons(t, found),
        Test::Compare(Compare::Equal | Compare::Unequal, a, b) => list_sides(a, b, found),
        _ => (),
    }
}

/// Adds those in the test of a command.
fn list_compared<'p>(command: &'p Command, found: &mut Collector<Comparison<'p>>) {
    if let Some(t) = test_of(command) {
        list_comparisons(t, found);
    }
}

/// The names that the tests of some commands compare with strings.
fn compared_names<'p>(
    alloc: Global,
    commands: &[CommandInBlock<'p>],
) -> Result<BTreeSet<&'p [u8]>, AllocError> {
    let mut found = Collector::new(alloc);
    for entry in commands {
        list_compared(entry.command, &mut found);
    }
    let comparisons = found.finish()?;
    let mut names = BTreeSet::new(alloc);
    for c in &comparisons {
        names.insert(c.name.as_slice())?;
    }
    Ok(names)
}

/// Takes out of some names those to which more than REGEX gives values.
fn keep_matched<'p>(
    alloc: Global,
    names: &mut BTreeSet<&'p [u8]>,
    commands: &[CommandInBlock<'p>],
    presets: &'p [Preset],
) -> Result<(), AllocError> {
    let mut found = Collector::new(alloc);
    for entry in commands {
        if regex_of(entry.command).is_none() {
            list_mentions(entry.command, &mut found);
        }
    }
    let mentions = found.finish()?;
    for m in &mentions {
        if has_role(Role::Gives, m) {
            names.remove(&m.name.as_slice());
        }
    }
    for preset in presets {
        names.remove(&preset.name.as_slice());
    }
    Ok(())
}

/// The words of the names that the tests of some commands compare with strings, and to which only REGEX gives values.
pub(crate) fn compared_words<'p>(
    alloc: Global,
    commands: &[CommandInBlock<'p>],
    presets: &'p [Preset],
) -> Result<Words<'p>, AllocError> {
    let mut names = compared_names(alloc, commands)?;
    if names.is_empty() {
        return Ok(Words::none(alloc));
    }
    keep_matched(alloc, &mut names, commands, presets)?;
    Words::of(alloc, &names, commands)
}

/// Adds a remark for each variable that the test of a command compares with a string that is none of its words.
pub(crate) fn list_other_word<'p>(
    alloc: Global,
    command: &'p Command,
    words: &Words<'p>,
    found: &mut Collector<Remark>,
) {
    let mut compared = Collector::new(alloc);
    list_compared(command, &mut compared);
    match compared.finish() {
        Ok(comparisons) => {
            for c in &comparisons {
                let is_other = words.exclude(c.name.as_slice(), c.text);
                remark_about_if(alloc, is_other, Kind::OtherWord, c.name, found);
            }
        }
        Err(_) => found.fail(),
    }
}
