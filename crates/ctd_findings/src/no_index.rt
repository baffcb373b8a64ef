//! Remarks on UNIQUE of variables that get no value at indices, so that it compares nothing.

use crate::command::remark_about;
use crate::condition::test_of;
use crate::finding::Remark;
use crate::kind::Kind;
use crate::names::ProgramNames;
use ctd_program::{Command, Preset, Test};
use ctd_token::Name;
use ctd_traps::{Collector, MentionedName, Role, names_in_role};
use std::alloc::{AllocError, Global};
use std::collections::BTreeSet;

/// The names that get values at indices, of those that some commands mention, and of these presets.
pub(crate) fn names_at_indices<'p>(
    alloc: Global,
    mentions: &[MentionedName<'p>],
    presets: &'p [Preset],
) -> Result<BTreeSet<&'p [u8]>, AllocError> {
    let mut names = names_in_role(alloc, Role::Fills, mentions, &[])?;
    for preset in presets {
        if !preset.indices.as_slice().is_empty() {
            names.insert(preset.name.as_slice())?;
        }
    }
    Ok(names)
}

/// Whether all of these names get values, and none of them at indices.
fn have_no_index<'p>(names: &'p [Name], all: &ProgramNames<'p>) -> bool {
    for name in names {
        if !all.given.contains(&name.as_slice()) || all.at_indices.contains(&name.as_slice()) {
            return false;
        }
    }
    true
}

/// The first name of the first UNIQUE in a test that compares nothing.
fn name_without_index<'p>(t: &'p Test, all: &ProgramNames<'p>) -> Option<&'p Name> {
    match t {
        Test::Or(a, b) | Test::And(a, b) => match name_without_index(a, all) {
            Some(name) => Some(name),
            None => name_without_index(b, all),
        },
        Test::Not(t) => name_without_index(t, all),
        Test::Unique(names) if have_no_index(names.as_slice(), all) => names.as_slice().first(),
        _ => None,
    }
}

/// Adds a remark where a UNIQUE in the test of a command compares nothing.
pub(crate) fn list_no_index<'p>(
    alloc: Global,
    command: &'p Command,
    all: &ProgramNames<'p>,
    found: &mut Collector<Remark>,
) {
    if let Some(t) = test_of(command)
        && let Some(name) = name_without_index(t, all)
    {
        remark_about(alloc, Kind::NoIndex, name, found);
    }
}
