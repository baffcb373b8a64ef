//! The names that have a role in commands.

use crate::mentions::{MentionedName, Use};
use ctd_program::Preset;
use ctd_token::Name;
use std::alloc::{AllocError, Global};
use std::collections::BTreeSet;

/// What may be asked of the use of a name.
#[derive(Clone, Copy)]
pub enum Role {
    /// The command has the name.
    Mentions,
    /// It reads it.
    Reads,
    /// It reads it elsewhere than in its own assignment.
    ReadsElsewhere,
    /// It looks at all values of it.
    LooksAtAll,
    /// It forgets the values of it.
    Forgets,
    /// It reads it or forgets its values, so it needs one.
    Needs,
    /// INT, REGEX or SET gives it a value.
    Sets,
    /// One of these or a loop gives it a value.
    Gives,
    /// One of these or a loop gives an element of it a value.
    Fills,
}

/// Whether a name has a role where it stands.
pub fn has_role(role: Role, mention: &MentionedName) -> bool {
    match mention.used_as {
        Use::Reads => matches!(
            role,
            Role::Mentions | Role::Reads | Role::ReadsElsewhere | Role::Needs
        ),
        Use::ReadsForItself => matches!(role, Role::Mentions | Role::Reads | Role::Needs),
        Use::LooksAtAll => matches!(
            role,
            Role::Mentions | Role::Reads | Role::ReadsElsewhere | Role::LooksAtAll | Role::Needs
        ),
        Use::Forgets => matches!(role, Role::Mentions | Role::Forgets | Role::Needs),
        Use::Sets => match role {
            Role::Mentions | Role::Sets | Role::Gives => true,
            Role::Fills => !mention.indices.is_empty(),
            _ => false,
        },
        Use::Counts => match role {
            Role::Mentions | Role::Gives => true,
            Role::Fills => !mention.indices.is_empty(),
            _ => false,
        },
    }
}

/// Whether a name has a role in one of the places where it stands.
pub fn is_in_role(name: &Name, role: Role, mentions: &[MentionedName]) -> bool {
    mentions.iter().any(|m| has_role(role, m) && name.as_slice() == m.name.as_slice())
}

/// The names that have a role where they stand, and those of these presets, by their bytes.
pub fn names_in_role<'p>(
    alloc: Global,
    role: Role,
    mentions: &[MentionedName<'p>],
    presets: &'p [Preset],
) -> Result<BTreeSet<&'p [u8]>, AllocError> {
    let mut names = BTreeSet::new(alloc);
    for m in mentions {
        if has_role(role, m) {
            names.insert(m.name.as_slice())?;
        }
    }
    for preset in presets {
        names.insert(preset.name.as_slice())?;
    }
    Ok(names)
}
