//! The names of a program, by what it does with them.

use crate::no_index::names_at_indices;
use crate::other_word::compared_words;
use crate::parameter::parameters_of;
use crate::words::Words;
use ctd_program::{Command, Preset};
use ctd_traps::{CommandInBlock, MentionedName, Role, names_in_role};
use std::alloc::{AllocError, Global};
use std::collections::BTreeSet;

/// The names of a program, by their bytes.
#[derive(Drop)]
pub(crate) struct ProgramNames<'p> {
    pub(crate) mentioned: BTreeSet<&'p [u8]>,
    /// Those that the program or a preset gives a value.
    pub(crate) given: BTreeSet<&'p [u8]>,
    pub(crate) read: BTreeSet<&'p [u8]>,
    /// Those that it reads elsewhere than in their own assignments.
    pub(crate) read_elsewhere: BTreeSet<&'p [u8]>,
    /// Those that get values at indices.
    pub(crate) at_indices: BTreeSet<&'p [u8]>,
    /// Those with one literal, for which a preset may stand.
    pub(crate) parameters: BTreeSet<&'p [u8]>,
    /// The words of those that it compares with strings.
    pub(crate) words: Words<'p>,
}

/// The names of a program with these commands, one after the other, which mention these, where these presets are given.
pub(crate) fn program_names<'p>(
    alloc: Global,
    program: &'p [Command],
    commands: &[CommandInBlock<'p>],
    mentions: &[MentionedName<'p>],
    presets: &'p [Preset],
) -> Result<ProgramNames<'p>, AllocError> {
    Ok(ProgramNames {
        mentioned: names_in_role(alloc, Role::Mentions, mentions, &[])?,
        given: names_in_role(alloc, Role::Gives, mentions, presets)?,
        read: names_in_role(alloc, Role::Reads, mentions, &[])?,
        read_elsewhere: names_in_role(alloc, Role::ReadsElsewhere, mentions, &[])?,
        at_indices: names_at_indices(alloc, mentions, presets)?,
        parameters: parameters_of(alloc, program, mentions)?,
        words: compared_words(alloc, commands, presets)?,
    })
}
