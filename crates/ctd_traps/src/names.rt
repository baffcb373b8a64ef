//! The names of a program. No contract speaks of them: where one is not listed, the analysis gives up.

use crate::block::all_commands;
use crate::mentions::{MentionedName, all_mentions};
use crate::pairs::pairs_in;
use ctd_program::{Command, Expr, Preset, Presets};
use ctd_states::Pair;
use std::alloc::{AllocError, Global};

/// The names of a program and of presets, each once, with the strings that are indices among them; and the pairs of arrays of which it asks.
#[derive(Drop)]
pub(crate) struct Mentioned<'p> {
    pub(crate) names: Vec<&'p [u8]>,
    pub(crate) pairs: Vec<Pair>,
}

/// Adds the strings that are indices.
fn list_texts<'p>(
    mut words: Vec<&'p [u8]>,
    places: &[MentionedName<'p>],
) -> Result<Vec<&'p [u8]>, AllocError> {
    for place in places {
        for index in place.indices {
            if let Expr::Text(bytes) = index {
                words.push(bytes.as_slice())?;
            }
        }
    }
    Ok(words)
}

/// The names that stand in some places with the strings that are indices, and those of presets, each once.
fn each_once<'p>(
    alloc: Global,
    places: &[MentionedName<'p>],
    presets: &'p [Preset],
) -> Result<Vec<&'p [u8]>, AllocError> {
    let mut once = Vec::with_capacity(alloc, places.len().saturating_add(presets.len()))?;
    for place in places {
        once.push(place.name.as_slice())?;
    }
    for preset in presets {
        once.push(preset.name.as_slice())?;
    }
    once = list_texts(once, places)?;
    once.sort()?;
    once.dedup();
    Ok(once)
}

/// The names of a program and of presets, and the pairs of its arrays.
pub(crate) fn mentioned_in<'p>(
    alloc: Global,
    commands: &'p [Command],
    presets: &'p Presets,
) -> Result<Mentioned<'p>, AllocError> {
    let entries = all_commands(alloc, commands)?;
    let places = all_mentions(alloc, entries.as_slice())?;
    let names = each_once(alloc, places.as_slice(), presets.pins())?;
    let pairs = pairs_in(
        alloc,
        entries.as_slice(),
        places.as_slice(),
        names.as_slice(),
    )?;
    Ok(Mentioned { names, pairs })
}
