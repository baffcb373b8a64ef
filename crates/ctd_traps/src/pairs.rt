//! The pairs of arrays of which a program asks whether the one has a value wherever the other has one, or at each value of it. No contract speaks of them.

use crate::block::CommandInBlock;
use crate::mentions::{MentionedName, Use, mentions_of};
use ctd_program::Expr;
use ctd_states::Pair;
use ctd_token::Name;
use std::alloc::{AllocError, Global};

/// How many pairs are looked at.
const MOST: usize = 16;

/// Of how many arrays with a name as their index these are made.
const INDEXED: usize = 64;

/// The index of a name.
fn place_of(names: &[&[u8]], name: &Name) -> Option<usize> {
    let word = name.as_slice();
    names.iter().position(|other| *other == word)
}

/// Adds a pair, if it is new and there is room for it.
fn add_pair(
    mut pairs: Vec<Pair>,
    names: &[&[u8]],
    name: &Name,
    other: &Name,
) -> Result<Vec<Pair>, AllocError> {
    if pairs.len() == MOST {
        return Ok(pairs);
    }
    if let (Some(array), Some(other)) = (place_of(names, name), place_of(names, other)) {
        let is_known = pairs
            .iter()
            .any(|pair| pair.array == array && pair.other == other);
        if !is_known && array != other {
            pairs.push(Pair { array, other })?;
        }
    }
    Ok(pairs)
}

/// Whether a command looks at all values of a name.
fn looks_at_all(mention: &MentionedName) -> bool {
    matches!(mention.used_as, Use::LooksAtAll)
}

/// Adds the pairs of arrays that UNIQUE compares: the first with each other one, and each with the first.
fn add_compared(
    mut pairs: Vec<Pair>,
    names: &[&[u8]],
    mentions: &[MentionedName],
) -> Result<Vec<Pair>, AllocError> {
    let mut first = None;
    for m in mentions {
        if looks_at_all(m) {
            match first {
                None => first = Some(m.name),
                Some(name) => {
                    pairs = add_pair(pairs, names, name, m.name)?;
                    pairs = add_pair(pairs, names, m.name, name)?;
                }
            }
        }
    }
    Ok(pairs)
}

/// Adds the pairs of an array whose element is an index of another.
fn add_keyed(
    mut pairs: Vec<Pair>,
    names: &[&[u8]],
    places: &[MentionedName],
) -> Result<Vec<Pair>, AllocError> {
    for place in places {
        if let [Expr::Element(element)] = place.indices {
            pairs = add_pair(pairs, names, &element.name, place.name)?;
        }
    }
    Ok(pairs)
}

/// An array with a name as its one index.
#[derive(Clone, Copy)]
struct Indexed<'p> {
    array: &'p Name,
    index: &'p Name,
}

/// Whether an array with a name as its index is among some.
fn is_among(all: &[Indexed], array: &Name, index: &Name) -> bool {
    all.iter().any(|one| one.array.as_slice() == array.as_slice()
        && one.index.as_slice() == index.as_slice())
}

/// The first arrays that have a name as their one index, each with an index once.
fn indexed_in<'p>(
    alloc: Global,
    places: &[MentionedName<'p>],
) -> Result<Vec<Indexed<'p>>, AllocError> {
    let mut all = Vec::new(alloc);
    for place in places {
        if let [Expr::Name(index)] = place.indices {
            let array = place.name;
            if all.len() < INDEXED && !is_among(all.as_slice(), array, index) {
                all.push(Indexed { array, index })?;
            }
        }
    }
    Ok(all)
}

/// Whether a command reads a name.
fn is_read(name: &Name, mentions: &[MentionedName]) -> bool {
    mentions.iter().any(|m| matches!(m.used_as, Use::Reads) && m.name.as_slice() == name.as_slice())
}

/// Adds the pairs of an array in which INARRAY looks for a name, and one that has this name as an index.
fn add_searched(
    mut pairs: Vec<Pair>,
    names: &[&[u8]],
    mentions: &[MentionedName],
    indexed: &[Indexed],
) -> Result<Vec<Pair>, AllocError> {
    for m in mentions {
        if looks_at_all(m) {
            for place in indexed {
                if pairs.len() < MOST && is_read(place.index, mentions) {
                    pairs = add_pair(pairs, names, m.name, place.array)?;
                }
            }
        }
    }
    Ok(pairs)
}

/// The pairs of arrays of some commands, in which names stand in these places.
pub(crate) fn pairs_in(
    alloc: Global,
    commands: &[CommandInBlock],
    places: &[MentionedName],
    names: &[&[u8]],
) -> Result<Vec<Pair>, AllocError> {
    let mut pairs = add_keyed(Vec::new(alloc), names, places)?;
    let indexed = indexed_in(alloc, places)?;
    for entry in commands {
        let mentions = mentions_of(alloc, entry.command)?;
        pairs = add_compared(pairs, names, mentions.as_slice())?;
        pairs = add_searched(pairs, names, mentions.as_slice(), indexed.as_slice())?;
    }
    Ok(pairs)
}
