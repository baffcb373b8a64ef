//! What is known at the end of a scope, by names.

use crate::names::NameSet;
use crate::part::Pick;
use ctd_source::WINDOW;
use ctd_states::PossibleValues;
use ctd_traps::Known;
use std::alloc::{AllocError, Global};

/// Numbers from 2^64 on come from the number of steps of a run.
const FAR: i128 = 18_446_744_073_709_551_616;

/// What an entry says of values: that they are strings, or numbers with these ends, as far as they are told.
#[derive(Clone, Copy)]
pub(crate) struct Values {
    entry: usize,
    pub(crate) is_text: bool,
    pub(crate) least: Option<i128>,
    pub(crate) most: Option<i128>,
}

/// An end of a range, if it does not come from the number of steps of a run.
fn end_of(n: i128, slope: u64) -> Option<i128> {
    if slope == 0 && -FAR < n && n < FAR {
        Some(n)
    } else {
        None
    }
}

/// What an entry says of values, if they are numbers, or strings of lengths with a bound. Of values that may be either, nothing is told.
fn values_of(entry: usize, possible: &PossibleValues) -> Option<Values> {
    match (&possible.text, &possible.number) {
        (None, Some(range)) => Some(Values {
            entry,
            is_text: false,
            least: end_of(range.low, range.rise),
            most: end_of(range.high, range.fall),
        }),
        (Some(lengths), None) if lengths.least > 0 || lengths.most < WINDOW as u64 => Some(
            Values {
                entry,
                is_text: true,
                least: None,
                most: None,
            },
        ),
        _ => None,
    }
}

impl Values {
    /// Whether the entry says anything.
    pub(crate) fn is_told(&self) -> bool {
        self.is_text || self.least.is_some() || self.most.is_some()
    }

    /// Picks the entry with those ends of its range that are wanted, if it says anything then.
    pub(crate) fn pick(
        &self,
        with_least: bool,
        with_most: bool,
        picks: &mut Vec<Pick>,
    ) -> Result<(), AllocError> {
        let pick = Pick {
            entry: self.entry,
            with_least: with_least && self.least.is_some(),
            with_most: with_most && self.most.is_some(),
        };
        if self.is_text || pick.with_least || pick.with_most {
            picks.push(pick)?;
        }
        Ok(())
    }
}

/// What is known at the end of a scope: all of it; by name the entries that tell the values of it, without indices and at indices; the scope's own names,
/// in the order in which they are given values; which of these are told; and which names may stand beside them.
#[derive(Drop)]
pub(crate) struct Here<'k> {
    pub(crate) known: &'k [Known],
    alone: Vec<Option<usize>>,
    elements: Vec<Option<usize>>,
    pub(crate) names: &'k [usize],
    pub(crate) own: NameSet,
    pub(crate) near: NameSet,
}

/// Notes the entry that tells the values of a name.
fn note(entries: &mut [Option<usize>], name: usize, entry: usize) {
    if name < entries.len() {
        entries[name] = Some(entry);
    }
}

/// The values of a name, by the entries that tell them.
fn values_at(known: &[Known], entries: &[Option<usize>], name: usize) -> Option<Values> {
    let entry = (*entries.get(name)?)?;
    match known.get(entry)? {
        Known::Has(_, possible) | Known::MayHave(_, possible) | Known::Elements(_, possible) => {
            values_of(entry, possible)
        }
        Known::Beside(_) => None,
    }
}

impl<'k> Here<'k> {
    /// What is known of so many names.
    pub(crate) fn new(
        alloc: Global,
        known: &'k [Known],
        count: usize,
        names: &'k [usize],
        own: NameSet,
        near: NameSet,
    ) -> Result<Here<'k>, AllocError> {
        let mut alone = Vec::new(alloc);
        let mut elements = Vec::new(alloc);
        for _ in 0..count {
            alone.push(None)?;
            elements.push(None)?;
        }
        for (entry, one) in known.iter().enumerate() {
            match one {
                Known::Has(name, _) | Known::MayHave(name, _) => {
                    note(alone.as_mut_slice(), *name, entry)
                }
                Known::Elements(name, _) => note(elements.as_mut_slice(), *name, entry),
                Known::Beside(_) => (),
            }
        }
        Ok(Here {
            known,
            alone,
            elements,
            names,
            own,
            near,
        })
    }

    /// The values of a name without indices.
    pub(crate) fn alone(&self, name: usize) -> Option<Values> {
        values_at(self.known, self.alone.as_slice(), name)
    }

    /// The values of the elements of an array.
    pub(crate) fn elements(&self, name: usize) -> Option<Values> {
        values_at(self.known, self.elements.as_slice(), name)
    }

    /// The values of a name without indices, if they are numbers.
    pub(crate) fn number(&self, name: usize) -> Option<Values> {
        self.alone(name).filter(|values| !values.is_text)
    }
}
