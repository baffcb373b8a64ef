//! Lines of arrays: `1 <= a[0..n-1] <= 10^9`.

use crate::chain::add_line;
use crate::here::{Here, Values};
use crate::part::Pick;
use ctd_elements::{Block, Bound, Fact, Filling, Index, Side};
use ctd_traps::Known;
use std::alloc::{AllocError, Global};

/// Whether a bound is a number, or has a name that may be told here.
fn is_readable(here: &Here<'_>, bound: &Bound) -> bool {
    match &bound.term {
        Some(term) => here.near.has(term.name),
        None => true,
    }
}

/// Whether two bounds have the same name as often, or none.
fn have_same_term(a: &Bound, b: &Bound) -> bool {
    match (&a.term, &b.term) {
        (Some(s), Some(t)) => s.name == t.name && s.times == t.times,
        (None, None) => true,
        _ => false,
    }
}

/// How wide a side is, if it may be told: an index, or an interval, from a number to a name at best.
fn width_of_side(here: &Here<'_>, side: &Side) -> Option<u32> {
    match side {
        Side::At(Index::Number(bound)) if is_readable(here, bound) => Some(0),
        Side::At(Index::Value(name)) if here.near.has(*name) => Some(0),
        Side::At(Index::Text(_)) => Some(0),
        Side::Between(interval)
            if is_readable(here, &interval.low) && is_readable(here, &interval.high) => {
            if have_same_term(&interval.low, &interval.high) {
                Some(0)
            } else if interval.low.term.is_some() {
                Some(1)
            } else {
                Some(2)
            }
        }
        _ => None,
    }
}

/// How wide a block is, if it may be told.
fn width_of(here: &Here<'_>, block: &Block) -> Option<u32> {
    let first = width_of_side(here, &block.first)?;
    match &block.second {
        Some(side) => Some(first.saturating_add(width_of_side(here, side)?)),
        None => Some(first),
    }
}

/// The number up to which a bound goes, if that is known.
fn limit_of(here: &Here<'_>, bound: &Bound) -> Option<i128> {
    match &bound.term {
        None => Some(i128::from(bound.add)),
        Some(term) if term.times == 1 => {
            let most = here.number(term.name)?.most?;
            Some(most.saturating_add(i128::from(bound.add)))
        }
        Some(_) => None,
    }
}

/// Whether the bound of elements that have values is told: it has a name that may be told here, which is not surely as large as they can be.
fn has_told_bound(here: &Here<'_>, values: &Values, filling: &Filling) -> bool {
    let Some(
        Bound {
            term: Some(term),
            add,
        },
    ) = &filling.most
    else {
        return false;
    };
    if !here.near.has(term.name) {
        return false;
    }
    let least = here.number(term.name).and_then(|number| number.least);
    match (values.most, least) {
        (Some(most), Some(least)) if term.times == 1 => {
            most > least.saturating_add(i128::from(*add))
        }
        _ => true,
    }
}

/// Whether the most number of elements follows from their bound.
fn follows_from_bound(here: &Here<'_>, values: &Values, filling: &Filling) -> bool {
    let Some(bound) = &filling.most else {
        return false;
    };
    match (limit_of(here, bound), values.most) {
        (Some(limit), Some(most)) => limit <= most,
        _ => false,
    }
}

/// How much a block of an array that has values tells: its width, and whether it tells a bound. 0 where it is not wide, or may not be told.
fn worth_of(here: &Here<'_>, values: &Values, filling: &Filling) -> u32 {
    match width_of(here, &filling.block) {
        None | Some(0) => 0,
        Some(width) => {
            let bound: u32 = if has_told_bound(here, values, filling) {
                1
            } else {
                0
            };
            width.saturating_mul(2).saturating_add(bound)
        }
    }
}

/// The widest block of an array that has values, with its entry, if one is wide.
fn widest(here: &Here<'_>, array: usize, values: &Values) -> Option<(usize, Filling)> {
    let mut best = None;
    let mut worth: u32 = 0;
    for (entry, one) in here.known.iter().enumerate() {
        match one {
            Known::Beside(Fact::Filled(filling)) if filling.array == array => {
                let own = worth_of(here, values, filling);
                if own > worth {
                    worth = own;
                    best = Some((entry, *filling));
                }
            }
            _ => (),
        }
    }
    best
}

/// Adds the line of an array, if anything is told of its elements: its widest block that has values, and between which numbers each of them is.
pub(crate) fn add_array(
    alloc: Global,
    here: &Here<'_>,
    array: usize,
    plan: &mut Vec<Vec<Pick>>,
) -> Result<(), AllocError> {
    let Some(values) = here.elements(array) else {
        return Ok(());
    };
    if !values.is_told() {
        return Ok(());
    }
    let mut picks = Vec::new(alloc);
    let mut with_most = true;
    if let Some((entry, filling)) = widest(here, array, &values) {
        let with_bound = has_told_bound(here, &values, &filling);
        picks.push(Pick {
            entry,
            with_least: true,
            with_most: with_bound,
        })?;
        with_most = !(with_bound
            && values.least.is_some()
            && follows_from_bound(here, &values, &filling));
    }
    values.pick(true, with_most, &mut picks)?;
    add_line(picks, plan)
}
