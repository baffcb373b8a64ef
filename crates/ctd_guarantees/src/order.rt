//! Which numbers are known to be at most which.

use crate::here::Here;
use crate::names::NameSet;
use ctd_elements::{Bound, Fact};
use ctd_traps::Known;
use std::alloc::{AllocError, Global};

/// Two names without indices, of which one is at most the other, with at least a gap between them.
#[derive(Clone, Copy)]
pub(crate) struct Order {
    pub(crate) entry: usize,
    pub(crate) low: usize,
    pub(crate) high: usize,
    pub(crate) gap: i128,
}

/// The name that a bound adds to, if it is one name alone.
pub(crate) fn name_in(bound: &Bound) -> Option<usize> {
    match &bound.term {
        Some(term) if term.times == 1 => Some(term.name),
        _ => None,
    }
}

/// The order of two names that is known by an entry.
fn order_of(entry: usize, known: &Known) -> Option<Order> {
    match known {
        Known::Beside(Fact::AtMost(a, b)) => Some(Order {
            entry,
            low: name_in(a)?,
            high: name_in(b)?,
            gap: i128::from(a.add).saturating_sub(i128::from(b.add)),
        }),
        _ => None,
    }
}

/// Whether an order is of two numbers that may be told here, and does not follow from their ranges.
fn says_more(here: &Here<'_>, order: &Order) -> bool {
    if !here.near.has(order.low) || !here.near.has(order.high) {
        return false;
    }
    match (here.number(order.low), here.number(order.high)) {
        (Some(low), Some(high)) => match (low.most, high.least) {
            (Some(most), Some(least)) => most.saturating_add(order.gap) > least,
            _ => true,
        },
        _ => false,
    }
}

/// Whether an order follows from a first one and one of others.
fn is_bridged(order: &Order, first: &Order, others: &[Order]) -> bool {
    for second in others {
        if first.high == second.low
            && second.high == order.high
            && first.gap.saturating_add(second.gap) >= order.gap
        {
            return true;
        }
    }
    false
}

/// Whether an order follows from one of some and one of these or of others.
fn follows_by(order: &Order, firsts: &[Order], others: &[Order]) -> bool {
    for first in firsts {
        if first.low == order.low
            && (is_bridged(order, first, firsts) || is_bridged(order, first, others))
        {
            return true;
        }
    }
    false
}

/// Some orders without those that follow from two of the others.
fn without_bridged(alloc: Global, orders: &[Order]) -> Result<Vec<Order>, AllocError> {
    let mut kept: Vec<Order> = Vec::new(alloc);
    for (i, order) in orders.iter().enumerate() {
        let rest = &orders[i + 1..];
        if !follows_by(order, kept.as_slice(), rest) && !follows_by(order, rest, kept.as_slice()) {
            kept.push(*order)?;
        }
    }
    Ok(kept)
}

/// Whether an order is of a number that is read and one that the scope computes later, as a sum of those so far, or the last.
fn is_of_later(here: &Here<'_>, read: &NameSet, order: &Order) -> bool {
    if read.has(order.low) == read.has(order.high) {
        return false;
    }
    for name in here.names {
        if *name == order.low || *name == order.high {
            return read.has(*name) && here.own.has(order.low) && here.own.has(order.high);
        }
    }
    false
}

/// Whether an order is told of a scope: one of its numbers is the scope's own, and if the gap is none of a chain, both are read.
fn is_wanted(here: &Here<'_>, read: &NameSet, order: &Order) -> bool {
    let is_own = here.own.has(order.low) || here.own.has(order.high);
    let is_close = order.gap == 0 || order.gap == 1;
    let are_read = read.has(order.low) && read.has(order.high);
    is_own && (is_close || are_read) && !is_of_later(here, read, order)
}

/// The orders that are told. What follows from ranges or from two other orders is left out.
pub(crate) fn orders_of(
    alloc: Global,
    here: &Here<'_>,
    read: &NameSet,
) -> Result<Vec<Order>, AllocError> {
    let mut all = Vec::new(alloc);
    for (entry, one) in here.known.iter().enumerate() {
        if let Some(order) = order_of(entry, one) {
            if says_more(here, &order) {
                all.push(order)?;
            }
        }
    }
    let kept = without_bridged(alloc, all.as_slice())?;
    let mut told = Vec::new(alloc);
    for order in kept.as_slice() {
        if is_wanted(here, read, order) {
            told.push(*order)?;
        }
    }
    Ok(told)
}
