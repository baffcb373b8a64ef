//! Which lines are told at the end of a scope.

use crate::array::add_array;
use crate::chain::{add_line, add_names, whole};
use crate::here::Here;
use crate::names::NameSet;
use crate::order::{Order, name_in, orders_of};
use crate::part::Pick;
use crate::scope::{Scope, near_names};
use crate::told::ToldNames;
use ctd_elements::Fact;
use ctd_traps::Known;
use std::alloc::{AllocError, Global};

/// Those of some names that are told.
fn told_among(
    alloc: Global,
    told: &NameSet,
    count: usize,
    names: &[usize],
) -> Result<NameSet, AllocError> {
    let mut own = NameSet::none_of(alloc, count)?;
    for name in names {
        if told.has(*name) {
            own.add(*name);
        }
    }
    Ok(own)
}

/// Whether two names are in an order with a gap between them.
fn are_apart(orders: &[Order], a: usize, b: usize) -> bool {
    for order in orders {
        if order.gap >= 1
            && (order.low == a && order.high == b || order.low == b && order.high == a)
        {
            return true;
        }
    }
    false
}

/// The two names that an entry says to differ.
fn unequal_names(known: &Known) -> Option<(usize, usize)> {
    match known {
        Known::Beside(Fact::Unequal(a, b)) if a.add == b.add => Some((name_in(a)?, name_in(b)?)),
        _ => None,
    }
}

/// Adds a line for each two names that differ, of which one is the scope's own, where no order tells it.
fn add_unequal(
    alloc: Global,
    here: &Here<'_>,
    orders: &[Order],
    plan: &mut Vec<Vec<Pick>>,
) -> Result<(), AllocError> {
    for (entry, one) in here.known.iter().enumerate() {
        if let Some((a, b)) = unequal_names(one) {
            if here.near.has(a)
                && here.near.has(b)
                && (here.own.has(a) || here.own.has(b))
                && !are_apart(orders, a, b)
            {
                let mut picks = Vec::new(alloc);
                picks.push(whole(entry))?;
                add_line(picks, plan)?;
            }
        }
    }
    Ok(())
}

/// The plan of the lines of the scope at an index, by what is known at its end.
pub(crate) fn plan_of(
    alloc: Global,
    names: &ToldNames,
    count: usize,
    scopes: &[Scope],
    index: usize,
    known: &[Known],
) -> Result<Vec<Vec<Pick>>, AllocError> {
    let mut plan = Vec::new(alloc);
    let Some(scope) = scopes.get(index) else {
        return Ok(plan);
    };
    let own_names = scope.names.as_slice();
    let own = told_among(alloc, &names.told, count, own_names)?;
    let near = near_names(alloc, &names.told, count, scopes, index)?;
    let here = Here::new(alloc, known, count, own_names, own, near)?;
    let orders = orders_of(alloc, &here, &names.read)?;
    add_names(alloc, &here, count, orders.as_slice(), &mut plan)?;
    add_unequal(alloc, &here, orders.as_slice(), &mut plan)?;
    for array in scope.arrays.as_slice() {
        if names.told.has(*array) {
            add_array(alloc, &here, *array, &mut plan)?;
        }
    }
    Ok(plan)
}
