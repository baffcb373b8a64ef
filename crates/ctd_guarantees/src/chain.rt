//! Lines of one name, and of names in a chain: `1 <= from < to <= n`.

use crate::here::{Here, Values};
use crate::names::NameSet;
use crate::order::Order;
use crate::part::Pick;
use std::alloc::{AllocError, Global};

/// All that an entry says.
pub(crate) fn whole(entry: usize) -> Pick {
    Pick {
        entry,
        with_least: true,
        with_most: true,
    }
}

/// Adds a line, unless nothing is picked for it.
pub(crate) fn add_line(picks: Vec<Pick>, plan: &mut Vec<Vec<Pick>>) -> Result<(), AllocError> {
    if !picks.is_empty() {
        plan.push(picks)?;
    }
    Ok(())
}

/// The order the other way round, if the two say that two names are equal but for a number.
fn converse(order: &Order, orders: &[Order]) -> Option<Order> {
    for other in orders {
        if other.low == order.high
            && other.high == order.low
            && other.gap.saturating_add(order.gap) == 0
        {
            return Some(*other);
        }
    }
    None
}

/// The link of a chain that leads from a name.
fn next_link(links: &[Order], name: usize) -> Option<Order> {
    for link in links {
        if link.low == name {
            return Some(*link);
        }
    }
    None
}

/// A link that leads to a name.
fn link_to(links: &[Order], name: usize) -> Option<Order> {
    for link in links {
        if link.high == name {
            return Some(*link);
        }
    }
    None
}

/// Whether an order may be one more link: at most one leads from each name of the scope, and from a name of a block around only to one to which no other
/// leads.
fn is_link(here: &Here<'_>, orders: &[Order], links: &[Order], order: &Order) -> bool {
    (order.gap == 0 || order.gap == 1)
        && converse(order, orders).is_none()
        && if here.own.has(order.low) {
            next_link(links, order.low).is_none()
        } else {
            link_to(links, order.high).is_none()
        }
}

/// The links of chains: first those between the scope's own names, and then those with a name of a block around.
fn links_of(alloc: Global, here: &Here<'_>, orders: &[Order]) -> Result<Vec<Order>, AllocError> {
    let mut links: Vec<Order> = Vec::new(alloc);
    for order in orders {
        if here.own.has(order.low)
            && here.own.has(order.high)
            && is_link(here, orders, links.as_slice(), order)
        {
            links.push(*order)?;
        }
    }
    for order in orders {
        if (!here.own.has(order.low) || !here.own.has(order.high))
            && is_link(here, orders, links.as_slice(), order)
        {
            links.push(*order)?;
        }
    }
    Ok(links)
}

/// Whether an end is another but for a number.
fn is_moved(end: Option<i128>, by: i128, other: Option<i128>) -> bool {
    match (end, other) {
        (Some(n), Some(m)) => n.saturating_add(by) == m,
        (None, None) => true,
        _ => false,
    }
}

/// Whether a name in no chain is another but for a number, of which the same ends are told.
fn is_same_as_told(
    here: &Here<'_>,
    orders: &[Order],
    links: &[Order],
    done: &NameSet,
    name: usize,
) -> bool {
    if next_link(links, name).is_some() || link_to(links, name).is_some() {
        return false;
    }
    for order in orders {
        if order.low == name
            && (done.has(order.high) || !here.own.has(order.high))
            && converse(order, orders).is_some()
        {
            if let (Some(values), Some(other)) = (here.number(name), here.number(order.high)) {
                if is_moved(values.least, order.gap, other.least)
                    && is_moved(values.most, order.gap, other.most)
                {
                    return true;
                }
            }
        }
    }
    false
}

/// Picks where a chain begins, at a name of a block around or at the least number of its first name, and says whether its end is left to be told.
fn pick_begin(
    here: &Here<'_>,
    links: &[Order],
    first: usize,
    picks: &mut Vec<Pick>,
) -> Result<bool, AllocError> {
    if let Some(link) = link_to(links, first) {
        if !here.own.has(link.low) {
            picks.push(whole(link.entry))?;
            return Ok(true);
        }
    }
    let has_next = next_link(links, first).is_some();
    if let Some(values) = here.alone(first) {
        values.pick(true, !has_next, picks)?;
    }
    Ok(has_next)
}

/// Adds the line of a chain from its first name: where it begins, its links up to a name of a block around or one that is told already, and else the
/// most number of its last name.
fn add_chain(
    alloc: Global,
    here: &Here<'_>,
    links: &[Order],
    first: usize,
    done: &mut NameSet,
    plan: &mut Vec<Vec<Pick>>,
) -> Result<(), AllocError> {
    let mut picks = Vec::new(alloc);
    let mut is_open = pick_begin(here, links, first, &mut picks)?;
    done.add(first);
    let mut last = first;
    for _ in links {
        if is_open {
            if let Some(link) = next_link(links, last) {
                picks.push(whole(link.entry))?;
                last = link.high;
                is_open = here.own.has(last) && done.add(last);
            }
        }
    }
    if is_open {
        if let Some(values) = here.number(last) {
            values.pick(false, true, &mut picks)?;
        }
    }
    add_line(picks, plan)
}

/// Whether the most of a name says more than the link that leads from it, if there is one.
fn has_own_most(here: &Here<'_>, links: &[Order], name: usize, values: &Values) -> bool {
    let Some(link) = next_link(links, name) else {
        return false;
    };
    let limit = here.number(link.high).and_then(|next| next.most);
    match (values.most, limit) {
        (Some(most), Some(limit)) => most < limit.saturating_sub(link.gap),
        _ => true,
    }
}

/// Whether the least of a name says more than each link that leads to it, if there is one.
fn has_own_least(here: &Here<'_>, links: &[Order], name: usize, values: &Values) -> bool {
    for link in links {
        if link.high == name {
            let limit = here.number(link.low).and_then(|before| before.least);
            if let (Some(least), Some(limit)) = (values.least, limit) {
                if least <= limit.saturating_add(link.gap) {
                    return false;
                }
            }
        }
    }
    link_to(links, name).is_some()
}

/// Adds the ends of the range of a name in a chain that the chain does not tell.
fn add_ends(
    alloc: Global,
    here: &Here<'_>,
    links: &[Order],
    name: usize,
    plan: &mut Vec<Vec<Pick>>,
) -> Result<(), AllocError> {
    let Some(values) = here.number(name) else {
        return Ok(());
    };
    let with_least = has_own_least(here, links, name, &values);
    let with_most = has_own_most(here, links, name, &values);
    let mut picks = Vec::new(alloc);
    values.pick(with_least, with_most, &mut picks)?;
    add_line(picks, plan)
}

/// Adds an order that is no link: with its converse, if it has one.
fn add_order(
    alloc: Global,
    orders: &[Order],
    links: &[Order],
    order: &Order,
    plan: &mut Vec<Vec<Pick>>,
) -> Result<(), AllocError> {
    for link in links {
        if link.entry == order.entry {
            return Ok(());
        }
    }
    let mut picks = Vec::new(alloc);
    picks.push(whole(order.entry))?;
    if let Some(other) = converse(order, orders) {
        if other.entry < order.entry {
            return Ok(());
        }
        picks.push(whole(other.entry))?;
    }
    add_line(picks, plan)
}

/// Whether no link leads to a name from another name of the scope.
fn begins_chain(here: &Here<'_>, links: &[Order], name: usize) -> bool {
    for link in links {
        if link.high == name && here.own.has(link.low) {
            return false;
        }
    }
    true
}

/// Adds the lines of the scope's names without indices: chains, ends of ranges that these do not tell, and other orders.
pub(crate) fn add_names(
    alloc: Global,
    here: &Here<'_>,
    count: usize,
    orders: &[Order],
    plan: &mut Vec<Vec<Pick>>,
) -> Result<(), AllocError> {
    let links = links_of(alloc, here, orders)?;
    let links = links.as_slice();
    let mut done = NameSet::none_of(alloc, count)?;
    for name in here.names {
        if here.own.has(*name) {
            if is_same_as_told(here, orders, links, &done, *name) {
                done.add(*name);
            } else if begins_chain(here, links, *name) {
                add_chain(alloc, here, links, *name, &mut done, plan)?;
            }
            add_ends(alloc, here, links, *name, plan)?;
        }
    }
    // those that are left are in circles
    for name in here.names {
        if here.own.has(*name) && !done.has(*name) {
            add_chain(alloc, here, links, *name, &mut done, plan)?;
        }
    }
    for order in orders {
        add_order(alloc, orders, links, order, plan)?;
    }
    Ok(())
}
