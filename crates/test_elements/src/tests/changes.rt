//! What is so once names and elements got values, where values compare, and where ways meet.

use super::{A, I, N, NAMES, X, between, filled, judge, limits, named, number, state_of};
use ctd_candidates::{
    candidates_compared, candidates_hit, candidates_of_both, candidates_with_element,
    candidates_with_name,
};
use ctd_element_changes::{
    Target, facts_beside, facts_compared, facts_hit, facts_of_both, facts_with_element,
    facts_with_name,
};
use ctd_elements::{Block, Bound, Cell, Fact, Filling, Index, Keys, Limits, Side};
use ctd_limits::{as_limits, next_turn};
use ctd_program::Compare;
use std::test::Fail;

/// Below the counter and one more, elements have values, as at the end of a turn.
#[test]
fn a_counter_counts_on(rt: HostRuntime) -> Result<(), Fail> {
    let alloc = rt.alloc();
    let end = [
        filled(between(number(0), named(I, 1))),
        Fact::AtMost(named(I, 0), named(N, -1)),
    ];
    let next = next_turn(alloc, state_of(&end), I)?;
    let one_more = as_limits(&next);
    let candidates = candidates_with_name(alloc, state_of(&end), I, one_more)?;
    let after = facts_with_name(alloc, state_of(&end), candidates.as_slice(), b"i", one_more)?;
    let facts = after.as_slice();
    judge(
        &rt,
        facts,
        filled(between(number(0), named(I, 0))),
        true,
        "all so far",
    );
    judge(
        &rt,
        facts,
        filled(between(number(0), named(I, 1))),
        false,
        "the next one",
    );
    judge(
        &rt,
        facts,
        Fact::AtMost(named(I, 0), named(N, 0)),
        true,
        "up to the count",
    );
    judge(
        &rt,
        facts,
        Fact::AtMost(named(I, 0), named(N, -1)),
        false,
        "below the count",
    );
    Ok(())
}

#[test]
fn a_comparison_tells_of_the_counter(rt: HostRuntime) -> Result<(), Fail> {
    let alloc = rt.alloc();
    let counter = [named(I, 0)];
    let count = [named(N, 0)];
    let a = limits(&counter, &counter);
    let b = limits(&count, &count);
    let candidates = candidates_compared(alloc, a, b)?;
    let less = facts_compared(
        alloc,
        state_of(&[]),
        candidates.as_slice(),
        Compare::Less,
        a,
        b,
    )?;
    let below = Fact::AtMost(named(I, 1), named(N, 0));
    judge(&rt, less.as_slice(), below, true, "less");
    let at_most = facts_compared(
        alloc,
        state_of(&[]),
        candidates.as_slice(),
        Compare::AtMost,
        a,
        b,
    )?;
    judge(&rt, at_most.as_slice(), below, false, "at most");
    let equal = facts_compared(
        alloc,
        state_of(&[]),
        candidates.as_slice(),
        Compare::Equal,
        a,
        b,
    )?;
    let above = Fact::AtMost(named(N, 0), named(I, 0));
    judge(&rt, equal.as_slice(), above, true, "equal");
    Ok(())
}

/// What is known of the value of a name.
fn value_of<'l>(exact: usize, bounds: &'l [Bound]) -> Limits<'l> {
    Limits {
        exact: Some(Index::Number(named(exact, 0))),
        ..limits(bounds, bounds)
    }
}

#[test]
fn a_comparison_tells_that_numbers_differ(rt: HostRuntime) -> Result<(), Fail> {
    let alloc = rt.alloc();
    let counter = [named(I, 0)];
    let count = [named(N, 0)];
    let a = value_of(I, &counter);
    let b = value_of(N, &count);
    let candidates = candidates_compared(alloc, a, b)?;
    let differ = Fact::Unequal(named(I, 0), named(N, 0));
    let rows = [
        (Compare::Unequal, true, "unequal"),
        (Compare::Less, true, "less"),
        (Compare::Equal, false, "equal"),
        (Compare::AtMost, false, "at most"),
    ];
    for (by, wanted, cell) in rows {
        let facts = facts_compared(alloc, state_of(&[]), candidates.as_slice(), by, a, b)?;
        judge(&rt, facts.as_slice(), differ, wanted, cell);
    }
    Ok(())
}

/// The counter gets one more, or the count: of one more it differs by one more.
#[test]
fn numbers_that_differed(rt: HostRuntime) -> Result<(), Fail> {
    let alloc = rt.alloc();
    let before = [Fact::Unequal(named(I, 0), named(N, 0))];
    let state = state_of(&before);
    let more = Limits {
        exact: Some(Index::Number(named(I, 1))),
        ..limits(&[], &[])
    };
    let candidates = candidates_with_name(alloc, state, I, more)?;
    let after = facts_with_name(alloc, state, candidates.as_slice(), b"i", more)?;
    let moved = Fact::Unequal(named(I, 0), named(N, 1));
    judge(&rt, after.as_slice(), moved, true, "one more");
    judge(&rt, after.as_slice(), before[0], false, "as before");
    let count = [named(N, 0)];
    let same = value_of(N, &count);
    let others = candidates_with_name(alloc, state, I, same)?;
    let equal = facts_with_name(alloc, state, others.as_slice(), b"i", same)?;
    judge(&rt, equal.as_slice(), before[0], false, "the count");
    let free = facts_beside(alloc, &NAMES, &before, b"a")?;
    judge(&rt, free.as_slice(), before[0], true, "another name");
    let gone = facts_beside(alloc, &NAMES, &before, b"n")?;
    judge(&rt, gone.as_slice(), before[0], false, "its own name");
    Ok(())
}

#[test]
fn an_element_is_filled(rt: HostRuntime) -> Result<(), Fail> {
    let alloc = rt.alloc();
    let before = [filled(between(number(0), named(I, 0)))];
    let target = Target {
        array: A,
        cell: Some(Cell {
            first: Index::Number(named(I, 0)),
            second: None,
        }),
        source: None,
        is_free: true,
    };
    let value = limits(&[], &[]);
    let candidates = candidates_with_element(alloc, &before, target, None, value, &[])?;
    let after = facts_with_element(
        alloc,
        state_of(&before),
        candidates.as_slice(),
        target,
        value,
    )?;
    let facts = after.as_slice();
    judge(
        &rt,
        facts,
        filled(between(number(0), named(I, 1))),
        true,
        "one more",
    );
    judge(
        &rt,
        facts,
        filled(between(number(0), named(I, 2))),
        false,
        "two more",
    );
    Ok(())
}

#[test]
fn a_name_that_changes(rt: HostRuntime) -> Result<(), Fail> {
    let alloc = rt.alloc();
    let before = [
        filled(between(number(0), named(N, 0))),
        filled(between(named(I, 0), number(9))),
    ];
    let any = limits(&[], &[]);
    let after = facts_with_name(alloc, state_of(&before), &before, b"n", any)?;
    let facts = after.as_slice();
    judge(&rt, facts, before[0], false, "of the name");
    judge(&rt, facts, before[1], true, "of another");
    Ok(())
}

#[test]
fn a_name_that_is_forgotten(rt: HostRuntime) -> Result<(), Fail> {
    let alloc = rt.alloc();
    let before = [
        filled(between(number(0), named(N, 0))),
        Fact::AtMost(named(I, 0), named(N, 0)),
    ];
    let array = facts_beside(alloc, &NAMES, &before, b"a")?;
    judge(&rt, array.as_slice(), before[0], false, "its elements");
    judge(&rt, array.as_slice(), before[1], true, "an order of others");
    let other = facts_beside(alloc, &NAMES, &before, b"x")?;
    judge(
        &rt,
        other.as_slice(),
        before[0],
        true,
        "elements of another",
    );
    Ok(())
}

#[test]
fn ways_meet(rt: HostRuntime) -> Result<(), Fail> {
    let alloc = rt.alloc();
    let one = [filled(between(number(0), number(5)))];
    let other = [filled(between(number(0), number(3)))];
    let candidates = candidates_of_both(alloc, &one, &other)?;
    let both = facts_of_both(
        alloc,
        state_of(&one),
        state_of(&other),
        candidates.as_slice(),
    )?;
    judge(&rt, both.as_slice(), other[0], true, "what both have");
    judge(&rt, both.as_slice(), one[0], false, "what one has");
    let unknown = Fact::AtMost(named(X, 0), number(0));
    judge(
        &rt,
        both.as_slice(),
        unknown,
        true,
        "of a name with no number",
    );
    Ok(())
}

/// Where a number is a value of `a`, and each of these is an index at which `x` has a value, `x` has one at the number.
#[test]
fn a_number_that_is_found(rt: HostRuntime) -> Result<(), Fail> {
    let alloc = rt.alloc();
    let before = [Fact::ValuesAreKeys(Keys {
        array: A,
        other: X,
        except: None,
    })];
    let count = Index::Number(named(N, 0));
    let value = Limits {
        exact: Some(count),
        ..limits(&[], &[])
    };
    let candidates = candidates_hit(alloc, &before, value, A)?;
    let after = facts_hit(alloc, state_of(&before), candidates.as_slice(), value, A)?;
    let own = Fact::Filled(Filling {
        array: X,
        block: Block {
            first: Side::At(count),
            second: None,
        },
        most: None,
    });
    judge(&rt, &before, own, false, "before");
    judge(&rt, after.as_slice(), own, true, "where it is found");
    Ok(())
}
