//! A loop in a loop: `REPI(i,n) REPI(x,n) INT(0,n,a[i,x]) END END`.

use super::loops::{
    Counter, ROW, begin_first, begin_later, context, is_first_turn, leave, numbers, start,
};
use super::{A, N, X, between, limits, named, number};
use ctd_elements::{Cell, Index, is_filled};
use ctd_partitions::{
    Position, State, are_within, assign_element, join_partitions, view_of, widen_partition,
};
use ctd_states::Stop;
use std::alloc::Global;
use std::test::Fail;

/// The counter `x`.
const COLUMN: Counter = Counter {
    index: X,
    name: b"x",
};

/// The states once the element of both counters got a number from 0 to the count.
fn fill(alloc: Global, states: &[State]) -> Result<Vec<State>, Stop> {
    let cell = Some(Cell {
        first: Index::Number(named(ROW.index, 0)),
        second: Some(Index::Number(named(COLUMN.index, 0))),
    });
    let zero = [number(0)];
    let count = [named(N, 0), number(1000)];
    let known = limits(&zero, &count);
    let possible = numbers(0, 1000);
    let mut after = Vec::new(alloc);
    for state in states {
        let first = if is_first_turn(state, COLUMN) {
            Some(0)
        } else {
            None
        };
        let at = Position {
            cell,
            source: None,
            number: first,
        };
        let filled = assign_element(context(alloc), state, b"a", at, possible, known)?;
        after.push(filled)?;
    }
    Ok(after)
}

/// The states at the end of a turn of the inner loop, which begins from some states, or from a candidate in a later turn.
fn inner_turn(alloc: Global, before: &[State], candidate: &[State]) -> Result<Vec<State>, Stop> {
    let first = begin_first(alloc, before, COLUMN)?;
    let later = begin_later(alloc, candidate, COLUMN)?;
    let all = join_partitions(context(alloc), first, later.as_slice())?;
    fill(alloc, all.as_slice())
}

/// The states behind the inner loop.
fn behind_inner(alloc: Global, before: &[State]) -> Result<Vec<State>, Stop> {
    let mut candidate = Vec::new(alloc);
    for round in 0..10 {
        let end = inner_turn(alloc, before, candidate.as_slice())?;
        if are_within(context(alloc), end.as_slice(), candidate.as_slice()) {
            return leave(alloc, candidate.as_slice(), COLUMN);
        }
        candidate = widen_partition(context(alloc), candidate.as_slice(), end.as_slice(), round)?;
    }
    Err(Stop::GaveUp)
}

/// The states at the end of a turn of the outer loop, which begins in the first turn, or from a candidate in a later turn.
fn outer_turn(alloc: Global, candidate: &[State]) -> Result<Vec<State>, Stop> {
    let mut starts = Vec::new(alloc);
    starts.push(start(alloc)?)?;
    let first = begin_first(alloc, starts.as_slice(), ROW)?;
    let later = begin_later(alloc, candidate, ROW)?;
    let all = join_partitions(context(alloc), first, later.as_slice())?;
    behind_inner(alloc, all.as_slice())
}

/// The states behind the outer loop.
fn behind_outer(alloc: Global) -> Result<Vec<State>, Stop> {
    let mut candidate = Vec::new(alloc);
    for round in 0..10 {
        let end = outer_turn(alloc, candidate.as_slice())?;
        if are_within(context(alloc), end.as_slice(), candidate.as_slice()) {
            return leave(alloc, candidate.as_slice(), ROW);
        }
        candidate = widen_partition(context(alloc), candidate.as_slice(), end.as_slice(), round)?;
    }
    Err(Stop::GaveUp)
}

#[test]
fn a_loop_in_a_loop_fills_a_grid(rt: HostRuntime) -> Result<(), Fail> {
    let alloc = rt.alloc();
    let states = match behind_outer(alloc) {
        Ok(states) => states,
        Err(_) => panic!(&rt; "given up"),
    };
    let zero = [number(0)];
    let last = [named(N, -1)];
    let count = [named(N, 0)];
    let inside = limits(&zero, &last);
    let outside = limits(&zero, &count);
    if states.is_empty() {
        panic!(&rt; "no run comes behind the loop");
    }
    for state in states.as_slice() {
        let view = view_of(context(alloc), state);
        if !is_filled(view, A, inside, Some(inside)) {
            panic!(&rt; "up to the last");
        }
        if is_filled(view, A, outside, Some(inside)) {
            panic!(&rt; "behind the last row");
        }
        if is_filled(view, A, inside, Some(outside)) {
            panic!(&rt; "behind the last column");
        }
    }
    Ok(())
}
