//! A whole loop: `REPI(i,n) INT(0,n,a[i]) INT(0,n,x[i]) END`, from a state in which `a` and `x` have no elements to what is read behind it.

use super::{A, I, N, NAMES, NO_VALUE, X, between, limits, named, number};
use ctd_element_changes::have_one_shape;
use ctd_elements::{Block, Bound, Cell, Fact, Filling, Index, follows, is_filled};
use ctd_limits::{as_limits, limits_of_number, next_turn};
use ctd_partitions::{
    Position, State, are_within, assign_alone, assign_element, compared, join_partitions, view_of,
    widen_partition,
};
use ctd_program::Compare;
use ctd_range::Range;
use ctd_states::{AbstractValue, Context, Pair, PossibleValues, Stop, copy_of};
use std::alloc::Global;
use std::test::Fail;

/// The numbers from one to another.
pub(super) fn numbers(low: i128, high: i128) -> PossibleValues {
    PossibleValues {
        text: None,
        number: Some(Range {
            low,
            high,
            rise: 0,
            fall: 0,
        }),
    }
}

/// No pins.
const FREE: [AbstractValue; 4] = [AbstractValue {
    may_lack: true,
    alone: NO_VALUE,
    elements: NO_VALUE,
}; 4];

/// The arrays of which UNIQUE asks whether they have values at the same indices.
const PAIRS: [Pair; 2] = [Pair { array: A, other: X }, Pair { array: X, other: A }];

/// Memory, the names, no pins, and these pairs.
pub(super) fn context(alloc: Global) -> Context<'static> {
    Context {
        alloc,
        names: &NAMES,
        pinned: &FREE,
        pairs: &PAIRS,
    }
}

/// A state in which only the count has a value.
pub(super) fn start(alloc: Global) -> Result<State, Stop> {
    let mut entries = copy_of(alloc, &FREE)?;
    entries[N] = AbstractValue {
        may_lack: false,
        alone: numbers(1, 1000),
        elements: NO_VALUE,
    };
    Ok(State {
        entries,
        facts: Vec::new(alloc),
    })
}

/// A counter from 0 up to the count.
#[derive(Clone, Copy)]
pub(super) struct Counter {
    pub(super) index: usize,
    pub(super) name: &'static [u8],
}

/// The counter `i`.
pub(super) const ROW: Counter = Counter {
    index: I,
    name: b"i",
};

/// The states where a counter compares so with the count.
pub(super) fn compared_states(
    alloc: Global,
    states: &[State],
    counter: Counter,
    by: Compare,
) -> Result<Vec<State>, Stop> {
    let own = [named(counter.index, 0)];
    let count = [named(N, 0)];
    let a = limits(&own, &own);
    let b = limits(&count, &count);
    let mut after = Vec::new(alloc);
    for state in states {
        after.push(compared(context(alloc), state, by, a, b)?)?;
    }
    Ok(after)
}

/// The states in which the first turn begins.
pub(super) fn begin_first(
    alloc: Global,
    states: &[State],
    counter: Counter,
) -> Result<Vec<State>, Stop> {
    let zero = limits_of_number(alloc, 0)?;
    let limits = as_limits(&zero);
    let mut after = Vec::new(alloc);
    for state in states {
        let possible = numbers(0, 0);
        after.push(assign_alone(context(alloc), state, counter.name, possible, limits)?)?;
    }
    compared_states(alloc, after.as_slice(), counter, Compare::Less)
}

/// The states once a counter got the number of a later turn, up to a greatest one.
pub(super) fn count_on(
    alloc: Global,
    states: &[State],
    counter: Counter,
    most: i128,
) -> Result<Vec<State>, Stop> {
    let mut after = Vec::new(alloc);
    for state in states {
        let next = next_turn(alloc, view_of(context(alloc), state), counter.index)?;
        let limits = as_limits(&next);
        let possible = numbers(1, most);
        after.push(assign_alone(context(alloc), state, counter.name, possible, limits)?)?;
    }
    Ok(after)
}

/// The states in which a later turn begins.
pub(super) fn begin_later(
    alloc: Global,
    states: &[State],
    counter: Counter,
) -> Result<Vec<State>, Stop> {
    let after = count_on(alloc, states, counter, 999)?;
    compared_states(alloc, after.as_slice(), counter, Compare::Less)
}

/// The states behind a loop, where the counter is the count, from those at the end of each turn.
pub(super) fn leave(alloc: Global, states: &[State], counter: Counter) -> Result<Vec<State>, Stop> {
    let after = count_on(alloc, states, counter, 1000)?;
    compared_states(alloc, after.as_slice(), counter, Compare::Equal)
}

/// Whether a counter is 0.
pub(super) fn is_first_turn(state: &State, counter: Counter) -> bool {
    match state.entries.as_slice().get(counter.index) {
        Some(entry) => match entry.alone.number {
            Some(range) => range.high == 0,
            None => false,
        },
        None => false,
    }
}

/// The state once the element at the counter of an array got a number from 0 to the count.
fn put(alloc: Global, state: &State, array: &[u8]) -> Result<State, Stop> {
    let cell = Some(Cell {
        first: Index::Number(named(I, 0)),
        second: None,
    });
    let first = if is_first_turn(state, ROW) {
        Some(0)
    } else {
        None
    };
    let at = Position {
        cell,
        source: None,
        number: first,
    };
    let zero = [number(0)];
    let count = [named(N, 0), number(1000)];
    let known = limits(&zero, &count);
    let possible = numbers(0, 1000);
    assign_element(context(alloc), state, array, at, possible, known)
}

/// The states once an element of each array got a number.
fn fill(alloc: Global, states: &[State]) -> Result<Vec<State>, Stop> {
    let mut after = Vec::new(alloc);
    for state in states {
        let between = put(alloc, state, b"a")?;
        after.push(put(alloc, &between, b"x")?)?;
    }
    Ok(after)
}

/// The states at the end of a turn that begins in the first turn or in a later one, which begins from a candidate.
fn turn(alloc: Global, candidate: &[State]) -> Result<Vec<State>, Stop> {
    let mut starts = Vec::new(alloc);
    starts.push(start(alloc)?)?;
    let first = begin_first(alloc, starts.as_slice(), ROW)?;
    let later = begin_later(alloc, candidate, ROW)?;
    let before = join_partitions(context(alloc), first, later.as_slice())?;
    fill(alloc, before.as_slice())
}

/// The states behind the loop, if those at the end of each turn are found within ten rounds.
fn behind(alloc: Global) -> Result<Vec<State>, Stop> {
    let mut candidate = Vec::new(alloc);
    for round in 0..10 {
        let end = turn(alloc, candidate.as_slice())?;
        if are_within(context(alloc), end.as_slice(), candidate.as_slice()) {
            return leave(alloc, candidate.as_slice(), ROW);
        }
        candidate = widen_partition(context(alloc), candidate.as_slice(), end.as_slice(), round)?;
    }
    Err(Stop::GaveUp)
}

/// All elements below the count are numbers of at most a bound.
fn all_up_to(most: Bound) -> Fact {
    Fact::Filled(Filling {
        array: A,
        block: Block {
            first: between(number(0), named(N, 0)),
            second: None,
        },
        most: Some(most),
    })
}

#[test]
fn a_loop_fills_two_arrays(rt: HostRuntime) -> Result<(), Fail> {
    let alloc = rt.alloc();
    let states = match behind(alloc) {
        Ok(states) => states,
        Err(_) => panic!(&rt; "given up"),
    };
    let zero = [number(0)];
    let last = [named(N, -1)];
    let count = [named(N, 0)];
    if states.is_empty() {
        panic!(&rt; "no run comes behind the loop");
    }
    for state in states.as_slice() {
        let view = view_of(context(alloc), state);
        if !is_filled(view, A, limits(&zero, &last), None) {
            panic!(&rt; "up to the last");
        }
        if is_filled(view, A, limits(&zero, &count), None) {
            panic!(&rt; "behind the last");
        }
        if !follows(view, all_up_to(named(N, 0))) {
            panic!(&rt; "the greatest value");
        }
        if follows(view, all_up_to(named(N, -1))) {
            panic!(&rt; "less than the greatest value");
        }
        if !have_one_shape(view, A, X) {
            panic!(&rt; "one shape");
        }
        if have_one_shape(view, A, N) {
            panic!(&rt; "the shape of a number");
        }
    }
    Ok(())
}
