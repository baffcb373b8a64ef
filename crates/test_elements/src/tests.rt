//! States with an array `a`, a counter `i` from 0 to 999, a count `n` from 1 to 1000, and a name `x` of which nothing is known. What follows there was
//! worked out by hand.

mod changes;
mod following;
mod grids;
mod loops;
mod reading;

use ctd_elements::{
    AbstractState, Block, Bound, Fact, Filling, Interval, Limits, Side, Term, follows,
};
use ctd_range::Range;
use ctd_states::{AbstractValue, PossibleValues};
use std::process::Abort;

/// The names, and their indices.
const NAMES: [&[u8]; 4] = [b"a", b"i", b"n", b"x"];

const A: usize = 0;

const I: usize = 1;

const N: usize = 2;

const X: usize = 3;

/// No value.
const NO_VALUE: PossibleValues = PossibleValues {
    text: None,
    number: None,
};

/// The abstract values of the names.
const ENTRIES: [AbstractValue; 4] = [
    AbstractValue {
        may_lack: true,
        alone: NO_VALUE,
        elements: PossibleValues {
            text: None,
            number: Some(Range {
                low: 0,
                high: 5000,
                rise: 0,
                fall: 0,
            }),
        },
    },
    AbstractValue {
        may_lack: false,
        alone: PossibleValues {
            text: None,
            number: Some(Range {
                low: 0,
                high: 999,
                rise: 0,
                fall: 0,
            }),
        },
        elements: NO_VALUE,
    },
    AbstractValue {
        may_lack: false,
        alone: PossibleValues {
            text: None,
            number: Some(Range {
                low: 1,
                high: 1000,
                rise: 0,
                fall: 0,
            }),
        },
        elements: NO_VALUE,
    },
    AbstractValue {
        may_lack: true,
        alone: NO_VALUE,
        elements: NO_VALUE,
    },
];

/// The state with some facts.
fn state_of<'s>(facts: &'s [Fact]) -> AbstractState<'s> {
    AbstractState {
        names: &NAMES,
        entries: &ENTRIES,
        facts,
    }
}

/// A number.
fn number(add: i64) -> Bound {
    Bound { term: None, add }
}

/// A multiple of the number of a name, with one added.
fn multiple(times: u32, name: usize, add: i64) -> Bound {
    Bound {
        term: Some(Term { name, times }),
        add,
    }
}

/// The number of a name, with one added.
fn named(name: usize, add: i64) -> Bound {
    multiple(1, name, add)
}

/// The numbers from one bound up to another.
fn between(low: Bound, high: Bound) -> Side {
    Side::Between(Interval { low, high })
}

/// The elements of `a` on a side have values.
fn filled(first: Side) -> Fact {
    Fact::Filled(Filling {
        array: A,
        block: Block {
            first,
            second: None,
        },
        most: None,
    })
}

/// That a fact follows from others, or that it does not.
fn judge(rt: &impl Abort, facts: &[Fact], fact: Fact, wanted: bool, cell: &str) {
    if follows(state_of(facts), fact) != wanted {
        panic!(rt; "{cell}");
    }
}

/// What is known of a value by bounds alone.
fn limits<'l>(lows: &'l [Bound], highs: &'l [Bound]) -> Limits<'l> {
    Limits {
        exact: None,
        lows,
        highs,
        source: None,
    }
}
