//! Which elements have values where they are read, and what is known of the values of expressions.

use super::loops::context;
use super::{A, ENTRIES, I, N, between, filled, limits, multiple, named, number, state_of};
use ctd_elements::{Bound, Fact, is_filled, is_up_to};
use ctd_limits::as_limits;
use ctd_partitions::State;
use ctd_program::Action;
use ctd_syntax::parse;
use ctd_transfer::{Evaluation, evaluate};
use std::alloc::Global;
use std::process::Abort;
use std::test::Fail;

#[test]
fn elements_that_are_read(rt: HostRuntime) {
    let facts = [filled(between(number(0), named(N, 0)))];
    let state = state_of(&facts);
    let zero = [number(0)];
    let last = [named(N, -1)];
    let count = [named(N, 0)];
    let negative = [number(-1)];
    if !is_filled(state, A, limits(&zero, &last), None) {
        panic!(&rt; "up to the last");
    }
    if is_filled(state, A, limits(&zero, &count), None) {
        panic!(&rt; "behind the last");
    }
    if is_filled(state, A, limits(&negative, &last), None) {
        panic!(&rt; "before the first");
    }
    if is_filled(state, I, limits(&zero, &last), None) {
        panic!(&rt; "another array");
    }
}

/// What the value of the first assignment of a text may be.
fn assigned_value(
    rt: &impl Abort,
    alloc: Global,
    facts: &[Fact],
    text: &str,
) -> Result<Evaluation, Fail> {
    let state = State {
        entries: ENTRIES.to_vec(alloc)?,
        facts: facts.to_vec(alloc)?,
    };
    let program = parse(alloc, text.as_bytes())?;
    for command in program.commands() {
        if let Action::Set(assignments) = &command.action {
            for a in assignments.as_slice() {
                match evaluate(&a.value, context(alloc), &state) {
                    Ok(value) => return Ok(value),
                    Err(_) => panic!(rt; "given up"),
                }
            }
        }
    }
    panic!(rt; "no assignment")
}

#[test]
fn bounds_of_expressions(rt: HostRuntime) -> Result<(), Fail> {
    let alloc = rt.alloc();
    let facts = [Fact::AtMost(named(I, 0), named(N, -1))];
    let rows = [
        ("SET(x=7)", number(7), true),
        ("SET(x=7)", number(6), false),
        ("SET(x=i+1)", named(N, 0), true),
        ("SET(x=i+2)", named(N, 0), false),
        ("SET(x=2*i+1)", multiple(2, N, -1), true),
        ("SET(x=2*i+1)", multiple(2, N, -2), false),
        ("SET(x=i+n)", multiple(2, N, -1), true),
        ("SET(x=n-1-i)", named(N, -1), true),
        ("SET(x=n-1-i)", named(N, -2), false),
        ("SET(x=i%n)", named(N, -1), true),
        ("SET(x=i/2)", named(N, -1), true),
        ("SET(x=i/2)", named(N, -2), false),
    ];
    for (text, most, wanted) in rows {
        let value = assigned_value(&rt, alloc, &facts, text)?;
        if is_up_to(state_of(&facts), as_limits(&value.limits), most) != wanted {
            panic!(&rt; "{text}");
        }
    }
    Ok(())
}

#[test]
fn divisors_that_are_not_zero(rt: HostRuntime) -> Result<(), Fail> {
    let alloc = rt.alloc();
    let facts = [
        Fact::Unequal(named(I, 0), named(N, 0)),
        Fact::Unequal(named(I, 0), number(0)),
    ];
    let rows = [
        ("SET(x=9/(i-n))", false),
        ("SET(x=9%(n-i))", false),
        ("SET(x=9/((i+1)-(n+1)))", false),
        ("SET(x=9/i)", false),
        ("SET(x=9/(i-n-1))", true),
        ("SET(x=9/(i-1))", true),
        ("SET(x=(9/(i-1))/(i-n))", true),
        ("SET(x=9/(9/(i-1)-9/(i-2)))", true),
    ];
    for (text, wanted) in rows {
        let value = assigned_value(&rt, alloc, &facts, text)?;
        if value.found.faults.division_by_zero != wanted {
            panic!(&rt; "{text}");
        }
    }
    Ok(())
}
