//! The states where a test is true, and those where it is false.

ghost use Rattle.std.specs.Prelude.{IfOk};
ghost use Rattle.ctd_program.specs.calls.View.{test_tree};
ghost use Rattle.ctd_transfer.specs.calls.Tests.{Divides};
ghost use Rattle.ctd_transfer.specs.inner.Splits.{IsEither, opposite};

use crate::condition::split;
use ctd_partitions::{State, join_partitions, join_state};
use ctd_program::Test;
use ctd_states::{Context, Faults, Stop, no_faults, union};

/// The states where a test is true, those where it is false, and the faults that it may have.
#[derive(Drop)]
pub struct SplitStates {
    pub if_true: Vec<State>,
    pub if_false: Vec<State>,
    pub faults: Faults,
}

/// Each state where a test is true, and where it is false.
fn divide_each(context: Context, t: &Test, states: &[State]) -> Result<SplitStates, Stop>
    ensures { IfOk result (λ s. Divides context.entry states.now (test_tree t.now) s.if_true.items s.if_false.items s.faults) }
{
    let mut if_true = Vec::new(context.alloc);
    let mut if_false = Vec::new(context.alloc);
    let mut faults = no_faults();
    for state in states {
        let decided = split(context, t, state)?;
        if_true = join_state(context, if_true, decided.if_true)?;
        if_false = join_state(context, if_false, decided.if_false)?;
        faults = union(faults, decided.faults);
    }
    Ok(SplitStates {
        if_true,
        if_false,
        faults,
    })
}

/// One test or another, of which the other is asked where the first is false.
fn either(context: Context, first: SplitStates, second: SplitStates) -> Result<SplitStates, Stop>
    ensures { IfOk result (λ all. IsEither context.entry first second all) }
{
    let if_true = join_partitions(context, first.if_true, second.if_true.as_slice())?;
    Ok(SplitStates {
        if_true,
        if_false: second.if_false,
        faults: union(first.faults, second.faults),
    })
}

/// One test and another, which is asked where the first is true.
fn each(context: Context, first: SplitStates, second: SplitStates) -> Result<SplitStates, Stop>
    ensures { IfOk result (λ all. IsEither context.entry (opposite first) (opposite second) (opposite all)) }
{
    let if_false = join_partitions(context, first.if_false, second.if_false.as_slice())?;
    Ok(SplitStates {
        if_true: second.if_true,
        if_false,
        faults: union(first.faults, second.faults),
    })
}

/// The states where a test is true, and those where it is false. A test that is asked in no state has no faults.
pub fn divide(context: Context, t: &Test, states: &[State]) -> Result<SplitStates, Stop>
    ensures { IfOk result (λ s. Divides context.entry states.now (test_tree t.now) s.if_true.items s.if_false.items s.faults) }
{
    match t {
        Test::Or(a, b) => {
            let first = divide(context, a, states)?;
            let second = divide(context, b, first.if_false.as_slice())?;
            either(context, first, second)
        }
        Test::And(a, b) => {
            let first = divide(context, a, states)?;
            let second = divide(context, b, first.if_true.as_slice())?;
            each(context, first, second)
        }
        Test::Not(a) => {
            let turned = divide(context, a, states)?;
            Ok(SplitStates {
                if_true: turned.if_false,
                if_false: turned.if_true,
                faults: turned.faults,
            })
        }
        Test::Compare(_, _, _)
        | Test::Match(_)
        | Test::IsEof
        | Test::Unique(_)
        | Test::InArray(_, _) => divide_each(context, t, states),
    }
}
