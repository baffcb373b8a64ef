//! How the turns of loops begin.

ghost use Rattle.std.specs.Prelude.{◌≡◌, ◌≤◌, ◌<◌, ℕ, pos, true, false, None, Some, IfOk};
ghost use Rattle.ctd_program.specs.calls.View.{boxed_target, var_tree};
ghost use Rattle.ctd_range.specs.calls.Ranges.{IsIn};
ghost use Rattle.ctd_program.specs.declared.tree.Loop.{out-Loop};
ghost use Rattle.ctd_traps.specs.inner.Turns.{CountsEach, CountsLast, CountsTurn, KnowsTurn, StandsBeside};
ghost use Rattle.ctd_traps.specs.inner.Walk.{AreCounted, Enters, IsBegun, IsFreeName, IsSpared, IsTurn};

use crate::lasting::lasting_limits;
use crate::spare::turns_spare;
use crate::start::{Turns, start_each};
use ctd_limits::{ValueLimits, anything, as_limits, limits_of_name, limits_of_number, next_turn};
use ctd_partitions::{State, after_step, compared, equal, is_pinned, join_state, view_of};
use ctd_program::{Compare, Loop, LoopGuard, Var};
use ctd_range::{Range, less, with_high, with_low};
use ctd_states::{Context, Faults, PossibleValues, Stop, index_of, no_faults, union};
use ctd_transfer::{StateAfter, StatesAfter, assign, divide, keep_nothing};

/// The states where a turn begins, and those where the loop is over.
#[derive(Drop)]
pub(crate) struct LoopEntry {
    pub(crate) inside: Vec<State>,
    pub(crate) outside: Vec<State>,
    pub(crate) faults: Faults,
}

/// The numbers of turns that are below a count.
fn below(turn: Range, most: u64) -> Range
    ensures { (n k m : ℕ) → k < m → m ≤ most → IsIn turn n (pos k) → IsIn result n (pos k) }
{
    let counts = Range {
        low: 0,
        high: i128::from(most),
        rise: 0,
        fall: 0,
    };
    less(turn, counts)
}

/// Turns of a loop: the one of a number, or all but the first.
#[derive(Clone, Copy)]
pub(crate) enum Phase {
    At(u64),
    Later,
}

/// Whether a turn is the first one.
fn is_first(phase: Phase) -> bool
    ensures first { result ≡ true → (n k : ℕ) → IsTurn phase n k → k ≡ 0 }
    ensures later { result ≡ false → (n k : ℕ) → IsTurn phase n k → 0 < k }
{
    match phase {
        Phase::At(k) => k == 0,
        Phase::Later => false,
    }
}

/// The number of one turn.
fn number_alone(k: u64) -> Range
    ensures { (n : ℕ) → IsIn result n (pos k) }
{
    Range {
        low: i128::from(k),
        high: i128::from(k),
        rise: 0,
        fall: 0,
    }
}

/// The numbers of later turns. Turn k comes after k steps at least, and there are no more than 2^64 - 1 steps.
const LATER: Range = Range {
    low: 1,
    high: 18_446_744_073_709_551_615,
    rise: 0,
    fall: 1,
};

/// The numbers of turns.
fn numbers_of(phase: Phase) -> Range
    ensures { (n k : ℕ) → IsTurn phase n k → IsIn result n (pos k) }
{
    match phase {
        Phase::At(k) => number_alone(k),
        Phase::Later => LATER,
    }
}

/// How a loop starts: its turns, the counter if it is a name without indices that no preset pins, whether this one still has its number at the end of a
/// turn, and how the first turn begins.
#[derive(Drop)]
pub(crate) struct LoopStart {
    pub(crate) counting: Counting,
    pub(crate) first: LoopEntry,
}

/// The turns of a loop, and whether its counter is a name without indices that no preset pins, and whether it then still has its number at the end of each turn.
#[derive(Drop)]
pub(crate) struct Counting {
    pub(crate) turns: Turns,
    pub(crate) is_name: bool,
    pub(crate) is_kept: bool,
}

/// Whether a counter is a name without indices that no preset pins.
fn is_free_name(counter: &Option<Box<Var>>, context: Context) -> Result<bool, Stop>
    ensures { IfOk result (λ b. b ≡ true → IsFreeName context.entry (boxed_target counter.now)) }
{
    match counter {
        Some(variable) => {
            if !variable.indices.as_slice().is_empty() {
                return Ok(false);
            }
            let pinned = is_pinned(context, variable.name.as_slice())?;
            Ok(!pinned)
        }
        None => Ok(false),
    }
}

/// Whether a counter still has its number at the end of a turn.
fn keeps_number(repeated: &Loop) -> bool
    ensures { result ≡ true → IsSpared (boxed_target (out-Loop repeated.now).counter) repeated.now }
{
    match &repeated.counter {
        Some(variable) => turns_spare(variable.name.as_slice(), repeated),
        None => false,
    }
}

/// What is known of the number of a turn.
fn turn_limits(
    variable: &Var,
    phase: Phase,
    counting: &Counting,
    context: Context,
    state: &State,
) -> Result<ValueLimits, Stop>
    ensures { IfOk result (λ l. KnowsTurn context.entry state.now (var_tree variable.now) phase counting.now l) }
{
    let view = view_of(context, state);
    if is_first(phase) {
        let zero = limits_of_number(context.alloc, 0)?;
        return Ok(zero);
    }
    if !counting.is_name || !counting.is_kept {
        return Ok(anything(context.alloc));
    }
    match index_of(context.names, view.entries, variable.name.as_slice()) {
        Some(i) => {
            let next = next_turn(context.alloc, view, i)?;
            Ok(next)
        }
        None => Err(Stop::GaveUp),
    }
}

/// The state where the number of a turn, which the counter has, compares so with the count.
fn beside_count(
    variable: &Var,
    by: Compare,
    counting: &Counting,
    context: Context,
    state: State,
) -> Result<State, Stop>
    ensures { IfOk result (λ after. StandsBeside context.entry state (var_tree variable.now) by counting.now after) }
{
    if !counting.is_name {
        return Ok(state);
    }
    let view = view_of(context, &state);
    let own = limits_of_name(context.alloc, view, variable.name.as_slice())?;
    let count = as_limits(&counting.turns.count);
    match by {
        Compare::Equal => equal(context, &state, as_limits(&own), count),
        _ => compared(context, &state, by, as_limits(&own), count),
    }
}

/// Numbers alone.
fn numbers_alone(range: Range) -> PossibleValues
    ensures { result ≡ record { text = None; number = Some range } }
{
    PossibleValues {
        text: None,
        number: Some(range),
    }
}

/// Gives the counter of a loop the number of a turn.
fn give_number(
    variable: &Var,
    turn: Range,
    phase: Phase,
    counting: &Counting,
    context: Context,
    state: &State,
) -> Result<StateAfter, Stop>
    ensures { IfOk result (λ a. CountsTurn context.entry state.now (Some (var_tree variable.now)) turn phase None counting.now a.after a.faults) }
{
    let limits = turn_limits(variable, phase, counting, context, state)?;
    let possible = numbers_alone(turn);
    assign(context, variable, possible, as_limits(&limits), state)
}

/// Gives the counter of a loop the number of a turn, which compares so with the count.
fn count_beside(
    variable: &Var,
    turn: Range,
    phase: Phase,
    by: Compare,
    counting: &Counting,
    context: Context,
    state: &State,
) -> Result<StateAfter, Stop>
    ensures { IfOk result (λ a. CountsTurn context.entry state.now (Some (var_tree variable.now)) turn phase (Some by) counting.now a.after a.faults) }
{
    let StateAfter { after, faults } = give_number(
        variable, turn, phase, counting, context, state,
    )?;
    let after = beside_count(variable, by, counting, context, after)?;
    Ok(StateAfter { after, faults })
}

/// Gives the counter of a loop, if there is one, the number of a turn, and compares it with the count.
fn count_turn(
    counter: &Option<Box<Var>>,
    turn: Range,
    phase: Phase,
    by: Option<Compare>,
    counting: &Counting,
    context: Context,
    state: &State,
) -> Result<StateAfter, Stop>
    ensures { IfOk result (λ a. CountsTurn context.entry state.now (boxed_target counter.now) turn phase by counting.now a.after a.faults) }
{
    match counter {
        Some(variable) => match by {
            Some(by) => count_beside(variable, turn, phase, by, counting, context, state),
            None => give_number(variable, turn, phase, counting, context, state),
        },
        None => keep_nothing(context, numbers_alone(turn), state),
    }
}

/// The states once a step was paid, and the counter of a loop, if there is one, got the number of a turn.
fn count_each(
    counter: &Option<Box<Var>>,
    turn: Range,
    phase: Phase,
    by: Option<Compare>,
    counting: &Counting,
    context: Context,
    states: &[State],
) -> Result<StatesAfter, Stop>
    ensures { IfOk result (λ a. CountsEach context.entry states.now (boxed_target counter.now) turn phase by counting.now a.after.items a.faults) }
{
    let mut after = Vec::new(context.alloc);
    let mut faults = no_faults();
    for state in states {
        let paid = after_step(context, state)?;
        let own = count_turn(counter, turn, phase, by, counting, context, &paid)?;
        after = join_state(context, after, own.after)?;
        faults = union(faults, own.faults);
    }
    Ok(StatesAfter { after, faults })
}

/// The numbers of turns with which a loop of so many may be over.
fn last_numbers(turn: Range, least: u64, most: u64) -> Range
    ensures { (n k : ℕ) → least ≤ k → k ≤ most → IsIn turn n (pos k) → IsIn result n (pos k) }
{
    with_high(with_low(turn, i128::from(least), 0), i128::from(most), 0)
}

/// The states where a loop that has at least so many turns is over at a turn.
fn count_last(
    counter: &Option<Box<Var>>,
    phase: Phase,
    counting: &Counting,
    context: Context,
    states: &[State],
) -> Result<StatesAfter, Stop>
    ensures { IfOk result (λ a. CountsLast context.entry states.now (boxed_target counter.now) phase counting.now a.after.items a.faults) }
{
    let turns = &counting.turns;
    let turn = last_numbers(numbers_of(phase), turns.least, turns.most);
    count_each(
        counter,
        turn,
        phase,
        Some(Compare::Equal),
        counting,
        context,
        states,
    )
}

/// The states where a turn of a loop begins, and those where the loop is over.
pub(crate) fn enter(
    repeated: &Loop,
    phase: Phase,
    counting: &Counting,
    context: Context,
    states: &[State],
) -> Result<LoopEntry, Stop>
    ensures { IfOk result (λ e. AreCounted context.entry repeated.now counting.now → Enters context.entry states.now repeated.now counting.now phase e.inside.items e.outside.items e.faults) }
{
    let Loop { guard, counter, .. } = repeated;
    let turn = numbers_of(phase);
    match guard {
        LoopGuard::Times(_) => {
            let inside = count_each(
                counter,
                below(turn, counting.turns.most),
                phase,
                Some(Compare::Less),
                counting,
                context,
                states,
            )?;
            let outside = count_last(counter, phase, counting, context, states)?;
            Ok(LoopEntry {
                inside: inside.after,
                outside: outside.after,
                faults: union(inside.faults, outside.faults),
            })
        }
        LoopGuard::While(t) => {
            let counted = count_each(counter, turn, phase, None, counting, context, states)?;
            let divided = divide(context, t, counted.after.as_slice())?;
            Ok(LoopEntry {
                inside: divided.if_true,
                outside: divided.if_false,
                faults: union(counted.faults, divided.faults),
            })
        }
    }
}

/// How a loop starts, and how its first turn begins.
pub(crate) fn begin(repeated: &Loop, context: Context, states: &[State]) -> Result<LoopStart, Stop>
    ensures { IfOk result (λ b. IsBegun context.entry states.now repeated.now b.counting b.first.inside.items b.first.outside.items b.first.faults) }
{
    let started = start_each(&repeated.guard, context, states)?;
    let count = lasting_limits(context, repeated, &started.count)?;
    let is_name = is_free_name(&repeated.counter, context)?;
    let counting = Counting {
        turns: Turns {
            faults: started.faults,
            least: started.least,
            most: started.most,
            count,
        },
        is_name,
        is_kept: keeps_number(repeated),
    };
    let first = enter(repeated, Phase::At(0), &counting, context, states)?;
    Ok(LoopStart { counting, first })
}
