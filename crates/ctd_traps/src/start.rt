//! How loops start.

ghost use Rattle.std.specs.Prelude.{◌≡◌, ◌≤◌, ◌<◌, ◌^◌, ℕ, ℤ, pos, true, false, Result, IfOk};
ghost use Rattle.ctd_program.specs.calls.View.{expr_tree, guard_tree};
ghost use Rattle.ctd_store.specs.declared.value.Value.{Value};
ghost use Rattle.ctd_store.specs.declared.value.Value.TheVariants as values;
ghost use Rattle.ctd_range.specs.inner.Ranges.{IsCount};
ghost use Rattle.ctd_check.specs.Loops.{Guard};
ghost use Rattle.ctd_states.specs.calls.States.{MayBe};
ghost use Rattle.ctd_states.specs.declared.assign.Context.{Context};
ghost use Rattle.ctd_store.specs.Store.{Bindings};
ghost use Rattle.ctd_outcome.specs.declared.reason.Fault.{Fault};
ghost use Rattle.ctd_limits.specs.calls.Known.{IsNothing};
ghost use Rattle.ctd_transfer.specs.calls.Results.{FailsBy, IsPossible};
ghost use Rattle.ctd_traps.specs.inner.Turns.{Counts, Starts, as_count};
ghost use Rattle.ctd_traps.specs.inner.Walk.{IsGuard, StartsIn};

use ctd_limits::{ValueLimits, anything};
use ctd_partitions::{State, join_all};
use ctd_program::{Expr, LoopGuard};
use ctd_states::{Blame, Context, Faults, NO_BLAME, PossibleValues, Stop, no_faults, union};
use ctd_transfer::{PossibleResult, evaluate, number_faults};
use std::alloc::Global;

/// Whether a possible number may lie outside 0 to 2^64-1.
fn may_be_no_count(possible: PossibleValues) -> bool
    ensures { result ≡ false → (k : ℕ) (x : ℤ) → MayBe possible k (values.Int x) → IsCount x }
{
    match possible.number {
        Some(range) => range.low < 0 || range.high > i128::from(u64::MAX),
        None => false,
    }
}

/// How many turns a possible number may give at most.
fn most_of(possible: PossibleValues) -> u64
    ensures { (k n : ℕ) → n < 2 ^ 64 → MayBe possible k (values.Int (pos n)) → n ≤ result }
{
    match possible.number {
        Some(range) => u64::try_from(range.high).unwrap_or(u64::MAX),
        None => 0,
    }
}

/// How many turns a possible number gives at least: more than at most where there is none.
fn least_of(possible: PossibleValues) -> u64
    ensures { (k n : ℕ) → n < 2 ^ 64 → MayBe possible k (values.Int (pos n)) → result ≤ n }
{
    match possible.number {
        Some(range) => u64::try_from(range.low).unwrap_or(0),
        None => 1,
    }
}

/// How a loop may start: the faults, how many turns it has at least and at most where it counts them, and what is known of the count.
#[derive(Drop)]
pub(crate) struct Turns {
    pub(crate) faults: Faults,
    pub(crate) least: u64,
    pub(crate) most: u64,
    pub(crate) count: ValueLimits,
}

/// A loop that counts no turns.
fn uncounted(alloc: Global) -> Turns
    ensures { (result.least ≡ 0) × (result.most ≡ 0) × IsNothing result.count }
{
    Turns {
        faults: no_faults(),
        least: 0,
        most: 0,
        count: anything(alloc),
    }
}

/// The faults of a count of turns.
fn count_faults(count: PossibleResult) -> Faults
    ensures { (k : ℕ) (r : Result Value Fault) → IsPossible count k r → FailsBy result (as_count r) }
{
    let is_bad = may_be_no_count(count.values);
    let blame = Blame {
        count: if is_bad { count.operand } else { None },
        ..NO_BLAME
    };
    let bad = Faults {
        count: is_bad,
        blame,
        ..no_faults()
    };
    union(number_faults(count), bad)
}

/// What a count of turns may be.
fn count_turns(e: &Expr, context: Context, state: &State) -> Result<Turns, Stop>
    ensures { IfOk result (λ t. Counts context.entry state.now (expr_tree e.now) t) }
{
    let count = evaluate(e, context, state)?;
    Ok(Turns {
        faults: count_faults(count.found),
        least: least_of(count.found.values),
        most: most_of(count.found.values),
        count: count.limits,
    })
}

/// How a loop may start.
fn start(guard: &LoopGuard, context: Context, state: &State) -> Result<Turns, Stop>
    ensures { IfOk result (λ t. Starts context.entry state.now (guard_tree guard.now) t) }
{
    match guard {
        LoopGuard::Times(e) => count_turns(e, context, state),
        LoopGuard::While(_) => Ok(uncounted(context.alloc)),
    }
}

/// Whether a loop may start: a count is at least, and at most, so large.
pub(crate) fn may_start(guard: &LoopGuard, turns: &Turns) -> bool
    ensures { result ≡ false → (g : Context) (h : Bindings) (started : Guard) → IsGuard g (guard_tree guard.now) turns.now h started → ⊥ }
{
    match guard {
        LoopGuard::Times(_) => turns.least <= turns.most,
        LoopGuard::While(_) => true,
    }
}

/// How a loop may start in some states.
pub(crate) fn start_each(
    guard: &LoopGuard,
    context: Context,
    states: &[State],
) -> Result<Turns, Stop>
    ensures { IfOk result (λ t. StartsIn context.entry states.now (guard_tree guard.now) t) }
{
    if states.is_empty() {
        return Ok(uncounted(context.alloc));
    }
    let all = join_all(context, states)?;
    start(guard, context, &all)
}
