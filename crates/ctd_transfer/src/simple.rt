//! The transfer functions of INT, STRING and REGEX.

ghost use Rattle.std.specs.Prelude.{◌≤ℤ◌, ◌≤◌, ℕ, ℤ, List, length, IfOk};
ghost use Rattle.ctd_source.specs.declared.limits.TheConstants.{WINDOW};
ghost use Rattle.ctd_program.specs.calls.View.{expr_tree, target};
ghost use Rattle.ctd_store.specs.declared.value.Value.TheVariants as values;
ghost use Rattle.ctd_command.specs.Commands.{int, string};
ghost use Rattle.ctd_command.specs.Regex.{regex};
ghost use Rattle.ctd_states.specs.calls.States.{MayBe};
ghost use Rattle.ctd_transfer.specs.inner.Acts.{Acts};

use crate::expression::evaluate;
use crate::result::{number_faults, text_alone, text_faults};
use crate::variable::{StateAfter, keep, keep_nothing};
use ctd_limits::{anything, as_limits};
use ctd_partitions::State;
use ctd_program::{Expr, IntArguments, RegexArguments};
use ctd_range::Range;
use ctd_source::WINDOW;
use ctd_states::{Context, Lengths, PossibleValues, Stop, union};

/// The numbers from a possible one to another.
fn between(a: PossibleValues, b: PossibleValues) -> PossibleValues
    ensures { (k : ℕ) (x y z : ℤ) → MayBe a k (values.Int x) → MayBe b k (values.Int y) → x ≤ℤ z → z ≤ℤ y → MayBe result k (values.Int z) }
{
    let number = match (a.number, b.number) {
        (Some(least), Some(most)) => Some(Range {
            low: least.low,
            high: most.high,
            rise: least.rise,
            fall: most.fall,
        }),
        _ => None,
    };
    PossibleValues { text: None, number }
}

/// Does what INT does.
pub(crate) fn take_integer(
    arguments: &IntArguments,
    context: Context,
    state: &State,
) -> Result<StateAfter, Stop>
    ensures { IfOk result (λ a. Acts context.entry state.now a.after a.faults (int (expr_tree arguments.now.low) (expr_tree arguments.now.high) (target arguments.now.target))) }
{
    let low = evaluate(&arguments.low, context, state)?;
    let high = evaluate(&arguments.high, context, state)?;
    let limits = ctd_limits::between(context.alloc, &low.limits, &high.limits)?;
    let kept = keep(
        context,
        &arguments.target,
        between(low.found.values, high.found.values),
        as_limits(&limits),
        state,
    )?;
    let bounds = union(number_faults(low.found), number_faults(high.found));
    Ok(StateAfter {
        after: kept.after,
        faults: union(bounds, kept.faults),
    })
}

/// Does what STRING does, which gives no variable a value.
pub(crate) fn take_string(e: &Expr, context: Context, state: &State) -> Result<StateAfter, Stop>
    ensures { IfOk result (λ a. Acts context.entry state.now a.after a.faults (string (expr_tree e.now))) }
{
    let text = evaluate(e, context, state)?;
    let same = keep_nothing(context, text_alone(text.found.values), state)?;
    Ok(StateAfter {
        after: same.after,
        faults: text_faults(text.found),
    })
}

/// The strings that a window may have.
fn in_window() -> PossibleValues
    ensures { (k : ℕ) (bytes : List ℕ) → length bytes ≤ WINDOW → MayBe result k (values.Text bytes) }
{
    PossibleValues {
        text: Some(Lengths {
            least: 0,
            most: WINDOW as u64,
        }),
        number: None,
    }
}

/// Does what REGEX does.
pub(crate) fn take_match(
    arguments: &RegexArguments,
    context: Context,
    state: &State,
) -> Result<StateAfter, Stop>
    ensures { IfOk result (λ a. Acts context.entry state.now a.after a.faults (regex arguments.now.literal.bytes (target arguments.now.target))) }
{
    let limits = anything(context.alloc);
    keep(
        context,
        &arguments.target,
        in_window(),
        as_limits(&limits),
        state,
    )
}
