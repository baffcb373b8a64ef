//! What a division may give. Where its divisor is surely not 0, it does not fail by a divisor of 0.

ghost use Rattle.std.specs.Prelude.{◌≡◌, ◌≢◌, true, IfOk};
ghost use Rattle.ctd_outcome.specs.declared.reason.Fault.{Fault};
ghost use Rattle.ctd_outcome.specs.declared.reason.Fault.TheVariants.{DivisionByZero};
ghost use Rattle.ctd_states.specs.calls.Faults.{IsAmong};
ghost use Rattle.ctd_transfer.specs.inner.Divisors.{DifferIn, IsDivision};

use crate::expression::{Evaluation, operation};
use crate::result::{PossibleResult, with_faults};
use ctd_elements::differ;
use ctd_limits::{ValueLimits, as_limits};
use ctd_partitions::{State, view_of};
use ctd_program::Expr;
use ctd_states::{Blame, Context, Faults, Stop};
use std::alloc::Global;

/// What a divisor may give, and whether it surely is not 0.
#[derive(Drop)]
pub(crate) struct Divisor {
    pub(crate) value: Evaluation,
    pub(crate) is_nonzero: bool,
}

/// Whether two numbers of which something is known surely differ.
pub(crate) fn differ_in(context: Context, state: &State, a: &ValueLimits, b: &ValueLimits) -> bool
    ensures { result ≡ true → DifferIn context.entry state.now a.now b.now }
{
    differ(view_of(context, state), as_limits(a), as_limits(b))
}

/// The faults without a divisor of 0.
fn without_zero(faults: Faults) -> Faults
    ensures { (f : Fault) → f ≢ DivisionByZero → IsAmong faults f → IsAmong result f }
{
    let blame = Blame {
        division_by_zero: None,
        ..faults.blame
    };
    Faults {
        division_by_zero: false,
        blame,
        ..faults
    }
}

/// What an operation may give that does not fail by a divisor of 0, unless one of its operands does.
fn spared(all: PossibleResult, a: PossibleResult, b: PossibleResult) -> PossibleResult
    ensures values { result.values ≡ all.values }
    ensures own { (f : Fault) → f ≢ DivisionByZero → IsAmong all.faults f → IsAmong result.faults f }
    ensures first { (f : Fault) → IsAmong a.faults f → IsAmong result.faults f }
    ensures second { (f : Fault) → IsAmong b.faults f → IsAmong result.faults f }
{
    let found = PossibleResult {
        faults: without_zero(all.faults),
        ..all
    };
    with_faults(with_faults(found, a.faults), b.faults)
}

/// What a division by a divisor may give.
pub(crate) fn division(
    alloc: Global,
    e: &Expr,
    left: &Evaluation,
    divisor: &Divisor,
) -> Result<Evaluation, Stop>
    ensures { IfOk result (λ r. IsDivision e.now left.now divisor.now r) }
{
    let right = &divisor.value;
    let all = operation(alloc, e, left, right)?;
    if !divisor.is_nonzero {
        return Ok(all);
    }
    Ok(Evaluation {
        found: spared(all.found, left.found, right.found),
        limits: all.limits,
    })
}
