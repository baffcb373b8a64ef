//! The state once a step is paid.

ghost use Rattle.std.specs.Prelude.{ℕ, List, IfOk};
ghost use Rattle.std.specs.Borrow.{Bor};
ghost use Rattle.ctd_states.specs.calls.States.{named_values};
ghost use Rattle.ctd_states.specs.calls.Changed.{PaysStep};
ghost use Rattle.ctd_states.specs.inner.Changed.{ValuesPay, NamePays};

use crate::value::{AbstractValue, PossibleValues};
use ctd_range::pay;
use std::alloc::{AllocError, Global};

/// The possible values once a step is paid.
fn pay_values(possible: PossibleValues) -> PossibleValues
    ensures { ValuesPay possible result }
{
    match possible.number {
        Some(range) => PossibleValues {
            text: possible.text,
            number: Some(pay(range)),
        },
        None => possible,
    }
}

/// The abstract value of a name once a step is paid.
fn pay_name(value: AbstractValue) -> AbstractValue
    ensures { NamePays value result }
{
    AbstractValue {
        may_lack: value.may_lack,
        alone: pay_values(value.alone),
        elements: pay_values(value.elements),
    }
}

/// The state once a step is paid: what moves with the steps has moved.
pub fn after_step(
    alloc: Global,
    entries: &[AbstractValue],
) -> Result<Vec<AbstractValue>, AllocError>
    ensures pays { IfOk result (λ after. (names : List (Bor (List ℕ))) → PaysStep (named_values names entries.now) (named_values names after.items)) }
{
    let mut after = Vec::new(alloc);
    for value in entries {
        after.push(pay_name(*value))?;
    }
    Ok(after)
}
