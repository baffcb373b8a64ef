//! The state once variables got values, or lost them.

ghost use Rattle.std.specs.Prelude.{◌≡◌, ℕ, true, IfOk, OnOk};
ghost use Rattle.ctd_store.specs.declared.value.Value.{Value};
ghost use Rattle.ctd_states.specs.calls.States.{MayBe, pins_in, named_values, entries_in};
ghost use Rattle.ctd_states.specs.calls.States.{Tells};
ghost use Rattle.ctd_states.specs.calls.Changed.{AssignsAlone, AssignsElements, Clears};
ghost use Rattle.ctd_states.specs.inner.Changed.{AreWithin};

use crate::stop::Stop;
use crate::value::{
    AbstractValue, PossibleValues, abstract_value, replace_value, values_are_within,
};
use crate::widen::join_values;
use std::alloc::Global;

/// Two arrays, by the indices of their names, of which a program asks whether the one has a value wherever the other has one, or at each value of it.
#[derive(Clone, Copy)]
pub struct Pair {
    pub array: usize,
    pub other: usize,
}

/// What an analysis goes by: memory, the names of the program, the abstract values of its pins, and the pairs of arrays of which it asks.
#[derive(Clone, Copy)]
pub struct Context<'g> {
    pub alloc: Global,
    pub names: &'g [&'g [u8]],
    pub pinned: &'g [AbstractValue],
    pub pairs: &'g [Pair],
}

/// The abstract value of a name. `Stop::GaveUp` where the name is not listed.
pub fn listed(
    names: &[&[u8]],
    entries: &[AbstractValue],
    name: &[u8],
) -> Result<AbstractValue, Stop>
    ensures { IfOk result (λ value. Tells (named_values names.now entries.now) name.now value) }
{
    abstract_value(names, entries, name).ok_or(Stop::GaveUp)
}

/// The join of possible values, checked: an upper bound of both.
fn upper_bound(a: PossibleValues, b: PossibleValues) -> Result<PossibleValues, Stop>
    ensures left { IfOk result (λ all. AreWithin a all) }
    ensures right { IfOk result (λ all. AreWithin b all) }
{
    let all = join_values(a, b);
    if !values_are_within(a, all) {
        return Err(Stop::GaveUp);
    }
    if !values_are_within(b, all) {
        return Err(Stop::GaveUp);
    }
    Ok(all)
}

/// Whether no value is possible.
fn is_none(possible: PossibleValues) -> bool
    ensures { result ≡ true → (n : ℕ) (v : Value) → MayBe possible n v → ⊥ }
{
    possible.text.is_none() && possible.number.is_none()
}

/// Gives a name without indices one of some values. `Stop::GaveUp` where it is not listed, or where it is open whether a preset pins it.
pub fn assign_alone(
    context: Context,
    name: &[u8],
    possible: PossibleValues,
    entries: &mut [AbstractValue],
) -> Result<(), Stop>
    ensures { OnOk result (AssignsAlone (pins_in context.entry) (entries_in context.entry entries.old) name.now possible (entries_in context.entry entries.new)) }
{
    let value = listed(context.names, entries, name)?;
    let pin = listed(context.names, context.pinned, name)?;
    if !pin.may_lack {
        return Ok(());
    }
    if !is_none(pin.alone) {
        return Err(Stop::GaveUp);
    }
    let value = AbstractValue {
        may_lack: false,
        alone: possible,
        elements: value.elements,
    };
    replace_value(context.names, entries, name, value);
    Ok(())
}

/// Gives an element of a name one of some values. `Stop::GaveUp` where the name is not listed.
pub fn assign_element(
    context: Context,
    name: &[u8],
    possible: PossibleValues,
    entries: &mut [AbstractValue],
) -> Result<(), Stop>
    ensures { OnOk result (AssignsElements (entries_in context.entry entries.old) name.now possible (entries_in context.entry entries.new)) }
{
    let value = listed(context.names, entries, name)?;
    let value = AbstractValue {
        elements: upper_bound(value.elements, possible)?,
        ..value
    };
    replace_value(context.names, entries, name, value);
    Ok(())
}

/// Takes from a name what was assigned to it, and leaves its presets. `Stop::GaveUp` where the name is not listed.
pub fn clear(context: Context, name: &[u8], entries: &mut [AbstractValue]) -> Result<(), Stop>
    ensures { OnOk result (Clears (pins_in context.entry) (entries_in context.entry entries.old) name.now (entries_in context.entry entries.new)) }
{
    let value = listed(context.names, context.pinned, name)?;
    replace_value(context.names, entries, name, value);
    Ok(())
}
