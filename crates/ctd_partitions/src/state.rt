//! States with facts.

ghost use Rattle.std.specs.Prelude.{◌≡◌, ◌++◌, IfOk};
ghost use Rattle.ctd_states.specs.declared.assign.Context.{Context};
ghost use Rattle.ctd_partitions.specs.calls.States.{IsViewOf};

use ctd_elements::{AbstractState, Fact};
use ctd_states::{AbstractValue, Context, PossibleValues, Stop};
use std::alloc::Global;

/// A state: the abstract value of each name, and facts.
#[derive(Drop)]
pub struct State {
    pub entries: Vec<AbstractValue>,
    pub facts: Vec<Fact>,
}

/// The same, with the names, to be looked at.
pub fn view_of<'s>(context: Context<'s>, state: &'s State) -> AbstractState<'s>
    ensures { IsViewOf context.entry state.now result }
{
    AbstractState {
        names: context.names,
        entries: state.entries.as_slice(),
        facts: state.facts.as_slice(),
    }
}

/// Makes a state unreachable: the entry behind the last name, which no variable has, neither has a value nor lacks one. No contract speaks of it,
/// since all is so where no run comes.
pub fn make_unreachable(state: &mut State) {
    let none = PossibleValues {
        text: None,
        number: None,
    };
    if let Some(entry) = state.entries.last_mut() {
        *entry = AbstractValue {
            may_lack: false,
            alone: none,
            elements: none,
        };
    }
}

/// The same facts.
pub(crate) fn copy_of_facts(alloc: Global, facts: &[Fact]) -> Result<Vec<Fact>, Stop>
    ensures { IfOk result (λ after. after.items ≡ facts.now) }
{
    let copy = facts.to_vec(alloc)?;
    Ok(copy)
}

/// Some facts, and others behind them.
pub(crate) fn with_facts(mut facts: Vec<Fact>, more: &[Fact]) -> Result<Vec<Fact>, Stop>
    ensures { IfOk result (λ all. all.items ≡ facts.items ++ more.now) }
{
    facts.extend_from_slice(more)?;
    Ok(facts)
}
