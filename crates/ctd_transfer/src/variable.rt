//! Variables get values, or lose them.

ghost use Rattle.ctd_command.specs.Commands.{give_value, set};
ghost use Rattle.std.specs.Prelude.{IfOk, map};
ghost use Rattle.ctd_program.specs.calls.View.{assignment, expr_list, target, var_tree};
ghost use Rattle.ctd_partitions.specs.calls.States.{IsCopyOf};
ghost use Rattle.ctd_transfer.specs.calls.Values.{Assigns, Expects};
ghost use Rattle.ctd_transfer.specs.inner.Acts.{Acts, ClearsAll, KeepsValue};
ghost use Rattle.ctd_transfer.specs.inner.Indices.{AssignsIndexed};

use crate::cut::expect_value;
use crate::expression::{evaluate, evaluate_indices};
use crate::indices::{faults_of, position_of};
use ctd_elements::Limits;
use ctd_limits::as_limits;
use ctd_partitions::{State, assign_alone, assign_element, clear, copy_of_state};
use ctd_program::{Assignment, Expr, Var};
use ctd_states::{Context, Faults, PossibleValues, Stop, no_faults, union};
use ctd_token::Name;

/// The state behind an act, and the faults that it may have.
#[derive(Drop)]
pub struct StateAfter {
    pub after: State,
    pub faults: Faults,
}

/// Gives an element one of some values, of which something is known, and gives the faults of its indices.
fn assign_indexed(
    context: Context,
    name: &Name,
    indices: &[Expr],
    possible: PossibleValues,
    limits: Limits,
    state: &State,
) -> Result<StateAfter, Stop>
    ensures { IfOk result (λ a. AssignsIndexed context.entry state.now name.now (expr_list indices.now) possible limits.entry a.after a.faults) }
{
    let indices = evaluate_indices(indices, context, state)?;
    let after = assign_element(
        context,
        state,
        name.as_slice(),
        position_of(&indices),
        possible,
        limits,
    )?;
    Ok(StateAfter {
        after,
        faults: faults_of(&indices),
    })
}

/// Gives a variable one of some values, of which there may be none.
fn assign_some(
    context: Context,
    variable: &Var,
    possible: PossibleValues,
    limits: Limits,
    state: &State,
) -> Result<StateAfter, Stop>
    ensures { IfOk result (λ a. Assigns context.entry state.now (var_tree variable.now) possible limits.entry a.after a.faults) }
{
    let name = &variable.name;
    let indices = variable.indices.as_slice();
    if indices.is_empty() {
        let after = assign_alone(context, state, name.as_slice(), possible, limits)?;
        return Ok(StateAfter {
            after,
            faults: no_faults(),
        });
    }
    assign_indexed(context, name, indices, possible, limits, state)
}

/// Gives a variable one of some values, of which something is known, and gives the faults of its indices.
pub fn assign(
    context: Context,
    variable: &Var,
    possible: PossibleValues,
    limits: Limits,
    state: &State,
) -> Result<StateAfter, Stop>
    ensures { IfOk result (λ a. Assigns context.entry state.now (var_tree variable.now) possible limits.entry a.after a.faults) }
{
    let mut assigned = assign_some(context, variable, possible, limits, state)?;
    expect_value(possible, &mut assigned.after);
    Ok(assigned)
}

/// The same state, and no faults.
pub(crate) fn stay(context: Context, state: &State) -> Result<StateAfter, Stop>
    ensures { IfOk result (λ a. IsCopyOf state.now a.after) }
{
    let after = copy_of_state(context.alloc, state)?;
    Ok(StateAfter {
        after,
        faults: no_faults(),
    })
}

/// The same state, where one of some values is expected.
pub fn keep_nothing(
    context: Context,
    possible: PossibleValues,
    state: &State,
) -> Result<StateAfter, Stop>
    ensures { IfOk result (λ a. Expects context.entry state.now possible a.after) }
{
    let mut same = stay(context, state)?;
    expect_value(possible, &mut same.after);
    Ok(same)
}

/// Gives a target, if there is one, one of some values, of which something is known.
pub(crate) fn keep(
    context: Context,
    variable: &Option<Var>,
    possible: PossibleValues,
    limits: Limits,
    state: &State,
) -> Result<StateAfter, Stop>
    ensures { IfOk result (λ a. KeepsValue context.entry state.now (target variable.now) possible limits.entry a.after a.faults) }
{
    match variable {
        Some(variable) => assign(context, variable, possible, limits, state),
        None => keep_nothing(context, possible, state),
    }
}

/// Does an assignment of SET.
fn set_one(context: Context, a: &Assignment, state: &State) -> Result<StateAfter, Stop>
    ensures { IfOk result (λ own. Acts context.entry state.now own.after own.faults (give_value (assignment a.now))) }
{
    let value = evaluate(&a.value, context, state)?;
    let possible = value.found.values;
    let own = assign(
        context,
        &a.target,
        possible,
        as_limits(&value.limits),
        state,
    )?;
    Ok(StateAfter {
        after: own.after,
        faults: union(value.found.faults, own.faults),
    })
}

/// Does what SET does.
pub(crate) fn set_all(
    context: Context,
    assignments: &[Assignment],
    state: &State,
) -> Result<StateAfter, Stop>
    ensures { IfOk result (λ a. Acts context.entry state.now a.after a.faults (set (map assignment assignments.now))) }
{
    let mut after = copy_of_state(context.alloc, state)?;
    let mut faults = no_faults();
    for a in assignments {
        let own = set_one(context, a, &after)?;
        after = own.after;
        faults = union(faults, own.faults);
    }
    Ok(StateAfter { after, faults })
}

/// Does what UNSET does, which has no faults.
pub(crate) fn clear_all(context: Context, names: &[Name], state: &State) -> Result<StateAfter, Stop>
    ensures { IfOk result (λ a. ClearsAll context.entry state.now names.now a.after) }
{
    let mut after = copy_of_state(context.alloc, state)?;
    for name in names {
        after = clear(context, &after, name.as_slice())?;
    }
    Ok(StateAfter {
        after,
        faults: no_faults(),
    })
}
