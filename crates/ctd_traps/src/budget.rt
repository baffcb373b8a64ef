//! What a walk may cost, and what it keeps.

use crate::joined::Asked;
use ctd_partitions::State;
use ctd_program::{Action, Command};
use ctd_states::Stop;

/// What the steps of a walk may cost, by the cost of a name in a state: about a second.
const STEPS: u64 = 3_000_000;

/// What one pass may cost once these steps are spent: less than a second more.
const LAST_STEPS: u64 = 2_000_000;

/// What a step costs in any case.
const STEP: u64 = 4;

/// How many comparisons of facts cost as much as a name.
const COMPARED: u64 = 16;

/// How many times a state is copied where a turn begins.
const TURN: u64 = 3;

/// What the candidates for facts cost that are made of one fact.
const CANDIDATE: u64 = 48;

/// One way through a loop, where there are several, has this part of the steps that are left.
const PART: u64 = 4;

/// What the steps of a walk may still cost, and what one pass may cost once they are spent; from how much on other ways through a loop are tried;
/// whether the walk is in a loop that has a candidate for which the loops in it have candidates too; and whether it keeps the states in which it
/// comes to places.
#[derive(Drop)]
pub(crate) struct Budget {
    steps: u64,
    last_steps: u64,
    reserve: u64,
    pub(crate) is_inner: bool,
    pub(crate) asked: Asked,
}

/// A budget of which one half is for other ways through loops.
fn budget_of(steps: u64, last_steps: u64, asked: Asked) -> Budget {
    Budget {
        steps,
        last_steps,
        reserve: steps / 2,
        is_inner: false,
        asked,
    }
}

/// The budget of a walk.
pub(crate) fn whole_budget(asked: Asked) -> Budget {
    budget_of(STEPS, LAST_STEPS, asked)
}

/// Whether the steps are spent, so that one pass is left in which each loop is walked once.
pub(crate) fn is_spent(budget: &Budget) -> bool {
    budget.steps == 0
}

/// Whether other ways through a loop may be tried.
pub(crate) fn may_try(budget: &Budget) -> bool {
    !budget.is_inner && budget.steps > budget.reserve
}

/// A part of the budget, for one way through a loop: once it is spent, this way is given up.
pub(crate) fn part_of(budget: &Budget) -> Budget {
    budget_of(budget.steps / PART, 0, budget.asked)
}

/// Pays what was paid of its part.
pub(crate) fn pay_part(budget: &mut Budget, part: &Budget) {
    let given = budget.steps / PART;
    budget.steps = budget
        .steps
        .saturating_sub(given.saturating_sub(part.steps));
}

/// How many times a command copies a state: SET and UNSET do for each name.
fn copies_of(command: &Command) -> u64 {
    match &command.action {
        Action::Set(assignments) => assignments.as_slice().len() as u64,
        Action::Unset(names) => names.as_slice().len() as u64,
        _ => 1,
    }
}

/// What so many copies of states cost: of their names, where each fact is compared with others.
fn cost_of(copies: u64, states: &[State]) -> u64 {
    let mut cost: u64 = 0;
    for state in states {
        let facts = state.facts.len() as u64;
        let compared = facts.saturating_mul(facts) / COMPARED;
        let names = state.entries.len() as u64;
        cost = cost.saturating_add(names.saturating_add(compared));
    }
    cost.saturating_mul(copies)
}

/// What the candidates cost that are made of the facts of states: each is compared with two facts.
fn cost_of_candidates(states: &[State]) -> u64 {
    let mut cost: u64 = 0;
    for state in states {
        let facts = state.facts.len() as u64;
        let compared = facts.saturating_mul(facts).saturating_mul(facts) / COMPARED;
        let made = facts.saturating_mul(CANDIDATE);
        cost = cost.saturating_add(made.saturating_add(compared));
    }
    cost
}

/// Pays a step. Where the steps are spent, one pass pays what is left.
fn pay_step(budget: &mut Budget, cost: u64) -> Result<(), Stop> {
    let cost = cost.saturating_add(STEP);
    if let Some(left) = budget.steps.checked_sub(cost) {
        budget.steps = left;
        return Ok(());
    }
    budget.steps = 0;
    budget.last_steps = budget.last_steps.checked_sub(cost).ok_or(Stop::GaveUp)?;
    Ok(())
}

/// Pays a command in each state.
pub(crate) fn pay(budget: &mut Budget, command: &Command, states: &[State]) -> Result<(), Stop> {
    pay_step(budget, cost_of(copies_of(command), states))
}

/// Pays the begin of a turn in each state.
pub(crate) fn pay_turn(budget: &mut Budget, states: &[State]) -> Result<(), Stop> {
    pay_step(budget, cost_of(TURN, states))
}

/// Pays the begin of a turn in each state of a candidate, and the next candidate.
pub(crate) fn pay_round(budget: &mut Budget, candidate: &[State]) -> Result<(), Stop> {
    let cost = cost_of(TURN, candidate).saturating_add(cost_of_candidates(candidate));
    pay_step(budget, cost)
}
