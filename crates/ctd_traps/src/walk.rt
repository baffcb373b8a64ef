//! The analysis of the commands of a program, with a post-fixpoint for each loop.

ghost use Rattle.std.specs.Prelude.{OnOk, IfOk, IfSome};
ghost use Rattle.ctd_program.specs.Tree;
ghost use Rattle.ctd_program.specs.calls.View.{command_list, command_tree, command_trees};
ghost use Rattle.ctd_program.specs.inner.View.{boxed_separator};
ghost use Rattle.ctd_traps.specs.inner.Noted.{IsPart};
ghost use Rattle.ctd_traps.specs.inner.Passages.{BegunFrom, Passes, PassesOnceBegun};
ghost use Rattle.ctd_traps.specs.inner.Unrolled.{SeparatesAt, TurnKeeps};
ghost use Rattle.ctd_traps.specs.inner.Walk.{RoundKeeps, SeparatorKeeps, StepKeeps, WalkKeeps, choice_at, loop_at};

use crate::budget::{Budget, is_spent, may_try, part_of, pay, pay_part, pay_round, pay_turn};
use crate::note::{Noted, note_all, note_faults, nothing_noted};
use crate::passage::{
    Passage, Round, Tried, begin_later, is_enough, is_inductive, join_outside, later_of,
    next_candidate, none_if_given_up, note_start, with_fewer_traps,
};
use crate::simple::{ask_branches, assert, join_branches, take};
use crate::turn::{Counting, LoopStart, begin};
use crate::unroll::{
    TURNS, begin_turn, facts_allowed, has_few_turns, has_inner_loop, have_few_facts, is_plain,
};
use crate::widest::{widest_candidate, without_facts};
use ctd_partitions::{State, join_partitions};
use ctd_program::{Action, Choice, Command, Commands, Loop};
use ctd_states::{Context, Stop};
use ctd_token::Place;

/// How many candidates for the invariant of a loop are tried.
const ROUNDS: usize = 14;

/// The states behind some commands.
#[cycle(walk)]
pub(crate) fn walk(
    commands: &[Command],
    context: Context,
    states: Vec<State>,
    noted: &mut Noted,
    budget: &mut Budget,
) -> Result<Vec<State>, Stop>
    ensures more { OnOk result (IsPart context.entry noted.old noted.new) }
    ensures keeps { IfOk result (λ after. WalkKeeps context.entry states.items after.items noted.new (command_trees commands.now)) }
{
    let mut after = states;
    for command in commands {
        after = step(command, context, after.as_slice(), noted, budget)?;
    }
    Ok(after)
}

/// The states behind the commands of a block.
#[cycle(walk)]
fn walk_block(
    block: &Commands,
    context: Context,
    states: Vec<State>,
    noted: &mut Noted,
    budget: &mut Budget,
) -> Result<Vec<State>, Stop>
    ensures more { OnOk result (IsPart context.entry noted.old noted.new) }
    ensures keeps { IfOk result (λ after. WalkKeeps context.entry states.items after.items noted.new (command_list block.now)) }
{
    walk(block.as_slice(), context, states, noted, budget)
}

/// The states behind a command. Once the steps are spent, no facts are known before it.
#[cycle(walk)]
fn step(
    command: &Command,
    context: Context,
    states: &[State],
    noted: &mut Noted,
    budget: &mut Budget,
) -> Result<Vec<State>, Stop>
    ensures more { OnOk result (IsPart context.entry noted.old noted.new) }
    ensures keeps { IfOk result (λ after. StepKeeps context.entry states.now after.items noted.new (command_tree command.now)) }
{
    pay(budget, command, states)?;
    if !is_spent(budget) {
        return act(command, context, states, noted, budget);
    }
    let wider = without_facts(context, states)?;
    act(command, context, wider.as_slice(), noted, budget)
}

/// The states behind a command that is paid.
#[cycle(walk)]
fn act(
    command: &Command,
    context: Context,
    states: &[State],
    noted: &mut Noted,
    budget: &mut Budget,
) -> Result<Vec<State>, Stop>
    ensures more { OnOk result (IsPart context.entry noted.old noted.new) }
    ensures keeps { IfOk result (λ after. StepKeeps context.entry states.now after.items noted.new (command_tree command.now)) }
{
    let place = command.place;
    match &command.action {
        Action::Space
        | Action::Newline
        | Action::Eof
        | Action::Int(_)
        | Action::String(_)
        | Action::Regex(_)
        | Action::Set(_)
        | Action::Unset(_) => take(command, context, states, noted),
        Action::Assert(t) => assert(t, place, context, states, noted),
        Action::Loop(repeated) => repeat(repeated, place, context, states, noted, budget),
        Action::If(choice) => choose(choice, place, context, states, noted, budget),
    }
}

/// The states behind IF.
#[cycle(walk)]
fn choose(
    choice: &Choice,
    place: Place,
    context: Context,
    states: &[State],
    noted: &mut Noted,
    budget: &mut Budget,
) -> Result<Vec<State>, Stop>
    ensures more { OnOk result (IsPart context.entry noted.old noted.new) }
    ensures keeps { IfOk result (λ after. StepKeeps context.entry states.now after.items noted.new (choice_at place choice.now)) }
{
    let Choice {
        condition,
        then_do,
        else_do,
    } = choice;
    let asked = ask_branches(condition, place, context, states, noted)?;
    let yes = walk_block(then_do, context, asked.if_true, noted, budget)?;
    let no = walk_block(else_do, context, asked.if_false, noted, budget)?;
    join_branches(context, yes, no)
}

/// The states behind the separator of a loop, if there is one.
#[cycle(walk)]
fn separate(
    between: &Option<Box<Command>>,
    context: Context,
    states: Vec<State>,
    noted: &mut Noted,
    budget: &mut Budget,
) -> Result<Vec<State>, Stop>
    ensures more { OnOk result (IsPart context.entry noted.old noted.new) }
    ensures keeps { IfOk result (λ after. SeparatorKeeps context.entry states.items after.items noted.new (boxed_separator between.now)) }
{
    match between {
        Some(command) => step(command, context, states.as_slice(), noted, budget),
        None => Ok(states),
    }
}

/// One pass over a loop, by a candidate for the states before each turn but the first.
#[cycle(walk)]
fn go_round(
    repeated: &Loop,
    place: Place,
    context: Context,
    begun: &LoopStart,
    candidate: &[State],
    noted: &mut Noted,
    budget: &mut Budget,
) -> Result<Round, Stop>
    ensures more { OnOk result (IsPart context.entry noted.old noted.new) }
    ensures keeps { IfOk result (λ r. RoundKeeps context.entry candidate.now begun.now.counting begun.now.first.inside.items begun.now.first.outside.items begun.now.first.faults r.outside.items r.end.items noted.new place repeated.now) }
{
    let Loop { between, body, .. } = repeated;
    pay_round(budget, candidate)?;
    let later = begin_later(repeated, place, context, begun, candidate, noted)?;
    let separated = separate(between, context, later.inside, noted, budget)?;
    let before = join_partitions(context, separated, begun.first.inside.as_slice())?;
    let end = walk_block(body, context, before, noted, budget)?;
    Ok(Round {
        outside: later.outside,
        end,
    })
}

/// The states behind the separator before one turn of a loop, if there is one: the first turn has none.
#[cycle(walk)]
fn separate_before(
    k: u64,
    between: &Option<Box<Command>>,
    context: Context,
    states: Vec<State>,
    noted: &mut Noted,
    budget: &mut Budget,
) -> Result<Vec<State>, Stop>
    ensures more { OnOk result (IsPart context.entry noted.old noted.new) }
    ensures keeps { IfOk result (λ after. SeparatesAt context.entry states.items after.items noted.new k (boxed_separator between.now)) }
{
    if k == 0 {
        return Ok(states);
    }
    separate(between, context, states, noted, budget)
}

/// One turn of a loop, by the states before it.
#[cycle(walk)]
fn take_turn(
    repeated: &Loop,
    place: Place,
    context: Context,
    counting: &Counting,
    k: u64,
    states: &[State],
    noted: &mut Noted,
    budget: &mut Budget,
) -> Result<Round, Stop>
    ensures more { OnOk result (IsPart context.entry noted.old noted.new) }
    ensures keeps { IfOk result (λ r. TurnKeeps context.entry states.now counting.now r.outside.items r.end.items noted.new place repeated.now k) }
{
    let Loop { between, body, .. } = repeated;
    pay_turn(budget, states)?;
    let begun = begin_turn(repeated, place, context, counting, k, states, noted)?;
    let before = separate_before(k, between, context, begun.inside, noted, budget)?;
    let end = walk_block(body, context, before, noted, budget)?;
    Ok(Round {
        outside: begun.outside,
        end,
    })
}

/// The passage through a loop whose turns are taken one by one, until there is no state in which one begins; none where this takes too long.
#[cycle(walk)]
fn unroll(
    repeated: &Loop,
    place: Place,
    context: Context,
    counting: &Counting,
    states: &[State],
    budget: &mut Budget,
) -> Result<Option<Passage>, Stop>
    ensures { IfOk result (λ answer. IfSome answer (λ p. Passes context.entry states.now counting.now place repeated.now p)) }
{
    let mut inside = nothing_noted(context.alloc, budget.asked);
    note_faults(place, counting.turns.faults, &mut inside)?;
    let facts = facts_allowed(states);
    let mut before = join_partitions(context, Vec::new(context.alloc), states)?;
    let mut after = Vec::new(context.alloc);
    for k in 0..TURNS + 2 {
        if before.is_empty() {
            return Ok(Some(Passage { after, inside }));
        }
        if !have_few_facts(before.as_slice(), facts) {
            return Ok(None);
        }
        let turn = take_turn(
            repeated,
            place,
            context,
            counting,
            k,
            before.as_slice(),
            &mut inside,
            budget,
        )?;
        after = join_partitions(context, after, turn.outside.as_slice())?;
        before = turn.end;
    }
    Ok(None)
}

/// Tries a candidate for the states before each turn but the first. Where it is the widest one, less is known of the loop.
#[cycle(walk)]
fn try_candidate(
    repeated: &Loop,
    place: Place,
    context: Context,
    begun: &LoopStart,
    candidate: &[State],
    less_known: Option<Place>,
    budget: &mut Budget,
) -> Result<Tried, Stop>
    ensures { IfOk result (λ tried. IfSome tried.passage (λ p. PassesOnceBegun context.entry begun.now place repeated.now p)) }
{
    let mut inside = nothing_noted(context.alloc, budget.asked);
    inside.less_known = less_known;
    let passed = go_round(
        repeated,
        place,
        context,
        begun,
        candidate,
        &mut inside,
        budget,
    )?;
    let is_found = is_inductive(context, candidate, &passed);
    let Round { outside, end } = passed;
    if !is_found {
        return Ok(Tried { passage: None, end });
    }
    let passage = join_outside(context, begun.first.outside.as_slice(), outside, inside)?;
    Ok(Tried {
        passage: Some(passage),
        end,
    })
}

/// The passage through a loop by the widest candidate, unless another was found.
#[cycle(walk)]
fn found_or_widest(
    found: Option<Passage>,
    repeated: &Loop,
    place: Place,
    context: Context,
    begun: &LoopStart,
    budget: &mut Budget,
) -> Result<Option<Passage>, Stop>
    ensures { IfOk result (λ answer. IfSome found (λ p. PassesOnceBegun context.entry begun.now place repeated.now p) → IfSome answer (λ p. PassesOnceBegun context.entry begun.now place repeated.now p)) }
{
    if found.is_some() {
        return Ok(found);
    }
    let widest = widest_candidate(context, repeated, begun.first.inside.as_slice())?;
    let tried = try_candidate(
        repeated,
        place,
        context,
        begun,
        widest.as_slice(),
        Some(place),
        budget,
    )?;
    Ok(tried.passage)
}

/// The passage through a loop by a candidate for the states before each turn but the first. It is widened until it is inductive, and then narrowed
/// once; where this takes too long, the widest candidate is the last. None where that is not inductive.
#[cycle(walk)]
fn search(
    repeated: &Loop,
    place: Place,
    context: Context,
    begun: &LoopStart,
    budget: &mut Budget,
) -> Result<Option<Passage>, Stop>
    ensures { IfOk result (λ answer. IfSome answer (λ p. PassesOnceBegun context.entry begun.now place repeated.now p)) }
{
    let mut candidate = Vec::new(context.alloc);
    let mut found = None;
    for round in 0..ROUNDS {
        if is_spent(budget) {
            return found_or_widest(found, repeated, place, context, begun, budget);
        }
        let tried = try_candidate(
            repeated,
            place,
            context,
            begun,
            candidate.as_slice(),
            None,
            budget,
        )?;
        if is_enough(&tried, &found, round) {
            return Ok(tried.passage);
        }
        candidate = next_candidate(context, candidate.as_slice(), &tried, round)?;
        let later = later_of(found, tried.passage);
        found = later;
    }
    found_or_widest(found, repeated, place, context, begun, budget)
}

/// The passage through a loop by a candidate, where the loops in it have candidates too.
#[cycle(walk)]
fn search_plainly(
    repeated: &Loop,
    place: Place,
    context: Context,
    begun: &LoopStart,
    budget: &mut Budget,
) -> Result<Passage, Stop>
    ensures { IfOk result (λ p. PassesOnceBegun context.entry begun.now place repeated.now p) }
{
    let is_inner = budget.is_inner;
    budget.is_inner = true;
    let found = search(repeated, place, context, begun, budget)?;
    budget.is_inner = is_inner;
    match found {
        Some(passage) => Ok(passage),
        None => Err(Stop::GaveUp),
    }
}

/// The passage through a loop by a candidate, where the loops in it are passed as well as can be, if a part of the budget is enough.
#[cycle(walk)]
fn try_inner(
    repeated: &Loop,
    place: Place,
    context: Context,
    begun: &LoopStart,
    budget: &mut Budget,
) -> Result<Option<Passage>, Stop>
    ensures { IfOk result (λ answer. IfSome answer (λ p. PassesOnceBegun context.entry begun.now place repeated.now p)) }
{
    if !has_inner_loop(context.alloc, repeated)? {
        return Ok(None);
    }
    let mut part = part_of(budget);
    let found = search(repeated, place, context, begun, &mut part);
    pay_part(budget, &part);
    none_if_given_up(found)
}

/// The passage through a loop whose few turns are taken one by one, if a part of the budget is enough.
#[cycle(walk)]
fn try_turns(
    repeated: &Loop,
    place: Place,
    context: Context,
    counting: &Counting,
    states: &[State],
    budget: &mut Budget,
) -> Result<Option<Passage>, Stop>
    ensures { IfOk result (λ answer. IfSome answer (λ p. Passes context.entry states.now counting.now place repeated.now p)) }
{
    if budget.is_inner || !has_few_turns(context.alloc, repeated, &counting.turns)? {
        return Ok(None);
    }
    let mut part = part_of(budget);
    let found = unroll(repeated, place, context, counting, states, &mut part);
    pay_part(budget, &part);
    none_if_given_up(found)
}

/// The passage through a loop that tells the fewest traps, of those that are tried.
#[cycle(walk)]
fn pass(
    repeated: &Loop,
    place: Place,
    context: Context,
    begun: &LoopStart,
    states: &[State],
    budget: &mut Budget,
) -> Result<Passage, Stop>
    ensures { IfOk result (λ p. BegunFrom context.entry states.now begun.now repeated.now → Passes context.entry states.now begun.now.counting place repeated.now p) }
{
    let counting = &begun.counting;
    if !is_spent(budget) && is_plain(context.alloc, repeated, &counting.turns)? {
        if let Some(passage) = try_turns(repeated, place, context, counting, states, budget)? {
            return Ok(passage);
        }
    }
    let plain = search_plainly(repeated, place, context, begun, budget)?;
    if plain.inside.traps.is_empty() || !may_try(budget) {
        return Ok(plain);
    }
    let by_turns = try_turns(repeated, place, context, counting, states, budget)?;
    let fewer = with_fewer_traps(plain, by_turns);
    if fewer.inside.traps.is_empty() || !may_try(budget) {
        return Ok(fewer);
    }
    let by_inner = try_inner(repeated, place, context, begun, budget)?;
    Ok(with_fewer_traps(fewer, by_inner))
}

/// The states behind a loop.
#[cycle(walk)]
fn repeat(
    repeated: &Loop,
    place: Place,
    context: Context,
    states: &[State],
    noted: &mut Noted,
    budget: &mut Budget,
) -> Result<Vec<State>, Stop>
    ensures more { OnOk result (IsPart context.entry noted.old noted.new) }
    ensures keeps { IfOk result (λ after. StepKeeps context.entry states.now after.items noted.new (loop_at place repeated.now)) }
{
    let begun = begin(repeated, context, states)?;
    note_start(
        &repeated.guard,
        place,
        context,
        &begun.counting.turns,
        states,
        noted,
    )?;
    let Passage { after, inside } = pass(repeated, place, context, &begun, states, budget)?;
    note_all(context, inside, noted)?;
    Ok(after)
}
