//! The traps of a program.

ghost use Rattle.std.specs.Prelude.{◌≡◌, ℕ, [], IfOk, IfSome, List, None, OnOk};
ghost use Rattle.ctd_program.specs.calls.View.{command_trees};
ghost use Rattle.ctd_store.specs.Store.{Variables, value_of, with_pin};
ghost use Rattle.ctd_store.specs.inner.Store.{pins_of};
ghost use Rattle.ctd_traps.specs.calls.Traps.{HasEachTrap, faults_of};
ghost use Rattle.ctd_traps.specs.calls.Events.{NeverHappens, events_of};
ghost use Rattle.ctd_traps.specs.calls.Known.{EachAcceptedHas, EachFinds};
ghost use Rattle.ctd_traps.specs.calls.Laws.{ComesAsItRuns, EachEndIsReached};
ghost use Rattle.ctd_traps.specs.inner.Holds.{PinsAreIn};
ghost use Rattle.ctd_traps.specs.inner.Knowing.{IsAnalysis};
ghost use Rattle.ctd_states.specs.calls.States.{MayBe, PinsStand, pins_in, named_values, entries_in};
ghost use Rattle.std.specs.Borrow.{Bor};

use crate::anything::all_traps;
use crate::budget::whole_budget;
use crate::joined::{Asked, Moment};
use crate::known::{END, Knowledge, knowledge_of};
use crate::names::{Mentioned, mentioned_in};
use crate::never::absent_in;
use crate::note::{Note, Noted, note_states, nothing_noted};
use crate::trap::Trap;
use crate::walk::walk;
use ctd_partitions::{State, join_state};
use ctd_program::{Command, Preset, PresetValue, Presets};
use ctd_range::Range;
use ctd_states::{
    AbstractValue, Context, Lengths, Pair, PossibleValues, Stop, assign_alone, assign_element,
    copy_of,
};
use ctd_token::Place;
use std::alloc::{AllocError, Global};

/// No values.
const NONE: PossibleValues = PossibleValues {
    text: None,
    number: None,
};

/// The state in which no name has a value. Behind the names there is one entry more, which makes a state unreachable.
fn unset(alloc: Global, names: &[&[u8]]) -> Result<Vec<AbstractValue>, AllocError>
    ensures { IfOk result (λ entries. (q : List (Bor (List ℕ))) → PinsStand (named_values q entries.items) []) }
{
    let value = AbstractValue {
        may_lack: true,
        alone: NONE,
        elements: NONE,
    };
    let mut entries = Vec::new(alloc);
    for _ in names {
        entries.push(value)?;
    }
    entries.push(value)?;
    Ok(entries)
}

/// The one possible value of a literal.
fn literal_values(literal: &PresetValue) -> PossibleValues
    ensures { (n : ℕ) → MayBe result n (value_of literal.now) }
{
    match literal {
        PresetValue::Int(n) => PossibleValues {
            text: None,
            number: Some(Range {
                low: *n,
                high: *n,
                rise: 0,
                fall: 0,
            }),
        },
        PresetValue::Text(bytes) => {
            let length = bytes.as_slice().len() as u64;
            PossibleValues {
                text: Some(Lengths {
                    least: length,
                    most: length,
                }),
                number: None,
            }
        }
    }
}

/// Pins a preset. The state without pins is given.
fn pin(without: Context, preset: &Preset, entries: &mut [AbstractValue]) -> Result<(), Stop>
    ensures { OnOk result (PinsStand (pins_in without.entry) [] → (pins : Variables) → PinsStand (entries_in without.entry entries.old) pins → PinsStand (entries_in without.entry entries.new) (with_pin pins preset.now)) }
{
    let name = preset.name.as_slice();
    let possible = literal_values(&preset.value);
    if preset.indices.as_slice().is_empty() {
        assign_alone(without, name, possible, entries)
    } else {
        assign_element(without, name, possible, entries)
    }
}

/// The state in which all presets are pinned.
fn pin_all(without: Context, presets: &[Preset]) -> Result<Vec<AbstractValue>, Stop>
    ensures { IfOk result (λ entries. PinsStand (pins_in without.entry) [] → PinsStand (entries_in without.entry entries.items) (pins_of presets.now)) }
{
    let mut entries = copy_of(without.alloc, without.pinned)?;
    for preset in presets {
        pin(without, preset, entries.as_mut_slice())?;
    }
    Ok(entries)
}

/// The traps of a program, what never happens, what is known of the variables, if that was asked for, the names to which traps and knowledge refer, and
/// the first command from which on less is known, since the program takes long to analyse.
#[derive(Drop)]
pub struct TrapList<'p> {
    pub traps: Vec<Trap>,
    pub never: Vec<Note>,
    pub knowledge: Option<Knowledge>,
    pub names: Vec<&'p [u8]>,
    pub less_known: Option<Place>,
}

/// What is noted of a program, and what is known of its variables, if that is asked for.
#[derive(Drop)]
pub(crate) struct Analysis {
    pub(crate) noted: Noted,
    pub(crate) knowledge: Option<Knowledge>,
}

/// The state before the first command of a program with these names.
fn state_before(
    alloc: Global,
    presets: &Presets,
    names: &[&[u8]],
) -> Result<Vec<AbstractValue>, Stop>
    ensures { IfOk result (λ entries. PinsStand (named_values names.now entries.items) (pins_of presets.now)) }
{
    let nothing = unset(alloc, names)?;
    let without = Context {
        alloc,
        names,
        pinned: nothing.as_slice(),
        pairs: &[],
    };
    pin_all(without, presets.pins())
}

/// The partition before the first command: the state of the pins.
fn first_state(context: Context) -> Result<Vec<State>, Stop>
    ensures { IfOk result (λ first. PinsAreIn context.entry first.items) }
{
    let entries = copy_of(context.alloc, context.pinned)?;
    let facts = Vec::new(context.alloc);
    join_state(context, Vec::new(context.alloc), State { entries, facts })
}

/// Where a run of some commands with these names may stop by a fault of a value, what else may happen where, and what is known of the variables.
fn analyze(
    alloc: Global,
    commands: &[Command],
    presets: &Presets,
    asked: Asked,
    names: &[&[u8]],
    pairs: &[Pair],
) -> Result<Analysis, Stop>
    ensures { IfOk result (λ analysis. IsAnalysis names.now (command_trees commands.now) presets.now analysis) }
{
    let pinned = state_before(alloc, presets, names)?;
    let context = Context {
        alloc,
        names,
        pinned: pinned.as_slice(),
        pairs,
    };
    let first = first_state(context)?;
    let mut noted = nothing_noted(alloc, asked);
    let mut budget = whole_budget(asked);
    let last = walk(commands, context, first, &mut noted, &mut budget)?;
    note_states(END, Moment::Done, context, last.as_slice(), &mut noted)?;
    let knowledge = knowledge_of(context, commands, &noted.joined)?;
    Ok(Analysis { noted, knowledge })
}

/// The place of the first of some commands, if there is one.
fn first_place(commands: &[Command]) -> Option<Place> {
    match commands.first() {
        Some(command) => Some(command.place),
        None => None,
    }
}

/// What is told of a program of which nothing is known: each fault that its commands can have.
fn unknown<'p>(
    alloc: Global,
    commands: &'p [Command],
    presets: &'p Presets,
    names: Vec<&'p [u8]>,
) -> Result<TrapList<'p>, AllocError>
    ensures each { IfOk result (λ list. HasEachTrap (command_trees commands.now) presets.now (faults_of list.traps.items)) }
    ensures never { IfOk result (λ list. NeverHappens (command_trees commands.now) presets.now (events_of list.never.items)) }
    ensures nothing { IfOk result (λ list. list.knowledge ≡ None) }
{
    let traps = all_traps(alloc, commands)?;
    Ok(TrapList {
        traps,
        never: Vec::new(alloc),
        knowledge: None,
        names,
        less_known: first_place(commands),
    })
}

/// The places at which a run of some commands may stop by a fault of a value, what never happens in a run, and, if it is asked for, what is known of
/// the variables, whatever the data, the mode and the limit of steps. An error where memory ran out.
pub fn traps<'p>(
    alloc: Global,
    commands: &'p [Command],
    presets: &'p Presets,
    asked: Asked,
) -> Result<TrapList<'p>, AllocError>
    ensures each { IfOk result (λ list. HasEachTrap (command_trees commands.now) presets.now (faults_of list.traps.items)) }
    ensures never { IfOk result (λ list. NeverHappens (command_trees commands.now) presets.now (events_of list.never.items)) }
    ensures finds { IfOk result (λ list. IfSome list.knowledge (λ k. EachFinds (command_trees commands.now) presets.now list.names.items k.at_places.items)) }
    ensures ends { IfOk result (λ list. IfSome list.knowledge (λ k. EachAcceptedHas (command_trees commands.now) presets.now list.names.items k.at_end)) }
{
    let Mentioned { names, pairs } = mentioned_in(alloc, commands, presets)?;
    match analyze(
        alloc,
        commands,
        presets,
        asked,
        names.as_slice(),
        pairs.as_slice(),
    ) {
        Ok(analysis) => {
            let Analysis { noted, knowledge } = analysis;
            let Noted {
                traps,
                events,
                less_known,
                ..
            } = noted;
            let never = absent_in(alloc, commands, events.as_slice())?;
            Ok(TrapList {
                traps,
                never,
                knowledge,
                names,
                less_known,
            })
        }
        Err(Stop::Memory) => Err(AllocError),
        Err(Stop::GaveUp) => unknown(alloc, commands, presets, names),
    }
}

/// What comes of a run, by the relation in which events are told, is the run: that relation leaves out nothing and adds nothing.
pub fn events_are_of_the_run()
    ensures comes { ComesAsItRuns }
    ensures ends { EachEndIsReached }
{}
