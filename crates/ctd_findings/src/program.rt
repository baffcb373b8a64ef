//! The findings of a program.

ghost use Rattle.std.specs.Prelude.{List, All, Contains, IfOk};
ghost use Rattle.ctd_token.specs.declared.text.Place.{Place};
ghost use Rattle.ctd_program.specs.calls.View.{command_trees};
ghost use Rattle.ctd_findings.specs.calls.Findings.{IsPlaced, IsTrueOfRuns, places_of};
ghost use Rattle.ctd_findings.specs.inner.Never.{AllHave, IsSaid};
ghost use Rattle.ctd_findings.specs.inner.Sound.{AllSound, IsSound, places_in};
ghost use Rattle.ctd_traps.specs.calls.Events.{NeverHappens, events_of};
ghost use Rattle.ctd_traps.specs.declared.note.Note.{Note};

use crate::command::command_remarks;
use crate::finding::{Finding, Remark};
use crate::kind::Kind;
use crate::names::{ProgramNames, program_names};
use crate::never::{NeverAt, is_backed, never_at};
use crate::outcome::{Outcomes, outcomes_of};
use ctd_program::{Command, Preset, Presets};
use ctd_token::{Bytes, Place};
use ctd_traps::{Collector, CommandInBlock, Note, TrapList, all_commands, all_mentions};
use std::alloc::{AllocError, Global};
use std::collections::BTreeSet;

/// Where a program starts.
const START: Place = Place { line: 1, column: 1 };

/// Adds the remarks at a place that are backed by what never happens there.
fn place_all(place: Place, remarks: Vec<Remark>, at: NeverAt, found: &mut Collector<Finding>)
    ensures sound { (places : List Place) (never : List Note) → Contains places place → AllHave at (IsSaid never place) → AllSound places never found.old → AllSound places never found.new }
{
    for remark in remarks {
        if is_backed(remark.kind, at) {
            found.add(Finding { place, remark });
        }
    }
}

/// Adds the finding on a preset that the program does not mention.
fn list_unknown(alloc: Global, preset: &Preset, found: &mut Collector<Finding>)
    ensures sound { (places : List Place) (never : List Note) → AllSound places never found.old → AllSound places never found.new }
{
    match Bytes::copy(alloc, preset.name.as_slice()) {
        Ok(name) => found.add(Finding {
            place: START,
            remark: Remark {
                kind: Kind::UnknownPreset,
                name: Some(name),
            },
        }),
        Err(_) => found.fail(),
    }
}

/// Adds a finding for each preset with a name that is not among those that a program mentions.
fn list_not_mentioned<'p>(
    alloc: Global,
    presets: &'p [Preset],
    mentioned: &BTreeSet<&'p [u8]>,
    found: &mut Collector<Finding>,
)
    ensures sound { (places : List Place) (never : List Note) → AllSound places never found.old → AllSound places never found.new }
{
    for preset in presets {
        if !mentioned.contains(&preset.name.as_slice()) {
            list_unknown(alloc, preset, found);
        }
    }
}

/// Adds the findings of a command, where these events never happen.
fn list_command<'p>(
    alloc: Global,
    entry: &CommandInBlock<'p>,
    names: &ProgramNames<'p>,
    outcomes: &Outcomes,
    at: NeverAt,
    found: &mut Collector<Finding>,
)
    ensures sound { (places : List Place) (never : List Note) → Contains places entry.now.command.now.place → AllHave at (IsSaid never entry.now.command.now.place)
        → AllSound places never found.old → AllSound places never found.new }
{
    match command_remarks(alloc, entry, names, outcomes, at) {
        Ok(remarks) => place_all(entry.command.place, remarks, at, found),
        Err(_) => found.fail(),
    }
}

/// Adds the findings of some commands, where this never happens, in their order.
fn list_commands<'p>(
    alloc: Global,
    commands: &[CommandInBlock<'p>],
    names: &ProgramNames<'p>,
    outcomes: &Outcomes,
    never: &[Note],
    found: &mut Collector<Finding>,
)
    ensures sound { AllSound (places_in commands.now) never.now found.old → AllSound (places_in commands.now) never.now found.new }
{
    let mut next = 0;
    for entry in commands {
        let (at, behind) = never_at(never, next, entry.command.place);
        list_command(alloc, entry, names, outcomes, at, found);
        next = behind;
    }
}

/// The findings of a program with these commands, one after the other, where these presets are given.
fn findings_in<'p>(
    alloc: Global,
    program: &'p [Command],
    commands: &[CommandInBlock<'p>],
    presets: &'p Presets,
    traps: &TrapList<'_>,
    never: &[Note],
) -> Result<Vec<Finding>, AllocError>
    ensures sound { IfOk result (λ found. All (IsSound (places_in commands.now) never.now) found.items) }
{
    let mentions = all_mentions(alloc, commands)?;
    let names = program_names(
        alloc,
        program,
        commands,
        mentions.as_slice(),
        presets.pins(),
    )?;
    let outcomes = outcomes_of(alloc, traps, never)?;
    let mut found = Collector::new(alloc);
    list_not_mentioned(alloc, presets.pins(), &names.mentioned, &mut found);
    list_commands(alloc, commands, &names, &outcomes, never, &mut found);
    found.finish()
}

/// The findings of a program, where these presets are given, and the analysis tells this: those of the presets, and then those of the commands in the
/// order of the text.
pub fn findings<'p>(
    alloc: Global,
    commands: &'p [Command],
    presets: &'p Presets,
    traps: &TrapList<'_>,
) -> Result<Vec<Finding>, AllocError>
    ensures placed { IfOk result (λ found. All (IsPlaced (places_of (command_trees commands.now))) found.items) }
    ensures meant { NeverHappens (command_trees commands.now) presets.now (events_of traps.now.never.items)
        → IfOk result (λ found. All (IsTrueOfRuns (command_trees commands.now) presets.now) found.items) }
{
    let entries = all_commands(alloc, commands)?;
    findings_in(
        alloc,
        commands,
        entries.as_slice(),
        presets,
        traps,
        traps.never.as_slice(),
    )
}
