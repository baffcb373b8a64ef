//! What never happens in the runs of a program, by what may happen in them.

ghost use Rattle.std.specs.Prelude.{◌≡◌, true, false, List, IfOk, OnOk};
ghost use Rattle.ctd_traps.specs.inner.Absent.{AreAbsent, HasAll, has_key, key_of, number_of_kind};

use crate::block::all_commands;
use crate::note::{EventKind, Note};
use ctd_program::{Action, Command};
use std::alloc::{AllocError, Global};
use std::collections::HashSet;

/// What may happen at a command without a test, once it began.
const ACTS: [EventKind; 1] = [EventKind::GoesOn];

/// What may happen at a command with a test, once it began.
const ASKS: [EventKind; 3] = [EventKind::GoesOn, EventKind::IsTrue, EventKind::IsFalse];

/// A note as it is looked up: its place, and the number of its kind.
#[derive(Clone, Copy, PartialEq, Eq, Hash)]
pub(crate) struct Key {
    pub(crate) line: u32,
    pub(crate) column: u32,
    pub(crate) kind: u8,
}

/// The number of a kind of events.
fn number_of(kind: EventKind) -> u8
    ensures { result ≡ number_of_kind kind }
{
    match kind {
        EventKind::Begins => 0,
        EventKind::GoesOn => 1,
        EventKind::IsTrue => 2,
        EventKind::IsFalse => 3,
    }
}

/// The key of a note.
fn key_of(note: &Note) -> Key
    ensures { result ≡ key_of note.now }
{
    Key {
        line: note.place.line,
        column: note.place.column,
        kind: number_of(note.kind),
    }
}

/// The keys of some notes.
fn keys_of(alloc: Global, notes: &[Note]) -> Result<HashSet<Key>, AllocError>
    ensures { IfOk result (λ keys. HasAll keys notes.now) }
{
    let mut keys = HashSet::new(alloc);
    for note in notes {
        keys.insert(key_of(note))?;
    }
    Ok(keys)
}

/// Whether the key of a note is among some.
fn has_note(keys: &HashSet<Key>, note: Note) -> bool
    ensures { result ≡ has_key keys.now (key_of note) }
{
    let key = key_of(&note);
    keys.contains(&key)
}

/// Adds a note to some, unless its key is among these.
fn add_absent(keys: &HashSet<Key>, note: Note, never: &mut Vec<Note>) -> Result<(), AllocError>
    ensures { OnOk result ((notes : List Note) → HasAll keys.now notes → AreAbsent notes never.old.items → AreAbsent notes never.new.items) }
{
    if has_note(keys, note) {
        return Ok(());
    }
    never.push(note)?;
    Ok(())
}

/// What may happen at a command that begins: ASSERT, IF and the turns of a loop give answers.
fn kinds_behind(command: &Command) -> &'static [EventKind] {
    match &command.action {
        Action::Assert(_) | Action::Loop(_) | Action::If(_) => &ASKS,
        _ => &ACTS,
    }
}

/// Adds the notes of a command whose keys are not among these. Of a command that never begins this alone is added.
fn add_command(
    keys: &HashSet<Key>,
    command: &Command,
    never: &mut Vec<Note>,
) -> Result<(), AllocError>
    ensures { OnOk result ((notes : List Note) → HasAll keys.now notes → AreAbsent notes never.old.items → AreAbsent notes never.new.items) }
{
    let place = command.place;
    let begins = Note {
        place,
        kind: EventKind::Begins,
    };
    if !has_note(keys, begins) {
        return add_absent(keys, begins, never);
    }
    for kind in kinds_behind(command) {
        add_absent(keys, Note { place, kind: *kind }, never)?;
    }
    Ok(())
}

/// The notes of some commands that are not among these.
pub(crate) fn absent_in(
    alloc: Global,
    commands: &[Command],
    notes: &[Note],
) -> Result<Vec<Note>, AllocError>
    ensures { IfOk result (λ never. AreAbsent notes.now never.items) }
{
    let keys = keys_of(alloc, notes)?;
    let entries = all_commands(alloc, commands)?;
    let mut never = Vec::new(alloc);
    for entry in entries.as_slice() {
        add_command(&keys, entry.command, &mut never)?;
    }
    Ok(never)
}
