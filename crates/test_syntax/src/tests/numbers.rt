//! The numbers of the names of a program, and those of faults, which no contract tells.

use super::shown::Shown;
use ctd_syntax::{Action, Command, LoadKind, PresetFault, parse};
use std::alloc::Global;

/// The numbers of the names in each command UNSET.
fn write_removed(out: &mut Shown, commands: &[Command]) {
    for command in commands {
        if let Action::Unset(names) = &command.action {
            for name in names.as_slice() {
                out.put_form(format_args!("{} ", name.number()));
            }
        }
    }
}

/// The numbers of the names in the commands UNSET of a program.
pub(super) fn write_numbers(out: &mut Shown, alloc: Global, text: &[u8]) {
    match parse(alloc, text) {
        Ok(program) => write_removed(out, program.commands()),
        Err(fault) => out.put_form(fault),
    }
}

/// The numbers of the faults of programs, and of presets.
const FAULTS: [u8; 13] = [
    LoadKind::ProgramTooLong as u8,
    LoadKind::BadByte as u8,
    LoadKind::UnfinishedString as u8,
    LoadKind::BadOctal as u8,
    LoadKind::NumberTooLarge as u8,
    LoadKind::NotInProfile as u8,
    LoadKind::TooDeep as u8,
    LoadKind::Syntax as u8,
    LoadKind::BadPattern as u8,
    LoadKind::Read as u8,
    LoadKind::Memory as u8,
    PresetFault::BadPreset as u8,
    PresetFault::Memory as u8,
];

#[test]
fn numbers_of_faults(rt: HostRuntime) {
    assert_eq!(rt; FAULTS, [1, 2, 3, 4, 5, 6, 7, 8, 9, 10, 11, 1, 2]);
}
