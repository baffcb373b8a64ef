//! The reading of programs.

use crate::tests::readers::{Behind, Held};
use crate::tests::same;
use ctd_check::{FromRead, LoadFault, LoadKind, Plan};
use std::alloc::Global;
use std::test::Fail;

/// Why a text is no program, if it is none, where a read gives at most so many bytes of it.
fn fault_of(alloc: Global, text: &[u8], most: usize, behind: Behind) -> Option<LoadFault> {
    let reader = Held {
        bytes: text,
        most,
        behind,
    };
    Plan::load(alloc, &mut FromRead::new(reader)).err()
}

/// No text before the last byte of this program is one.
#[test]
fn a_program_is_whole_however_its_reads_are_cut(rt: HostRuntime) {
    for most in &[1, 2, 3, 7, 100] {
        let fault = fault_of(rt.alloc(), b"REP(2)SPACE END", *most, Behind::End);
        same(&rt, &fault, &None, most);
    }
}

/// The byte that is too many comes first, and no read of the failing reader.
#[test]
fn a_program_of_the_limit_is_read_and_no_byte_more(rt: HostRuntime) -> Result<(), Fail> {
    let too_long = LoadFault {
        kind: LoadKind::ProgramTooLong,
        place: None,
    };
    let spaces = vec![in rt.alloc(); b' '; 1_048_577]?;
    for (text, behind, wanted) in &[
        (&spaces[1..], Behind::End, None),
        (&spaces, Behind::End, Some(too_long)),
        (&spaces, Behind::Failure, Some(too_long)),
    ] {
        let fault = fault_of(rt.alloc(), text, 1_048_577, *behind);
        same(&rt, &fault, wanted, behind);
    }
    Ok(())
}

#[test]
fn a_failed_read_leaves_no_program(rt: HostRuntime) {
    let program = b"INT(1,10) NEWLINE";
    let expected = LoadFault {
        kind: LoadKind::Read,
        place: None,
    };
    for n in 0..=program.len() {
        let fault = fault_of(rt.alloc(), &program[..n], 100, Behind::Failure);
        same(&rt, &fault, &Some(expected), &n);
    }
}
