//! The start of a cursor: under the greatest limit, and where it runs out of memory.

use super::cursors::{SPOTS, Scripted, judge};
use super::same;
use ctd_source::{Cursor, Failed, FromRead, Source};
use std::alloc::Global;
use std::io::ErrorKind;
use std::test::Fail;

/// The greatest limit that a cursor takes.
const GREATEST: u64 = 4_611_686_018_427_387_904;

#[test]
fn data_of_the_greatest_limit_are_read(rt: HostRuntime) -> Result<(), Fail> {
    let mut source = FromRead::new(b"x\ny".as_slice());
    let mut cursor = Cursor::start(rt.alloc(), &mut source, GREATEST)?;
    judge(&rt, &mut cursor, SPOTS);
    Ok(())
}

/// What a source of an x gives behind the start of a cursor over it, and how often its reader was called then.
fn behind_a_start(alloc: Global) -> (Result<usize, Failed>, u8, usize) {
    let mut calls = 0;
    let mut room = [0];
    let mut source = FromRead::new(Scripted {
        answers: &[Some(b"x")],
        error: ErrorKind::Other,
        calls: &mut calls,
    });
    drop(Cursor::start(alloc, &mut source, GREATEST));
    let pulled = source.pull(&mut room);
    drop(source);
    (pulled, room[0], calls)
}

/// Where an allocation fails too: a start reads nothing, whether it succeeds or not.
#[test]
fn a_start_reads_nothing(rt: HostRuntime) {
    same(
        &rt,
        &behind_a_start(rt.alloc()),
        &(Ok(1), b'x', 1),
        &"the start",
    );
}
