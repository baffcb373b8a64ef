//! Pulls from sources over readers, and the next byte of data that are whole.

use super::cursors::{ERRORS, Scripted, next_twice};
use super::same;
use ctd_source::{Failed, FromRead, LookFault, Next, Plain, Source};
use std::io::ErrorKind;
use std::process::Abort;

/// Judges pulls from a source over a reader that gives these answers, is called so often in all, and leaves these two bytes.
fn judge_pulls(
    rt: &impl Abort,
    error: ErrorKind,
    answers: &[Option<&[u8]>],
    wanted: &[Result<usize, Failed>],
    left: (usize, [u8; 2]),
) {
    let mut calls = 0;
    let mut source = FromRead::new(Scripted {
        answers,
        error,
        calls: &mut calls,
    });
    let mut room = [0; 4];
    for count in wanted {
        same(rt, &source.pull(&mut room), count, &answers);
    }
    drop(source);
    same(rt, &(calls, [room[0], room[1]]), &left, &answers);
}

/// What a reader gives in turn, what the pulls give, how often it is called, and the first two bytes that are left.
type Pulls = (
    &'static [Option<&'static [u8]>],
    &'static [Result<usize, Failed>],
    (usize, [u8; 2]),
);

const ONES: &[Option<&[u8]>] = &[Some(b"a"), Some(b"a"), Some(b"a"), Some(b"a"), Some(b"a")];

static PULLS: [Pulls; 7] = [
    // A reader that fails once is not asked again, nor is one that ends once.
    (
        &[Some(b"ab"), None, Some(b"cd")],
        &[Ok(2), Err(Failed), Err(Failed), Err(Failed)],
        (2, *b"ab"),
    ),
    (
        &[Some(b"ab"), Some(b""), Some(b"cd")],
        &[Ok(2), Ok(0), Ok(0), Ok(0)],
        (2, *b"ab"),
    ),
    // A reader is asked once a pull.
    (ONES, &[], (0, *b"\0\0")),
    (ONES, &[Ok(1)], (1, *b"a\0")),
    (ONES, &[Ok(1), Ok(1)], (2, *b"a\0")),
    (ONES, &[Ok(1), Ok(1), Ok(1)], (3, *b"a\0")),
    (ONES, &[Ok(1), Ok(1), Ok(1), Ok(1)], (4, *b"a\0")),
];

#[test]
fn a_reader_is_asked_once_a_pull_until_it_ends_or_fails(rt: HostRuntime) {
    for (answers, wanted, left) in &PULLS {
        for error in &ERRORS {
            judge_pulls(&rt, *error, answers, wanted, *left);
        }
    }
}

/// Some data, how many of them are behind, whether a read fails at their end, their limit, and their next byte.
type NextRow = (
    &'static [u8],
    usize,
    bool,
    u8,
    Result<Option<u8>, LookFault>,
);

const NEXT: [NextRow; 6] = [
    (b"ab", 1, true, 10, Ok(Some(b'b'))),
    (b"ab", 2, true, 10, Err(LookFault::Read)),
    (b"", 0, false, 10, Ok(None)),
    (b"", 0, true, 10, Err(LookFault::Read)),
    (b"x", 0, true, 0, Err(LookFault::DataTooLong)),
    (b"", 0, false, 0, Ok(None)),
];

#[test]
fn whole_data_tell_their_next_byte(rt: HostRuntime) {
    for (bytes, skipped, broken, limit, wanted) in &NEXT {
        let mut data = Plain::new(bytes, *broken, u64::from(*limit));
        data.skip(bytes.len().min(*skipped));
        same(
            &rt,
            &next_twice(&mut data),
            &[*wanted; 2],
            &(bytes, skipped),
        );
    }
}
