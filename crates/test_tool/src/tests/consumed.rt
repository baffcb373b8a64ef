//! How many bytes of the data a check consumes, however its reads are cut.

use crate::tests::checks::{LEFT_OVER, OUT_OF_RANGE, PLAIN, Terms, checked, told};
use crate::tests::same;
use std::alloc::{AllocError, Global};
use std::process::Abort;
use std::str::from_utf8;
use std::test::Fail;

/// So many bytes of one value, and then these.
fn repeated(alloc: Global, byte: u8, count: usize, back: &[u8]) -> Result<Vec<u8>, AllocError> {
    let mut data = vec![in alloc; byte; count]?;
    data.extend_from_slice(back)?;
    Ok(data)
}

/// A program, how often a byte stands at the front of the data, what stands behind it, the answer and the bytes consumed.
type Consumed = (&'static str, (u8, usize), &'static [u8], &'static str, u64);

static CONSUMED: [Consumed; 6] = [
    ("INT(0,9)", (b'1', 70_000), b"", OUT_OF_RANGE, 70_000),
    ("REGEX(\"a*b|a\")", (b'a', 70_000), b"b", "ok", 70_001),
    ("SPACE", (b' ', 70_000), b"", LEFT_OVER, 1),
    (
        "INT(0,9,a[x])",
        (b'5', 1),
        b"",
        "line 1 column 1: variable has no value (program line 1 column 1)",
        1,
    ),
    ("INT(0,9,a[x])", (b'1', 1), b"2", OUT_OF_RANGE, 2),
    (
        "STRING(1)",
        (b'1', 1),
        b"",
        "line 1 column 1: wrong type (program line 1 column 1)",
        0,
    ),
];

/// The most that a read gives.
pub(super) static CUTS: [usize; 9] = [1, 2, 3, 7, 65_535, 65_536, 100_000, 1_048_575, 1_048_576];

/// Judges the answer and the bytes consumed of a check, with reads of this size.
fn judge_consumed_by(
    rt: &impl Abort,
    alloc: Global,
    most: usize,
    program: &str,
    data: &[u8],
    wanted: (&str, u64),
) -> Result<(), Fail> {
    let found = checked(alloc, &Terms { most, ..PLAIN }, program, data)?;
    let told = told(alloc, found.outcome)?;
    same(rt, &(told.as_str(), found.consumed), &wanted, &most);
    Ok(())
}

/// The same with reads of each of these sizes.
fn judge_consumed(
    rt: &impl Abort,
    alloc: Global,
    cuts: &[usize],
    program: &str,
    data: &[u8],
    wanted: (&str, u64),
) -> Result<(), Fail> {
    for most in cuts {
        judge_consumed_by(rt, alloc, *most, program, data, wanted)?;
    }
    Ok(())
}

/// Judges a row of what a check consumes, with reads of each size.
fn judge_consumed_row(rt: &impl Abort, alloc: Global, row: &Consumed) -> Result<(), Fail> {
    let (program, (byte, count), back, answer, consumed) = *row;
    let data = repeated(alloc, byte, count, back)?;
    judge_consumed(
        rt,
        alloc,
        &CUTS,
        program,
        data.as_slice(),
        (answer, consumed),
    )
}

#[test]
fn a_command_consumes_what_it_passed(rt: HostRuntime) -> Result<(), Fail> {
    for row in &CONSUMED {
        judge_consumed_row(&rt, rt.alloc(), row)?;
    }
    Ok(())
}

/// A STRING of 100,000 a.
fn long_string(alloc: Global) -> Result<String, Fail> {
    let text = repeated(alloc, b'a', 100_000, b"\")")?;
    let mut program = String::from_str(alloc, "STRING(\"")?;
    program.push_str(from_utf8(text.as_slice())?)?;
    Ok(program)
}

/// A STRING of 100,000 bytes, of which the last is another in the data.
#[test]
fn a_string_consumes_the_bytes_that_agree(rt: HostRuntime) -> Result<(), Fail> {
    let data = repeated(rt.alloc(), b'a', 99_999, b"b")?;
    let program = long_string(rt.alloc())?;
    let answer = "line 1 column 1: string does not match (program line 1 column 1)";
    judge_consumed(
        &rt,
        rt.alloc(),
        &CUTS,
        program.as_str(),
        data.as_slice(),
        (answer, 99_999),
    )
}

/// The longest match that is accepted. Reads of a few bytes would take long.
#[test]
fn a_regex_consumes_its_match(rt: HostRuntime) -> Result<(), Fail> {
    let data = repeated(rt.alloc(), b'a', 1_048_575, b"")?;
    let wanted = ("ok", 1_048_575);
    let program = "REGEX(\"a+\")";
    judge_consumed(
        &rt,
        rt.alloc(),
        &CUTS[5..],
        program,
        data.as_slice(),
        wanted,
    )
}
