//! How a check ends, and what it says of the data that it read: under limits of bytes, and on readers that fail or never end.

use crate::tests::consumed::CUTS;
use crate::tests::readers::{Behind, Held};
use crate::tests::same;
use ctd_check::{Checked, FromRead, Limits, Mode, Outcome, Plan, Presets, Seen, Site, Spot, check};
use std::alloc::{AllocError, Global};
use std::fmt::Display;
use std::process::Abort;
use std::test::Fail;

/// The mode and the limits of a check, and how its data are held.
#[derive(Clone, Copy)]
pub(super) struct Terms {
    pub(super) mode: Mode,
    pub(super) steps: u64,
    pub(super) bytes: u32,
    /// How many bytes of the data a read gives at most.
    pub(super) most: usize,
    pub(super) behind: Behind,
}

/// The terms that ask for nothing.
pub(super) const PLAIN: Terms = Terms {
    mode: Mode::Exact,
    steps: u64::MAX,
    bytes: u32::MAX,
    most: 1_000_000,
    behind: Behind::End,
};

/// The terms under which a read fails behind the data.
const FAILING: Terms = Terms {
    behind: Behind::Failure,
    ..PLAIN
};

/// The terms under which a read fails after the data, in whitespace mode.
const BLANKS_FAILING: Terms = Terms {
    mode: Mode::BlanksOk,
    ..FAILING
};

/// The terms under which ones come behind the data without end, of which a thousand bytes may be looked at.
const ENDLESS: Terms = Terms {
    bytes: 1_000,
    behind: Behind::Ones,
    ..PLAIN
};

/// The plan of a text.
pub(super) fn plan_of(alloc: Global, program: &str) -> Result<Plan, Fail> {
    Ok(Plan::load(alloc, &mut FromRead::new(program.as_bytes()))?)
}

/// What a check of data by a plan finds.
fn checked_by(
    alloc: Global,
    terms: &Terms,
    plan: &Plan,
    data: &[u8],
) -> Result<Checked, AllocError> {
    let mut data = FromRead::new(Held {
        bytes: data,
        most: terms.most,
        behind: terms.behind,
    });
    let limits = Limits {
        steps: terms.steps,
        bytes: terms.bytes as u64,
    };
    let presets = Presets::none(alloc);
    check(alloc, plan, &presets, &mut data, limits, terms.mode)
}

/// What a check of data by a program finds.
pub(super) fn checked(
    alloc: Global,
    terms: &Terms,
    program: &str,
    data: &[u8],
) -> Result<Checked, Fail> {
    let plan = plan_of(alloc, program)?;
    Ok(checked_by(alloc, terms, &plan, data)?)
}

/// What is said of a spot, as the tool would write it.
fn said(alloc: Global, spot: Spot, place: Site, what: &impl Display) -> Result<String, AllocError> {
    format!(in alloc;
        "line {} column {}: {what} ({place})",
        spot.line, spot.column
    )
}

/// The answer of a check as the tool would write it.
pub(super) fn told(alloc: Global, outcome: Outcome) -> Result<String, AllocError> {
    match outcome {
        Outcome::Accepted => String::from_str(alloc, "ok"),
        Outcome::Rejected {
            spot,
            place,
            reason,
        } => said(alloc, spot, place, &reason),
        Outcome::Stopped { spot, place, fault } => said(alloc, spot, place, &fault),
    }
}

/// The terms of a check, its program and data, its answer as text, the steps paid and the bytes consumed; and the bytes taken and what was
/// seen of the data's end, where a definition says that.
pub(super) type Row = (
    Terms,
    &'static str,
    &'static str,
    &'static str,
    (u64, u64),
    Option<(u64, Seen)>,
);

pub(super) const LINE_OF_ONE: &str = "INT(1,10) NEWLINE";

static ROWS: [Row; 17] = [
    (
        PLAIN,
        LINE_OF_ONE,
        "5\n",
        "ok",
        (3, 2),
        Some((2, Seen::Ended)),
    ),
    // A read fails behind the data, and the byte behind them is needed or not.
    (
        FAILING,
        "INT(0,9) SPACE",
        "12 ",
        "line 1 column 1: value out of range (program line 1 column 1)",
        (1, 2),
        None,
    ),
    (
        FAILING,
        "INT(0,9) SPACE",
        "12",
        "line 1 column 1: read failed (program line 1 column 1)",
        (1, 2),
        Some((2, Seen::Broken)),
    ),
    (
        FAILING,
        "STRING(\"abc\")",
        "ab",
        "line 1 column 1: read failed (program line 1 column 1)",
        (1, 2),
        None,
    ),
    (
        BLANKS_FAILING,
        "",
        "  ",
        "line 1 column 1: read failed (program start)",
        (0, 2),
        None,
    ),
    (
        BLANKS_FAILING,
        "STRING(\"a\") SPACE",
        "a  ",
        "line 1 column 2: read failed (program line 1 column 13)",
        (2, 3),
        None,
    ),
    (
        BLANKS_FAILING,
        "STRING(\"a\") NEWLINE",
        "a \n ",
        "line 1 column 2: read failed (program line 1 column 13)",
        (2, 4),
        None,
    ),
    (
        BLANKS_FAILING,
        "STRING(\"a\")",
        "a ",
        "line 1 column 2: read failed (program end)",
        (2, 2),
        None,
    ),
    // A byte behind the limit is needed, and the data go on there or end.
    (
        Terms { bytes: 0, ..PLAIN },
        LINE_OF_ONE,
        "5\n",
        "line 1 column 1: test data too long (program line 1 column 1)",
        (1, 0),
        None,
    ),
    (
        Terms { bytes: 1, ..PLAIN },
        LINE_OF_ONE,
        "5\n",
        "line 1 column 1: test data too long (program line 1 column 1)",
        (1, 1),
        None,
    ),
    (
        Terms { bytes: 2, ..PLAIN },
        LINE_OF_ONE,
        "5\n",
        "ok",
        (3, 2),
        None,
    ),
    (
        Terms { bytes: 3, ..PLAIN },
        "STRING(\"abcd\")",
        "abcd",
        "line 1 column 1: test data too long (program line 1 column 1)",
        (1, 3),
        None,
    ),
    (
        Terms { bytes: 3, ..PLAIN },
        "STRING(\"abd\")",
        "abcd",
        "line 1 column 1: string does not match (program line 1 column 1)",
        (1, 2),
        None,
    ),
    (
        Terms {
            bytes: 2,
            ..BLANKS_FAILING
        },
        "",
        "   ",
        "line 1 column 1: test data too long (program start)",
        (0, 2),
        None,
    ),
    // Data that never end.
    (
        ENDLESS,
        "INT(0,9)",
        "",
        "line 1 column 1: test data too long (program line 1 column 1)",
        (1, 1_000),
        Some((1_001, Seen::Going)),
    ),
    // The loop costs a step, and each turn one for itself and one for its STRING.
    (
        ENDLESS,
        "WHILE(1==1) STRING(\"1\") END",
        "",
        "line 1 column 1001: test data too long (program line 1 column 13)",
        (2_003, 1_000),
        Some((1_001, Seen::Going)),
    ),
    (
        Terms {
            steps: 100_000,
            bytes: u32::MAX,
            ..ENDLESS
        },
        "WHILE(1==1) STRING(\"1\") END",
        "",
        "line 1 column 50000: step limit reached (program line 1 column 13)",
        (100_000, 49_999),
        None,
    ),
];

/// Judges that a check ends as its row says.
fn judge_row(rt: &impl Abort, alloc: Global, row: &Row) -> Result<(), Fail> {
    let (terms, program, data, answer, paid, seen) = row;
    let found = checked(alloc, terms, program, data.as_bytes())?;
    let told = told(alloc, found.outcome)?;
    let read = (found.taken, found.seen);
    same(
        rt,
        &(told.as_str(), (found.steps, found.consumed), read),
        &(*answer, *paid, seen.unwrap_or(read)),
        &(program, data, terms.bytes),
    );
    Ok(())
}

/// Judges that checks end as their rows say.
pub(super) fn judge_rows(rt: &impl Abort, alloc: Global, rows: &[Row]) -> Result<(), Fail> {
    for row in rows {
        judge_row(rt, alloc, row)?;
    }
    Ok(())
}

/// A program, its answer, the bytes consumed and the most that may be taken.
type Reach = (&'static str, &'static str, u64, u64);

pub(super) const OUT_OF_RANGE: &str =
    "line 1 column 1: value out of range (program line 1 column 1)";

pub(super) const LEFT_OVER: &str = "line 1 column 2: expected end of file (program end)";

/// Judges a check of data that go on behind what it reads, with reads of this size.
fn judge_reach_by(
    rt: &impl Abort,
    alloc: Global,
    data: &[u8],
    reach: &Reach,
    most: usize,
) -> Result<(), Fail> {
    let (program, answer, consumed, most_taken) = *reach;
    let found = checked(alloc, &Terms { most, ..PLAIN }, program, data)?;
    let read = (found.consumed, found.taken <= most_taken, found.seen);
    let told = told(alloc, found.outcome)?;
    same(
        rt,
        &(told.as_str(), read),
        &(answer, (consumed, true, Seen::Going)),
        &(program, most),
    );
    Ok(())
}

/// The same, however reads are cut.
fn judge_reach(rt: &impl Abort, alloc: Global, data: &[u8], reach: &Reach) -> Result<(), Fail> {
    for most in &CUTS {
        judge_reach_by(rt, alloc, data, reach, *most)?;
    }
    Ok(())
}

#[test]
fn checks_end_as_the_rows_say(rt: HostRuntime) -> Result<(), Fail> {
    judge_rows(&rt, rt.alloc(), &ROWS)
}

/// Judges a check of data that begin with these bytes and go on with two million `x`.
fn judge_long(rt: &impl Abort, alloc: Global, front: &[u8], reach: &Reach) -> Result<(), Fail> {
    let mut data = Vec::new(alloc);
    data.extend_from_slice(front)?;
    data.resize(2_000_002, b'x')?;
    judge_reach(rt, alloc, data.as_slice(), reach)
}

static REACHES: [(&[u8], Reach); 3] = [
    (b"11", ("INT(0,9)", OUT_OF_RANGE, 2, 1_048_578)),
    (b"  ", ("SPACE", LEFT_OVER, 1, 65_537)),
    (b"xx", ("REGEX(\"x\")", LEFT_OVER, 1, 1_048_576)),
];

/// A look reads once, and a window reads no more than its 1,048,576 bytes.
#[test]
fn data_are_read_no_further_than_a_window(rt: HostRuntime) -> Result<(), Fail> {
    for (front, reach) in &REACHES {
        judge_long(&rt, rt.alloc(), front, reach)?;
    }
    Ok(())
}

/// Judges the checks by a plan of one number with its line, of which one may run out of memory.
fn judge_plan(rt: &impl Abort, alloc: Global, plan: &Plan) {
    let mut has_failed = false;
    for (data, accepted) in &[("5\n", true), ("5", false), ("5\n", true)] {
        match checked_by(alloc, &PLAIN, plan, data.as_bytes()) {
            Ok(found) => same(rt, &(found.outcome == Outcome::Accepted), accepted, data),
            Err(_) => {
                same(rt, &has_failed, &false, data);
                has_failed = true;
            }
        }
    }
}

/// The same by the plan of a program.
fn judge_plan_of(rt: &impl Abort, alloc: Global, program: &str) -> Result<(), Fail> {
    let plan = plan_of(alloc, program)?;
    judge_plan(rt, alloc, &plan);
    Ok(())
}

/// Where an allocation fails one of the checks may run out of memory, and those after it answer as ever.
#[test]
fn a_plan_serves_any_number_of_checks(rt: HostRuntime) -> Result<(), Fail> {
    for program in &[LINE_OF_ONE, "REGEX(\"[0-9]+\",n[1]) NEWLINE"] {
        judge_plan_of(&rt, rt.alloc(), program)?;
    }
    Ok(())
}
