//! The ends of the limits of a check.

use crate::tests::checks::{LINE_OF_ONE, PLAIN, Row, Terms, checked, judge_rows, plan_of};
use crate::tests::readers::Behind;
use crate::tests::same;
use ctd_check::{Fault, FromRead, Limits, Mode, Outcome, Presets, Seen, check};
use std::test::Fail;

/// The terms under which spaces come without end, of which a thousand bytes may be looked at.
const SPACES: Terms = Terms {
    bytes: 1_000,
    behind: Behind::Spaces,
    ..PLAIN
};

const ROWS: [Row; 8] = [
    // As many bytes as the limit, or one fewer.
    (
        Terms { bytes: 3, ..PLAIN },
        "STRING(\"abc\")",
        "abc",
        "ok",
        (2, 3),
        None,
    ),
    (
        Terms { bytes: 3, ..PLAIN },
        LINE_OF_ONE,
        "5\n",
        "ok",
        (3, 2),
        Some((2, Seen::Ended)),
    ),
    (Terms { bytes: 0, ..PLAIN }, "", "", "ok", (1, 0), None),
    (
        Terms { bytes: 0, ..PLAIN },
        "",
        "x",
        "line 1 column 1: test data too long (program end)",
        (1, 0),
        None,
    ),
    // The loop costs a step, and each turn one for itself and one for its SPACE.
    (
        SPACES,
        "WHILE(!ISEOF) SPACE END",
        "",
        "line 1 column 1001: test data too long (program line 1 column 1)",
        (2_002, 1_000),
        Some((1_001, Seen::Going)),
    ),
    (
        Terms {
            steps: 2_001,
            ..SPACES
        },
        "WHILE(!ISEOF) SPACE END",
        "",
        "line 1 column 1001: step limit reached (program line 1 column 1)",
        (2_001, 1_000),
        None,
    ),
    (
        Terms { most: 1, ..PLAIN },
        "REGEX(\"a\") STRING(\"b\")",
        "ab",
        "ok",
        (3, 2),
        Some((2, Seen::Ended)),
    ),
    (
        Terms { steps: 0, ..PLAIN },
        "",
        "",
        "line 1 column 1: step limit reached (program end)",
        (0, 0),
        None,
    ),
];

#[test]
fn limits_hold_at_their_ends(rt: HostRuntime) -> Result<(), Fail> {
    judge_rows(&rt, rt.alloc(), &ROWS)
}

#[test]
fn the_greatest_limits_stop_nothing(rt: HostRuntime) -> Result<(), Fail> {
    let plan = plan_of(rt.alloc(), LINE_OF_ONE)?;
    let limits = Limits {
        steps: u64::MAX,
        bytes: 4_611_686_018_427_387_904,
    };
    let presets = Presets::none(rt.alloc());
    let mut data = FromRead::new(b"5\n".as_slice());
    let found = check(rt.alloc(), &plan, &presets, &mut data, limits, Mode::Exact)?;
    same(
        &rt,
        &(found.outcome, found.steps, found.consumed),
        &(Outcome::Accepted, 3, 2),
        &"the greatest limits",
    );
    Ok(())
}

/// A program, data that it accepts, and the steps that it takes.
const STEPS: [(&str, &str, u64); 3] = [
    (
        "WHILE(!MATCH(\"\\n\"),SPACE) INT(0,9) END NEWLINE",
        "1 2 3\n",
        12,
    ),
    ("REP(2) SPACE END", "  ", 7),
    (
        "REPI(i,3,IF(i==1) SPACE ELSE NEWLINE END) INT(0,9) END",
        "1 2\n3",
        13,
    ),
];

/// Whether an outcome is that the step limit was reached.
fn is_step_limit(outcome: Outcome) -> bool {
    match outcome {
        Outcome::Stopped { fault, .. } => fault == Fault::StepLimit,
        _ => false,
    }
}

#[test]
fn a_limit_below_the_steps_is_paid_whole(rt: HostRuntime) -> Result<(), Fail> {
    for (program, data, wanted) in &STEPS {
        for steps in 0..=*wanted {
            let terms = Terms { steps, ..PLAIN };
            let found = checked(rt.alloc(), &terms, program, data.as_bytes())?;
            same(
                &rt,
                &(found.steps, is_step_limit(found.outcome)),
                &(steps, steps < *wanted),
                &(program, steps),
            );
        }
    }
    Ok(())
}
