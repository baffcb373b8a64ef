//! The words of the command line, and the settings that they give.

use crate::tests::same;
use ctd_check::{Bytes, Limits, Mode};
use ctd_syntax::{Preset, PresetValue};
use ctd_tool::{Setup, UsageFault, settings};
use std::alloc::{AllocError, Global};
use std::process::Abort;
use std::test::Fail;

/// Adds a word.
fn add_word(alloc: Global, list: &mut Vec<Bytes>, word: &[u8]) -> Result<(), AllocError> {
    list.push(Bytes::copy(alloc, word)?)?;
    Ok(())
}

/// The words of a line, each as bytes, behind the program's own name; a blank stands between two.
pub(crate) fn words_of(alloc: Global, line: &[u8]) -> Result<Vec<Bytes>, AllocError> {
    let mut list = Vec::new(alloc);
    add_word(alloc, &mut list, b"checktestdata")?;
    if line.is_empty() {
        return Ok(list);
    }
    for word in line.split(|byte| *byte == b' ') {
        add_word(alloc, &mut list, word)?;
    }
    Ok(list)
}

/// Files, mode, whether to be quiet, and the limits; the data are `-` for standard input.
type Facts<'f> = (&'f [u8], &'f [u8], Mode, bool, Limits);

/// What the settings of a program's file alone say.
const PLAIN: Facts<'static> = (
    b"p.ctd",
    b"-",
    Mode::Exact,
    false,
    Limits {
        steps: 10_000_000_000,
        bytes: 1_099_511_627_776,
    },
);

/// What the settings of all options say.
const ALL: Facts<'static> = (
    b"p.ctd",
    b"d.in",
    Mode::BlanksOk,
    true,
    Limits {
        steps: 7,
        bytes: 1_099_511_627_776,
    },
);

/// Whether settings say this.
fn says(setup: &Setup, facts: Facts<'_>) -> bool {
    let testdata = match &setup.testdata {
        Some(name) => name.as_slice(),
        None => b"-",
    };
    let program = setup.program.as_slice();
    (program, testdata, setup.mode, setup.quiet, setup.limits) == facts
}

/// Whether a preset has no indices, and these three bytes as its value.
fn is_string(preset: &Preset) -> bool {
    match (preset.indices.as_slice(), &preset.value) {
        ([], PresetValue::Text(text)) => text.as_slice() == b"a,b".as_slice(),
        _ => false,
    }
}

/// Whether a preset has the indices 1 and 2, and -3 as its value.
fn is_element(preset: &Preset) -> bool {
    match (preset.indices.as_slice(), &preset.value) {
        ([PresetValue::Int(row), PresetValue::Int(column)], PresetValue::Int(n)) => {
            (*row, *column, *n) == (1, 2, -3)
        }
        _ => false,
    }
}

/// Whether presets are none, or else a string and an element.
fn are_pinned(pins: &[Preset], pinned: bool) -> bool {
    match pins {
        [] => !pinned,
        [first, second] => pinned && is_string(first) && is_element(second),
        _ => false,
    }
}

/// Whether words give settings that say this, with these presets or none.
fn give(
    alloc: Global,
    words: &[Bytes],
    facts: Facts<'_>,
    pinned: bool,
) -> Result<bool, AllocError> {
    match settings(alloc, words) {
        Ok(setup) => Ok(says(&setup, facts) && are_pinned(setup.presets.pins(), pinned)),
        Err(UsageFault::Memory) => Err(AllocError),
        Err(_) => Ok(false),
    }
}

/// Judges what the words of a line give.
fn judge(
    rt: &impl Abort,
    alloc: Global,
    line: &str,
    facts: Facts<'_>,
    pinned: bool,
) -> Result<(), AllocError> {
    let words = words_of(alloc, line.as_bytes())?;
    let is = give(alloc, words.as_slice(), facts, pinned)?;
    same(rt, &is, &true, &line);
    Ok(())
}

#[test]
fn words_give_settings(rt: HostRuntime) -> Result<(), Fail> {
    judge(&rt, rt.alloc(), "p.ctd", PLAIN, false)?;
    let line = "--define=s=\"a,b\",m[1,2]=-3 --max-steps=7 -w p.ctd -q d.in";
    judge(&rt, rt.alloc(), line, ALL, true)?;
    Ok(())
}
