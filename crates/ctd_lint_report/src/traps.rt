//! How traps are written, and what they say of verdicts.

ghost use Rattle.std.specs.Prelude.{◌≡◌, ◌++◌, OnOk, IfOk, if◌then◌else◌, []};
ghost use Rattle.std.specs.List.{list_any};
ghost use Rattle.ctd_lint_report.specs.calls.Kinds.{is_unconditional, trap_name};
ghost use Rattle.ctd_lint_report.specs.calls.Reasons.{reason_of};
ghost use Rattle.ctd_lint_report.specs.calls.Report.{is_told};
ghost use Rattle.ctd_lint_report.specs.inner.Told.{is_among};
ghost use Rattle.ctd_lint_report.specs.calls.Text.{kept, verdict_entry};
ghost use Rattle.ctd_lint_report.specs.calls.Traps.{condition_text, every_text, is_kind_shown, is_open, is_place_before, is_same_place, is_shown, kept_traps, places_behind, places_text, some_element, some_shape, some_unconditional, tells_verdict, traps_lines, verdict_text};

use crate::entry::{write_trap, write_verdict};
use crate::kind::{LintKind, is_element, is_ignored, is_shape, is_unconditional, trap_name};
use crate::setup::{Form, LintSetup};
use crate::told::{Told, is_among, is_same_place, told_by};
use ctd_findings::Finding;
use ctd_states::TrapKind;
use ctd_token::Place;
use ctd_traps::Trap;
use itoa::Buffer;
use std::alloc::{AllocError, Global};

/// Whether traps of a kind are shown.
fn is_kind_shown(kind: TrapKind, setup: &LintSetup) -> bool
    ensures { result ≡ is_kind_shown setup.now (trap_name kind) }
{
    !is_ignored(trap_name(kind), setup.ignored.as_slice())
}

/// Whether a trap is shown, where findings tell these traps.
fn is_shown(setup: &LintSetup, told: &[Told], trap: &Trap) -> bool
    ensures { result ≡ is_shown setup.now (is_among told.now) trap.now }
{
    is_kind_shown(trap.kind, setup) && !is_among(told, trap)
}

/// What is written of the traps that are shown.
pub(crate) fn traps_text(
    alloc: Global,
    file: &[u8],
    setup: &LintSetup,
    found: &[Finding],
    names: &[&[u8]],
    traps: &[Trap],
) -> Result<Vec<u8>, AllocError>
    ensures { IfOk result (λ text. text.items ≡ traps_lines setup.now.form file.now (reason_of names.now) (kept_traps setup.now (is_told (kept setup.now.ignored.items found.now)) traps.now)) }
{
    let told = told_by(alloc, found, setup.ignored.as_slice())?;
    let mut text = Vec::new(alloc);
    for trap in traps {
        if is_shown(setup, told.as_slice(), trap) {
            write_trap(alloc, setup.form, file, names, trap, &mut text)?;
        }
    }
    Ok(text)
}

/// Whether some traps are neither of elements nor of arrays in UNIQUE.
fn some_unconditional(traps: &[Trap]) -> bool
    ensures { result ≡ some_unconditional traps.now }
{
    for trap in traps {
        if is_unconditional(trap.kind) {
            return true;
        }
    }
    false
}

/// Whether some traps are of elements.
fn some_element(traps: &[Trap]) -> bool
    ensures { result ≡ some_element traps.now }
{
    for trap in traps {
        if is_element(trap.kind) {
            return true;
        }
    }
    false
}

/// Whether some traps are of arrays in UNIQUE.
fn some_shape(traps: &[Trap]) -> bool
    ensures { result ≡ some_shape traps.now }
{
    for trap in traps {
        if is_shape(trap.kind) {
            return true;
        }
    }
    false
}

/// Under which condition each data file gets a verdict, by whether elements and arrays in UNIQUE are left.
fn condition_text(element: bool, shape: bool) -> &'static str
    ensures { result.now ≡ condition_text element shape }
{
    match (element, shape) {
        (false, false) => "",
        (true, false) => ", if elements have values where they are read",
        (false, true) => ", if arrays in UNIQUE have values at the same indices",
        (true, true) =>
            ", if elements have values where they are read, and arrays in UNIQUE at the same indices",
    }
}

/// Whether a place is that of the trap before, if there is one.
fn is_place_before(before: Option<Place>, place: Place) -> bool
    ensures { result ≡ is_place_before before place }
{
    match before {
        Some(before) => is_same_place(before, place),
        None => false,
    }
}

/// At how many places traps stand. Those one after the other at one place count once.
fn count_places(traps: &[Trap]) -> usize
    ensures { result ≡ places_behind None traps.now }
{
    let mut count = 0;
    let mut before = None;
    for trap in traps {
        if !is_place_before(before, trap.place) {
            count += 1;
        }
        before = Some(trap.place);
    }
    count
}

/// Appends that so many places may stop a run.
fn write_places(count: usize, text: &mut Vec<u8>) -> Result<(), AllocError>
    ensures { OnOk result (text.new.items ≡ text.old.items ++ places_text count) }
{
    text.extend_from_slice(b"places that may stop a run without a verdict: at most ")?;
    text.extend_from_slice(Buffer::new().format(count).as_bytes())
}

/// The condition that traps leave.
fn condition_of(traps: &[Trap]) -> &'static str
    ensures { result.now ≡ condition_text (some_element traps.now) (some_shape traps.now) }
{
    condition_text(some_element(traps), some_shape(traps))
}

/// Appends that each data file gets a verdict, under a condition.
fn write_every(condition: &str, text: &mut Vec<u8>) -> Result<(), AllocError>
    ensures { OnOk result (text.new.items ≡ text.old.items ++ every_text condition.now) }
{
    text.extend_from_slice(b"every data file gets a verdict")?;
    text.extend_from_slice(condition.as_bytes())
}

/// Appends what traps say of verdicts.
fn write_said(traps: &[Trap], said: &mut Vec<u8>) -> Result<(), AllocError>
    ensures { OnOk result (said.new.items ≡ said.old.items ++ verdict_text traps.now) }
{
    if some_unconditional(traps) {
        return write_places(count_places(traps), said);
    }
    write_every(condition_of(traps), said)
}

/// Whether verdicts are told of: where it is asked for, and always as JSON.
fn tells_verdict(setup: &LintSetup) -> bool
    ensures { result ≡ tells_verdict setup.now.form setup.now.verdicts }
{
    match setup.form {
        Form::Text => setup.verdicts,
        Form::Json => true,
    }
}

/// Appends what is written of verdicts, if they are told of.
pub(crate) fn write_verdict_of(
    alloc: Global,
    file: &[u8],
    setup: &LintSetup,
    traps: &[Trap],
    text: &mut Vec<u8>,
) -> Result<(), AllocError>
    ensures { OnOk result (text.new.items ≡ text.old.items ++ (if tells_verdict setup.now.form setup.now.verdicts then verdict_entry setup.now.form file.now (verdict_text traps.now) else [])) }
{
    if !tells_verdict(setup) {
        return Ok(());
    }
    let mut said = Vec::new(alloc);
    write_said(traps, &mut said)?;
    write_verdict(setup.form, file, said.as_slice(), text)
}

/// Whether traps of a kind leave open whether each data file gets a verdict.
fn is_open(kind: TrapKind, ignored: &[LintKind]) -> bool
    ensures { result ≡ is_open ignored.now kind }
{
    is_unconditional(kind) || !is_ignored(trap_name(kind), ignored)
}

/// Whether some traps leave that open.
pub(crate) fn some_open(traps: &[Trap], ignored: &[LintKind]) -> bool
    ensures { result ≡ list_any (λ t. is_open ignored.now t.kind) traps.now }
{
    for trap in traps {
        if is_open(trap.kind, ignored) {
            return true;
        }
    }
    false
}
