//! The traps that findings tell too.

ghost use Rattle.std.specs.Prelude.{◌≡◌, ◌||◌, false, [], ◌∷◌, IfOk, OnOk};
ghost use Rattle.ctd_lint_report.specs.calls.Kinds.{is_told_kind};
ghost use Rattle.ctd_lint_report.specs.calls.Report.{is_told};
ghost use Rattle.ctd_lint_report.specs.calls.Text.{kept};
ghost use Rattle.ctd_lint_report.specs.calls.Traps.{is_same_place};
ghost use Rattle.ctd_lint_report.specs.inner.Told.{is_among, tells_so};
ghost use Rattle.ctd_states.specs.declared.faults.TrapKind.{TrapKind};
ghost use Rattle.ctd_traps.specs.declared.trap.Trap.{Trap};

use crate::kind::{LintKind, is_ignored, is_told_kind};
use ctd_findings::{Finding, Kind};
use ctd_token::Place;
use ctd_traps::Trap;
use std::alloc::{AllocError, Global};

/// A finding that may tell traps: its place and its kind.
#[derive(Clone, Copy)]
pub(crate) struct Told {
    place: Place,
    kind: Kind,
}

/// Whether two places are the same.
pub(crate) fn is_same_place(a: Place, b: Place) -> bool
    ensures { result ≡ is_same_place a b }
{
    a.line == b.line && a.column == b.column
}

/// Whether findings of a kind may tell traps.
fn tells_traps(kind: Kind) -> bool
    ensures { result ≡ false → (trap : TrapKind) → is_told_kind kind trap ≡ false }
{
    matches!(kind, Kind::NoValue | Kind::WrongSort)
}

/// Adds a finding, if it may tell traps, and is not of a kind that is left out.
fn add_told(finding: &Finding, ignored: &[LintKind], told: &mut Vec<Told>) -> Result<(), AllocError>
    ensures { OnOk result ((t : Trap) → is_among told.new.items t ≡ (is_among told.old.items t || is_told (kept ignored.now (finding.now ∷ [])) t)) }
{
    let kind = finding.remark.kind;
    if !tells_traps(kind) {
        return Ok(());
    }
    if is_ignored(kind.name(), ignored) {
        return Ok(());
    }
    let place = finding.place;
    told.push(Told { place, kind })?;
    Ok(())
}

/// The findings that may tell traps, but for those of kinds that are left out.
pub(crate) fn told_by(
    alloc: Global,
    found: &[Finding],
    ignored: &[LintKind],
) -> Result<Vec<Told>, AllocError>
    ensures { IfOk result (λ told. (t : Trap) → is_among told.items t ≡ is_told (kept ignored.now found.now) t) }
{
    let mut told = Vec::new(alloc);
    for finding in found {
        add_told(finding, ignored, &mut told)?;
    }
    Ok(told)
}

/// Whether a finding tells a trap too.
fn tells(told: Told, trap: &Trap) -> bool
    ensures { result ≡ tells_so told trap.now }
{
    is_same_place(told.place, trap.place) && is_told_kind(told.kind, trap.kind)
}

/// Whether one of some findings tells a trap too.
pub(crate) fn is_among(told: &[Told], trap: &Trap) -> bool
    ensures { result ≡ is_among told.now trap.now }
{
    for one in told {
        if tells(*one, trap) {
            return true;
        }
    }
    false
}
