//! What never happens at a command, by the list of the analysis, and which findings that backs.

ghost use Rattle.std.specs.Prelude.{◌≡◌, true, List};
ghost use Rattle.ctd_token.specs.declared.text.Place.{Place};
ghost use Rattle.ctd_findings.specs.calls.Findings.{Says};
ghost use Rattle.ctd_findings.specs.inner.Never.{AllHave, IsSaid};
ghost use Rattle.ctd_traps.specs.declared.note.Note.{Note};

use crate::kind::Kind;
use ctd_token::Place;
use ctd_traps::{EventKind, Note};

/// Which events never happen at a place.
#[derive(Clone, Copy)]
pub(crate) struct NeverAt {
    pub(crate) begins: bool,
    pub(crate) goes_on: bool,
    pub(crate) is_true: bool,
    pub(crate) is_false: bool,
}

/// Each event may happen.
const ALL_MAY_HAPPEN: NeverAt = NeverAt {
    begins: false,
    goes_on: false,
    is_true: false,
    is_false: false,
};

/// The same, and one event more.
fn with_event(at: NeverAt, kind: EventKind) -> NeverAt
    ensures { (never : List Note) (place : Place) → AllHave at (IsSaid never place) → IsSaid never place kind → AllHave result (IsSaid never place) }
{
    match kind {
        EventKind::Begins => NeverAt { begins: true, ..at },
        EventKind::GoesOn => NeverAt {
            goes_on: true,
            ..at
        },
        EventKind::IsTrue => NeverAt {
            is_true: true,
            ..at
        },
        EventKind::IsFalse => NeverAt {
            is_false: true,
            ..at
        },
    }
}

/// Whether two places are the same.
fn is_same_place(a: Place, b: Place) -> bool
    ensures { result ≡ true → a ≡ b }
{
    a.line == b.line && a.column == b.column
}

/// What never happens at a place, by the notes from an index on that are about it, and the index behind these.
pub(crate) fn never_at(never: &[Note], from: usize, place: Place) -> (NeverAt, usize)
    ensures { AllHave result.0 (IsSaid never.now place) }
{
    let mut at = ALL_MAY_HAPPEN;
    let mut next = from;
    while next < never.len() && is_same_place(never[next].place, place) {
        at = with_event(at, never[next].kind);
        next += 1;
    }
    (at, next)
}

/// Whether a finding of a kind may be told where these events never happen.
pub(crate) fn is_backed(kind: Kind, at: NeverAt) -> bool
    ensures { result ≡ true → (never : List Note) (place : Place) → AllHave at (IsSaid never place) → Says kind (IsSaid never place) }
{
    match kind {
        Kind::Unreachable => at.begins,
        Kind::AlwaysTrue | Kind::RangeTrue | Kind::RepeatsBounds => at.is_false,
        Kind::AlwaysFalse | Kind::RangeFalse => at.is_true,
        Kind::EmptyRange => at.goes_on,
        Kind::WrongSort => at.goes_on || (at.is_true && at.is_false),
        _ => true,
    }
}
