//! The kinds of traps, and the kinds that the command line names.

ghost use Rattle.std.specs.Prelude.{◌≡◌};
ghost use Rattle.ctd_lint_report.specs.calls.Kinds.{is_element, is_ignored, is_mistyped, is_shape, is_told_kind, is_unconditional, is_valueless, lint_kind_name, lint_kind_named, rank_text, trap_name, trap_named_among, trap_text};

use ctd_findings::{Kind, Rank};
use ctd_states::TrapKind;

/// All kinds of traps.
const TRAPS: [TrapKind; 8] = [
    TrapKind::NoValue,
    TrapKind::NoElement,
    TrapKind::WrongType,
    TrapKind::Overflow,
    TrapKind::DivisionByZero,
    TrapKind::BadExponent,
    TrapKind::BadCount,
    TrapKind::OtherShape,
];

/// The kind of a finding or of a trap.
#[derive(Clone, Copy)]
pub enum LintKind {
    /// A likely mistake.
    Finding(Kind),
    /// Where a run may stop without a verdict.
    Trap(TrapKind),
}

/// The word of a rank.
pub(crate) fn rank_text(rank: Rank) -> &'static str
    ensures { result.now ≡ rank_text rank }
{
    match rank {
        Rank::Note => "note",
        Rank::Warning => "warning",
    }
}

/// The name of a kind of traps, as `bad-count`.
pub(crate) fn trap_name(kind: TrapKind) -> &'static str
    ensures { result.now ≡ trap_name kind }
{
    match kind {
        TrapKind::NoValue => "no-value-here",
        TrapKind::NoElement => "no-element-here",
        TrapKind::WrongType => "wrong-type-here",
        TrapKind::Overflow => "overflow",
        TrapKind::DivisionByZero => "division-by-zero",
        TrapKind::BadExponent => "bad-exponent",
        TrapKind::BadCount => "bad-count",
        TrapKind::OtherShape => "other-shape",
    }
}

/// What a kind of traps says, without the reason.
pub(crate) fn trap_text(kind: TrapKind) -> &'static str
    ensures { result.now ≡ trap_text kind }
{
    match kind {
        TrapKind::NoValue => "may be without a value here",
        TrapKind::NoElement => "may have an element without a value here",
        TrapKind::WrongType =>
            "may be a string here where a number is wanted, or a number where a string is wanted",
        TrapKind::Overflow => "may overflow",
        TrapKind::DivisionByZero => "may divide by zero",
        TrapKind::BadExponent => "may be a bad exponent",
        TrapKind::BadCount => "may be a bad count",
        TrapKind::OtherShape => "may be arrays with different indices",
    }
}

/// Whether a trap is that of an element without a value.
pub(crate) fn is_element(kind: TrapKind) -> bool
    ensures { result ≡ is_element kind }
{
    matches!(kind, TrapKind::NoElement)
}

/// Whether a trap is that of arrays in UNIQUE.
pub(crate) fn is_shape(kind: TrapKind) -> bool
    ensures { result ≡ is_shape kind }
{
    matches!(kind, TrapKind::OtherShape)
}

/// Whether a trap is that of a variable without a value.
fn is_valueless(kind: TrapKind) -> bool
    ensures { result ≡ is_valueless kind }
{
    matches!(kind, TrapKind::NoValue)
}

/// Whether a trap is of a wrong type.
fn is_mistyped(kind: TrapKind) -> bool
    ensures { result ≡ is_mistyped kind }
{
    matches!(kind, TrapKind::WrongType)
}

/// Whether a finding of a kind tells a trap of a kind too.
pub(crate) fn is_told_kind(kind: Kind, trap: TrapKind) -> bool
    ensures { result ≡ is_told_kind kind trap }
{
    match kind {
        Kind::NoValue => is_valueless(trap),
        Kind::WrongSort => is_mistyped(trap),
        _ => false,
    }
}

/// Whether a trap is neither of an element nor of arrays in UNIQUE.
pub(crate) fn is_unconditional(kind: TrapKind) -> bool
    ensures { result ≡ is_unconditional kind }
{
    !matches!(kind, TrapKind::NoElement | TrapKind::OtherShape)
}

/// The first of some kinds of traps that has this name.
fn trap_named_among(kinds: &[TrapKind], name: &str) -> Option<TrapKind>
    ensures { result ≡ trap_named_among kinds.now name.now }
{
    for kind in kinds {
        if trap_name(*kind) == name {
            return Some(*kind);
        }
    }
    None
}

impl LintKind {
    /// The name of a kind.
    pub(crate) fn name(self) -> &'static str
        ensures { result.now ≡ lint_kind_name self }
    {
        match self {
            LintKind::Finding(kind) => kind.name(),
            LintKind::Trap(kind) => trap_name(kind),
        }
    }

    /// The kind of this name, if there is one.
    pub fn named(name: &str) -> Option<LintKind>
        ensures { result ≡ lint_kind_named name.now }
    {
        match Kind::named(name) {
            Some(kind) => Some(LintKind::Finding(kind)),
            None => match trap_named_among(&TRAPS, name) {
                Some(kind) => Some(LintKind::Trap(kind)),
                None => None,
            },
        }
    }
}

/// Whether what has a kind of this name is left out.
pub(crate) fn is_ignored(name: &str, ignored: &[LintKind]) -> bool
    ensures { result ≡ is_ignored ignored.now name.now }
{
    for left_out in ignored {
        if left_out.name() == name {
            return true;
        }
    }
    false
}
