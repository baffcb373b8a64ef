//! Parts of what is known.

ghost use Rattle.std.specs.Prelude.{◌≤ℤ◌, ℕ, All, IfOk, List};
ghost use Rattle.std.specs.Borrow.{Bor};
ghost use Rattle.ctd_elements.specs.calls.Blocks.{Stands};
ghost use Rattle.ctd_elements.specs.declared.fact.Fact.TheVariants.{Filled};
ghost use Rattle.ctd_store.specs.Store.{Bindings};
ghost use Rattle.ctd_store.specs.declared.value.Value.{Value};
ghost use Rattle.ctd_traps.specs.calls.Known.{IsOneOf, IsSo};
ghost use Rattle.ctd_guarantees.specs.inner.Parts.{FollowFrom, IsLineOf};

use ctd_elements::{Fact, Filling};
use ctd_range::Range;
use ctd_states::PossibleValues;
use ctd_traps::Known;
use std::alloc::{AllocError, Global};

/// A line: parts of what is known, in the order in which they are read. A range that ends at -2^127 or at 2^127-1 is open there.
#[derive(Drop)]
pub struct Guarantee {
    pub parts: Vec<Known>,
}

/// A part of what is known at a place: an entry by its index, and which ends of its range are told, or whether its bound is.
#[derive(Clone, Copy)]
pub(crate) struct Pick {
    pub(crate) entry: usize,
    pub(crate) with_least: bool,
    pub(crate) with_most: bool,
}

/// A range that is open at the ends that are not told.
fn open_range(range: Range, pick: Pick) -> Range
    ensures low { result.low ≤ℤ range.low }
    ensures high { range.high ≤ℤ result.high }
{
    Range {
        low: if pick.with_least {
            range.low
        } else {
            i128::MIN
        },
        high: if pick.with_most {
            range.high
        } else {
            i128::MAX
        },
        rise: 0,
        fall: 0,
    }
}

/// Possible values, of a range that is open at the ends that are not told.
fn open_values(possible: PossibleValues, pick: Pick) -> PossibleValues
    ensures { (v : Value) → IsOneOf possible v → IsOneOf result v }
{
    PossibleValues {
        text: possible.text,
        number: match possible.number {
            Some(range) => Some(open_range(range, pick)),
            None => None,
        },
    }
}

/// Elements that have values, of which no bound is known that is not told.
fn open_filling(filling: Filling, pick: Pick) -> Filling
    ensures { (names : List (Bor (List ℕ))) (h : Bindings) → Stands names h (Filled filling) → Stands names h (Filled result) }
{
    if pick.with_most {
        filling
    } else {
        Filling {
            most: None,
            ..filling
        }
    }
}

/// What is known, of ranges and bounds that are open at the ends that are not told.
fn open_part(known: Known, pick: Pick) -> Known
    ensures { (names : List (Bor (List ℕ))) (h : Bindings) → IsSo names h known → IsSo names h result }
{
    match known {
        Known::Has(i, possible) => Known::Has(i, open_values(possible, pick)),
        Known::MayHave(i, possible) => Known::MayHave(i, open_values(possible, pick)),
        Known::Elements(i, possible) => Known::Elements(i, open_values(possible, pick)),
        Known::Beside(Fact::Filled(filling)) => {
            Known::Beside(Fact::Filled(open_filling(filling, pick)))
        }
        Known::Beside(fact) => Known::Beside(fact),
    }
}

/// The parts of what is known that are picked.
fn parts_of(alloc: Global, known: &[Known], picks: &[Pick]) -> Result<Vec<Known>, AllocError>
    ensures { IfOk result (λ parts. FollowFrom known.now parts.items) }
{
    let mut parts = Vec::new(alloc);
    for pick in picks {
        if pick.entry < known.len() {
            parts.push(open_part(known[pick.entry], *pick))?;
        }
    }
    Ok(parts)
}

/// The lines of a plan.
pub(crate) fn lines_of(
    alloc: Global,
    known: &[Known],
    plan: &[Vec<Pick>],
) -> Result<Vec<Guarantee>, AllocError>
    ensures { IfOk result (λ lines. All (IsLineOf known.now) lines.items) }
{
    let mut lines = Vec::new(alloc);
    for picks in plan {
        let parts = parts_of(alloc, known, picks.as_slice())?;
        lines.push(Guarantee { parts })?;
    }
    Ok(lines)
}
