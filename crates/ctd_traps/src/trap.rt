//! A trap: where a run may stop, and by which fault.

ghost use Rattle.std.specs.Prelude.{◌≡◌, ◌<◌, ◌≤◌, true, get_or, length, OnOk, IfOk, IfErr, Contains};
ghost use Rattle.ctd_traps.specs.calls.Traps.{fault_of, fault_of_kind, faults_of};
ghost use Rattle.ctd_traps.specs.inner.Holds.{AreListed, ArePart};
ghost use Rattle.ctd_states.specs.calls.Faults.{IsOfKind};

use ctd_states::{Faults, Operand, TrapKind, has, join_operands};
use ctd_token::Place;
use std::alloc::AllocError;

/// The place of a command at which a run may stop, how, and the variable that is to blame, where there is one: the first of its kind in the command.
/// Its name is the one at its index in the names of the traps.
#[derive(Clone, Copy)]
pub struct Trap {
    pub place: Place,
    pub kind: TrapKind,
    pub operand: Option<Operand>,
}

/// The kinds of traps.
const KINDS: [TrapKind; 8] = [
    TrapKind::NoValue,
    TrapKind::NoElement,
    TrapKind::WrongType,
    TrapKind::Overflow,
    TrapKind::DivisionByZero,
    TrapKind::BadExponent,
    TrapKind::BadCount,
    TrapKind::OtherShape,
];

/// A name, or an array, of whose values nothing is told.
fn named(index: Option<usize>) -> Option<Operand> {
    Some(Operand {
        name: index?,
        is_element: false,
        least: None,
        most: None,
    })
}

/// The same variable, of whose values nothing is told.
fn name_alone(operand: Option<Operand>) -> Option<Operand> {
    Some(Operand {
        least: None,
        most: None,
        ..operand?
    })
}

/// The variable that is to blame for a kind of faults, if there is one.
fn operand_of(faults: &Faults, kind: TrapKind) -> Option<Operand> {
    let blame = faults.blame;
    match kind {
        TrapKind::NoValue => named(blame.no_value),
        TrapKind::NoElement => named(blame.no_element),
        TrapKind::WrongType => name_alone(blame.wrong_type),
        TrapKind::Overflow => blame.overflow,
        TrapKind::DivisionByZero => blame.division_by_zero,
        TrapKind::BadExponent => blame.exponent,
        TrapKind::BadCount => blame.count,
        TrapKind::OtherShape => None,
    }
}

/// Whether two kinds of traps are the same.
fn is_kind(a: TrapKind, b: TrapKind) -> bool
    ensures { result ≡ true → a ≡ b }
{
    match a {
        TrapKind::NoValue => matches!(b, TrapKind::NoValue),
        TrapKind::NoElement => matches!(b, TrapKind::NoElement),
        TrapKind::WrongType => matches!(b, TrapKind::WrongType),
        TrapKind::Overflow => matches!(b, TrapKind::Overflow),
        TrapKind::DivisionByZero => matches!(b, TrapKind::DivisionByZero),
        TrapKind::BadExponent => matches!(b, TrapKind::BadExponent),
        TrapKind::BadCount => matches!(b, TrapKind::BadCount),
        TrapKind::OtherShape => matches!(b, TrapKind::OtherShape),
    }
}

/// Of some traps in the order of the text, how many stand before a place.
fn count_before(place: Place, traps: &[Trap]) -> usize
    ensures { result ≤ length traps.now }
{
    traps.partition_point(|trap: &Trap| -> bool {
        (trap.place.line, trap.place.column) < (place.line, place.column)
    })
}

/// Where the trap of a kind at a place stands in a list in the order of the text, or else where it has to stand.
fn search(place: Place, kind: TrapKind, traps: &[Trap]) -> Result<usize, usize>
    ensures inside { IfOk result (λ i. i < length traps.now) }
    ensures same { IfOk result (λ i. (t : Trap) → t ≡ get_or traps.now i t → fault_of t ≡ record { place = place; fault = fault_of_kind kind }) }
    ensures free { IfErr result (λ i. i ≤ length traps.now) }
{
    for i in count_before(place, traps)..traps.len() {
        if traps[i].place != place {
            return Err(i);
        }
        if is_kind(traps[i].kind, kind) {
            return Ok(i);
        }
    }
    Err(traps.len())
}

/// Adds a trap to a list in the order of the text. If it is listed, what is to blame is to blame by both.
pub(crate) fn add_trap(trap: Trap, traps: &mut Vec<Trap>) -> Result<(), AllocError>
    ensures more { OnOk result (ArePart (faults_of traps.old.items) (faults_of traps.new.items)) }
    ensures listed { OnOk result (Contains (faults_of traps.new.items) (fault_of trap)) }
{
    match search(trap.place, trap.kind, traps.as_slice()) {
        Ok(i) => {
            let old = traps.remove(i);
            let operand = join_operands(old.operand, trap.operand);
            traps.insert(i, Trap { operand, ..trap })?;
        }
        Err(i) => traps.insert(i, trap)?,
    }
    Ok(())
}

/// Adds each of some traps to a list in the order of the text.
pub(crate) fn add_traps(more: &[Trap], traps: &mut Vec<Trap>) -> Result<(), AllocError>
    ensures more { OnOk result (ArePart (faults_of traps.old.items) (faults_of traps.new.items)) }
    ensures added { OnOk result (ArePart (faults_of more.now) (faults_of traps.new.items)) }
{
    for trap in more {
        add_trap(*trap, traps)?;
    }
    Ok(())
}

/// Adds a trap of a kind to a list in the order of the text, if there is such a fault.
fn report_kind(
    place: Place,
    faults: &Faults,
    kind: TrapKind,
    traps: &mut Vec<Trap>,
) -> Result<(), AllocError>
    ensures more { OnOk result (ArePart (faults_of traps.old.items) (faults_of traps.new.items)) }
    ensures listed { OnOk result (IsOfKind faults.now kind → Contains (faults_of traps.new.items) (record { place = place; fault = fault_of_kind kind })) }
{
    if !has(faults, kind) {
        return Ok(());
    }
    let operand = operand_of(faults, kind);
    let trap = Trap {
        place,
        kind,
        operand,
    };
    add_trap(trap, traps)
}

/// Adds a trap for each of some faults at a place to a list in the order of the text.
pub(crate) fn report(place: Place, faults: Faults, traps: &mut Vec<Trap>) -> Result<(), AllocError>
    ensures more { OnOk result (ArePart (faults_of traps.old.items) (faults_of traps.new.items)) }
    ensures listed { OnOk result (AreListed (faults_of traps.new.items) place faults) }
{
    for kind in &KINDS {
        report_kind(place, &faults, *kind, traps)?;
    }
    Ok(())
}
