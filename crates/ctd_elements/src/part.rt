//! Whether blocks are parts of others, and whether they are empty.

ghost use Rattle.std.specs.Prelude.{◌≡◌, pos, true, None, Option, Some, IfSome};
ghost use Rattle.ctd_states.specs.calls.States.{named_values};
ghost use Rattle.ctd_elements.specs.calls.Blocks.{block_at};
ghost use Rattle.ctd_elements.specs.declared.fact.Index.TheVariants as indices;
ghost use Rattle.ctd_elements.specs.declared.fact.Side.{Side};
ghost use Rattle.ctd_elements.specs.declared.fact.Side.TheVariants as sides;
ghost use Rattle.ctd_elements.specs.inner.Parts.{IsEmpty, IsEmptyBlock, IsInside, IsSecondPart, IsTighter};
ghost use Rattle.ctd_elements.specs.calls.Orders.{IsBefore, IsBehind, IsExceptedBy, IsNext, IsNumberOf, IsPart};

use crate::fact::{AbstractState, Block, Bound, Cell, Index, Interval, Side, Term};
use crate::order::{is_at_most, is_sure, lacks_number};
use crate::same::is_same;
use ctd_states::AbstractValue;

/// The bound that is one more.
pub fn next(b: Bound) -> Option<Bound>
    ensures { IfSome result (λ c. IsNext b c) }
{
    let add = b.add.checked_add(1)?;
    Some(Bound { term: b.term, add })
}

/// Whether a bound has a number that is at most that of another, wherever that has one.
pub fn is_before(state: AbstractState, b: Bound, a: Bound) -> bool
    ensures { result ≡ true → IsBefore state.entry b a }
{
    if is_same(b, a) {
        return true;
    }
    if !is_sure(state, b) {
        return false;
    }
    is_at_most(state, b, a)
}

/// Whether a bound has a number that is at least that of another, wherever that has one.
pub fn is_behind(state: AbstractState, b: Bound, a: Bound) -> bool
    ensures { result ≡ true → IsBehind state.entry b a }
{
    if is_same(b, a) {
        return true;
    }
    if !is_sure(state, b) {
        return false;
    }
    is_at_most(state, a, b)
}

/// Whether a name has no string.
fn has_no_text(value: AbstractValue) -> bool
    ensures { result ≡ true → value.alone.text ≡ None }
{
    value.alone.text.is_none()
}

/// The bound of an index, if it can only be a number.
pub fn number_of(state: AbstractState, index: Index) -> Option<Bound>
    ensures { IfSome result (λ b. IsNumberOf state.entry index b) }
{
    match index {
        Index::Number(b) => Some(b),
        Index::Value(name) => match state.entries.get(name) {
            Some(value) => {
                if has_no_text(*value) {
                    Some(bound_of(name))
                } else {
                    None
                }
            }
            None => None,
        },
        Index::Text(_) => None,
    }
}

/// The number of a name.
pub fn bound_of(name: usize) -> Bound
    ensures { result ≡ record { term = Some (record { name = name; times = 1 }); add = pos 0 } }
{
    Bound {
        term: Some(Term { name, times: 1 }),
        add: 0,
    }
}

/// Whether the number of a bound lies in an interval.
fn number_is_part(state: AbstractState, a: Bound, b: Interval) -> bool
    ensures { result ≡ true → IsPart state.entry (sides.At (indices.Number a)) (sides.Between b) }
{
    if !is_before(state, b.low, a) {
        return false;
    }
    match next(a) {
        Some(above) => is_behind(state, b.high, above),
        None => false,
    }
}

/// Whether an index lies in an interval.
fn index_is_part(state: AbstractState, a: Index, b: Interval) -> bool
    ensures { result ≡ true → IsPart state.entry (sides.At a) (sides.Between b) }
{
    match number_of(state, a) {
        Some(number) => number_is_part(state, number, b),
        None => false,
    }
}

/// Whether one interval is part of another.
fn interval_is_part(state: AbstractState, a: Interval, b: Interval) -> bool
    ensures { result ≡ true → IsPart state.entry (sides.Between a) (sides.Between b) }
{
    if !is_before(state, b.low, a.low) {
        return false;
    }
    is_behind(state, b.high, a.high)
}

/// Whether an interval has no other number than that of a bound.
fn interval_is_number(state: AbstractState, a: Interval, b: Bound) -> bool
    ensures { result ≡ true → IsPart state.entry (sides.Between a) (sides.At (indices.Number b)) }
{
    if !is_before(state, b, a.low) {
        return false;
    }
    match next(b) {
        Some(above) => is_behind(state, above, a.high),
        None => false,
    }
}

/// Whether an interval has no other number than an index.
fn interval_is_index(state: AbstractState, a: Interval, b: Index) -> bool
    ensures { result ≡ true → IsPart state.entry (sides.Between a) (sides.At b) }
{
    match b {
        Index::Number(number) => interval_is_number(state, a, number),
        _ => false,
    }
}

/// Whether an index can only be the number of a bound.
fn index_is_number(state: AbstractState, a: Index, b: Bound) -> bool
    ensures { result ≡ true → IsPart state.entry (sides.At a) (sides.At (indices.Number b)) }
{
    match number_of(state, a) {
        Some(number) => is_before(state, b, number) && is_behind(state, b, number),
        None => false,
    }
}

/// Whether an index can only be another.
pub(crate) fn is_same_index(state: AbstractState, a: Index, b: Index) -> bool
    ensures { result ≡ true → IsPart state.entry (sides.At a) (sides.At b) }
{
    match b {
        Index::Number(number) => index_is_number(state, a, number),
        Index::Value(name) => match a {
            Index::Value(own) => own == name,
            _ => false,
        },
        Index::Text(text) => match a {
            Index::Text(own) => own == text,
            _ => false,
        },
    }
}

/// Whether one side is part of another.
pub fn is_part(state: AbstractState, a: Side, b: Side) -> bool
    ensures { result ≡ true → IsPart state.entry a b }
{
    match a {
        Side::Between(s) => match b {
            Side::Between(t) => interval_is_part(state, s, t),
            Side::At(index) => interval_is_index(state, s, index),
        },
        Side::At(own) => match b {
            Side::Between(t) => index_is_part(state, own, t),
            Side::At(index) => is_same_index(state, own, index),
        },
    }
}

/// Whether each side is part of another, if there is one.
fn is_second_part(state: AbstractState, a: Option<Side>, b: Option<Side>) -> bool
    ensures { result ≡ true → IsSecondPart state.entry a b }
{
    match a {
        Some(side) => match b {
            Some(other) => is_part(state, side, other),
            None => false,
        },
        None => b.is_none(),
    }
}

/// Whether one block is part of another.
pub(crate) fn is_inside(state: AbstractState, a: Block, b: Block) -> bool
    ensures { result ≡ true → IsInside state.entry a b }
{
    if !is_part(state, a.first, b.first) {
        return false;
    }
    is_second_part(state, a.second, b.second)
}

/// Whether one block, if there is one, is part of another.
pub fn is_excepted(state: AbstractState, a: Option<Block>, b: Option<Block>) -> bool
    ensures { result ≡ true → IsExceptedBy state.entry a b }
{
    match a {
        Some(block) => match b {
            Some(other) => is_inside(state, block, other),
            None => false,
        },
        None => true,
    }
}

/// Whether nothing is on a side.
fn is_empty(state: AbstractState, side: Side) -> bool
    ensures { result ≡ true → IsEmpty state.entry side }
{
    match side {
        Side::Between(s) => {
            if lacks_number(state, s.low) {
                return true;
            }
            if lacks_number(state, s.high) {
                return true;
            }
            is_at_most(state, s.high, s.low)
        }
        Side::At(Index::Number(b)) => lacks_number(state, b),
        Side::At(_) => false,
    }
}

/// Whether nothing is on a side, if there is one.
fn second_is_empty(state: AbstractState, side: Option<Side>) -> bool
    ensures { result ≡ true → (t : Side) × (side ≡ Some t) × IsEmpty state.entry t }
{
    match side {
        Some(second) => is_empty(state, second),
        None => false,
    }
}

/// Whether nothing is in a block.
pub(crate) fn is_empty_block(state: AbstractState, block: Block) -> bool
    ensures { result ≡ true → IsEmptyBlock state.entry block }
{
    if is_empty(state, block.first) {
        return true;
    }
    second_is_empty(state, block.second)
}

/// Whether a greatest value, if there is one, is at least another.
pub(crate) fn is_tighter(state: AbstractState, own: Option<Bound>, wanted: Option<Bound>) -> bool
    ensures { result ≡ true → IsTighter state.entry own wanted }
{
    match wanted {
        Some(most) => match own {
            Some(bound) => is_before(state, bound, most),
            None => false,
        },
        None => true,
    }
}

/// The block of a cell.
pub fn block_of(cell: Cell) -> Block
    ensures { result ≡ block_at cell }
{
    let second = match cell.second {
        Some(index) => Some(Side::At(index)),
        None => None,
    };
    Block {
        first: Side::At(cell.first),
        second,
    }
}
