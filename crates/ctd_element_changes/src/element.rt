//! The facts once an element got a value.

ghost use Rattle.std.specs.Prelude.{◌≡◌, true, None, Some, IfOk, IfSome};
ghost use Rattle.ctd_elements.specs.declared.fact.Fact.TheVariants as facts;
ghost use Rattle.ctd_elements.specs.declared.fact.Index.TheVariants as indices;
ghost use Rattle.ctd_elements.specs.declared.fact.Side.TheVariants as sides;
ghost use Rattle.ctd_element_changes.specs.calls.Changes.{GivesElement};
ghost use Rattle.ctd_elements.specs.calls.Blocks.{block_at};
ghost use Rattle.ctd_elements.specs.calls.States.{Implies};
ghost use Rattle.ctd_element_changes.specs.inner.Elements.{HasCell, IsCellIn, IsMissingKey, IsSmall, KeysComplete, LeavesRest, StandsButFirst, StandsButOne, StandsButSecond, StandsWith, ValuesComplete};

use ctd_elements::{
    AbstractState, Block, Bound, Cell, Fact, Filling, Index, Interval, Keys, Limits, Side, Source,
    block_of, follows, has_key, is_before, is_behind, is_excepted, is_part, is_same_name, is_up_to,
    next, number_of, with_first, with_second,
};
use std::alloc::{AllocError, Global};

/// An element that gets a value: its array; its cell, if that can be said; the element that has its one index as a value, if there is such; and whether
/// no preset pins an element of the array.
#[derive(Clone, Copy)]
pub struct Target {
    pub array: usize,
    pub cell: Option<Cell>,
    pub source: Option<Source>,
    pub is_free: bool,
}

/// The numbers of an interval below one that may be the last.
fn rest_below(state: AbstractState, s: Interval, at: Bound) -> Option<Interval>
    ensures { IfSome result (λ rest. LeavesRest state.entry (sides.Between s) (indices.Number at) (sides.Between rest)) }
{
    if !is_behind(state, next(at)?, s.high) {
        return None;
    }
    Some(Interval {
        low: s.low,
        high: at,
    })
}

/// The numbers of an interval above one that may be the first.
fn rest_above(state: AbstractState, s: Interval, at: Bound) -> Option<Interval>
    ensures { IfSome result (λ rest. LeavesRest state.entry (sides.Between s) (indices.Number at) (sides.Between rest)) }
{
    let above = next(at)?;
    if !is_before(state, at, s.low) {
        return None;
    }
    Some(Interval {
        low: above,
        high: s.high,
    })
}

/// The rest of an interval but for the number of a bound that may be its last or its first.
fn rest_of_interval(state: AbstractState, s: Interval, at: Bound) -> Option<Interval>
    ensures { IfSome result (λ rest. LeavesRest state.entry (sides.Between s) (indices.Number at) (sides.Between rest)) }
{
    match rest_below(state, s, at) {
        Some(rest) => Some(rest),
        None => rest_above(state, s, at),
    }
}

/// The rest of a side but for an index.
fn rest_of(state: AbstractState, side: Side, at: Index) -> Option<Side>
    ensures { IfSome result (λ rest. LeavesRest state.entry side at rest) }
{
    match side {
        Side::Between(s) => match number_of(state, at) {
            Some(number) => Some(Side::Between(rest_of_interval(state, s, number)?)),
            None => None,
        },
        Side::At(_) => None,
    }
}

/// Whether elements have values but for those with one first index.
fn is_filled_but_first(state: AbstractState, f: Filling, at: Index) -> bool
    ensures { result ≡ true → StandsButFirst state.entry f at }
{
    if is_part(state, f.block.first, Side::At(at)) {
        return true;
    }
    match rest_of(state, f.block.first, at) {
        Some(rest) => follows(state, Fact::Filled(with_first(f, rest))),
        None => false,
    }
}

/// Whether elements have values but for those with one second index.
fn is_filled_but_second(state: AbstractState, f: Filling, side: Side, at: Index) -> bool
    ensures { result ≡ true → f.block.second ≡ Some side → StandsButSecond state.entry f at }
{
    if is_part(state, side, Side::At(at)) {
        return true;
    }
    match rest_of(state, side, at) {
        Some(rest) => follows(state, Fact::Filled(with_second(f, rest))),
        None => false,
    }
}

/// Whether elements have values but for the one at a cell.
fn is_filled_but_cell(state: AbstractState, f: Filling, cell: Cell) -> bool
    ensures { result ≡ true → StandsButOne state.entry f (Some cell) }
{
    if !is_filled_but_first(state, f, cell.first) {
        return false;
    }
    match f.block.second {
        Some(side) => match cell.second {
            Some(at) => is_filled_but_second(state, f, side, at),
            None => false,
        },
        None => cell.second.is_none(),
    }
}

/// Whether elements have values but for the one that gets one.
fn is_filled_but_one(state: AbstractState, f: Filling, cell: Option<Cell>) -> bool
    ensures { result ≡ true → StandsButOne state.entry f cell }
{
    if follows(state, Fact::Filled(f)) {
        return true;
    }
    match cell {
        Some(p) => is_filled_but_cell(state, f, p),
        None => false,
    }
}

/// Whether a value that is given is at most a bound, if there is one.
fn is_small(state: AbstractState, target: Target, limits: Limits, most: Option<Bound>) -> bool
    ensures { result ≡ true → IsSmall state.entry target limits.entry most }
{
    match most {
        Some(bound) => {
            if !target.is_free {
                return false;
            }
            is_up_to(state, limits, bound)
        }
        None => true,
    }
}

/// Whether elements have values once one of them got one.
fn is_filled_with(state: AbstractState, f: Filling, target: Target, limits: Limits) -> bool
    ensures { result ≡ true → StandsWith state.entry target limits.entry (facts.Filled f) }
{
    if !is_same_name(state.names, f.array, target.array) {
        return follows(state, Fact::Filled(f));
    }
    if !is_small(state, target, limits, f.most) {
        return false;
    }
    is_filled_but_one(state, f, target.cell)
}

/// The element of an array at a cell has a value.
fn filling_at(array: usize, cell: Cell) -> Filling
    ensures { result ≡ record { array = array; block = block_at cell; most = None } }
{
    Filling {
        array,
        block: block_of(cell),
        most: None,
    }
}

/// Whether an array has a value at a cell.
fn has_cell(state: AbstractState, array: usize, cell: Option<Cell>) -> bool
    ensures { result ≡ true → HasCell state.entry array cell }
{
    match cell {
        Some(p) => follows(state, Fact::Filled(filling_at(array, p))),
        None => false,
    }
}

/// Whether a cell is in a block.
fn is_cell_in(state: AbstractState, cell: Option<Cell>, block: Option<Block>) -> bool
    ensures { result ≡ true → IsCellIn state.entry cell block }
{
    match cell {
        Some(p) => is_excepted(state, Some(block_of(p)), block),
        None => false,
    }
}

/// The same keys, with the one at a cell excepted.
fn excepting(k: Keys, cell: Cell) -> Keys
    ensures { result ≡ record { array = k.array; other = k.other; except = Some (block_at cell) } }
{
    Keys {
        except: Some(block_of(cell)),
        ..k
    }
}

/// Whether keys lie within others because the one that was missing gets a value.
fn are_keys_complete(state: AbstractState, k: Keys, target: Target) -> bool
    ensures { result ≡ true → KeysComplete state.entry k target }
{
    if !is_same_name(state.names, k.other, target.array) {
        return false;
    }
    match target.cell {
        Some(cell) => follows(state, Fact::KeysWithin(excepting(k, cell))),
        None => false,
    }
}

/// Whether keys lie within others once an element got a value.
fn are_keys_within(state: AbstractState, k: Keys, target: Target, limits: Limits) -> bool
    ensures { result ≡ true → StandsWith state.entry target limits.entry (facts.KeysWithin k) }
{
    if is_same_name(state.names, k.array, target.array) {
        if !follows(state, Fact::KeysWithin(k)) {
            return false;
        }
        if has_cell(state, k.other, target.cell) {
            return true;
        }
        return is_cell_in(state, target.cell, k.except);
    }
    if follows(state, Fact::KeysWithin(k)) {
        return true;
    }
    are_keys_complete(state, k, target)
}

/// Whether the elements of an array are keys of another but for one, and this one is the index at which the other gets a value.
fn is_missing_key(state: AbstractState, k: Keys, source: Source) -> bool
    ensures { result ≡ true → IsMissingKey state.entry k source }
{
    if !is_same_name(state.names, k.array, source.array) {
        return false;
    }
    match source.cell {
        Some(cell) => follows(state, Fact::ValuesAreKeys(excepting(k, cell))),
        None => false,
    }
}

/// Whether the elements of an array, which stay as they are, are keys of another because the one that was missing gets a value.
fn are_values_complete(state: AbstractState, k: Keys, target: Target) -> bool
    ensures { result ≡ true → ValuesComplete state.entry k target }
{
    if is_same_name(state.names, k.array, target.array) {
        return false;
    }
    if !is_same_name(state.names, k.other, target.array) {
        return false;
    }
    match target.source {
        Some(source) => is_missing_key(state, k, source),
        None => false,
    }
}

/// Whether each element of an array is a key of another once an element got a value.
fn are_values_keys(state: AbstractState, k: Keys, target: Target, limits: Limits) -> bool
    ensures { result ≡ true → StandsWith state.entry target limits.entry (facts.ValuesAreKeys k) }
{
    if are_values_complete(state, k, target) {
        return true;
    }
    if !follows(state, Fact::ValuesAreKeys(k)) {
        return false;
    }
    if !is_same_name(state.names, k.array, target.array) {
        return true;
    }
    if has_key(state, k.other, limits) {
        return true;
    }
    is_cell_in(state, target.cell, k.except)
}

/// Whether a fact is so once an element got a value.
fn stands_with(state: AbstractState, fact: Fact, target: Target, limits: Limits) -> bool
    ensures { result ≡ true → StandsWith state.entry target limits.entry fact }
{
    match fact {
        Fact::AtMost(_, _) => follows(state, fact),
        Fact::Unequal(_, _) => follows(state, fact),
        Fact::Filled(f) => is_filled_with(state, f, target, limits),
        Fact::KeysWithin(k) => are_keys_within(state, k, target, limits),
        Fact::ValuesAreKeys(k) => are_values_keys(state, k, target, limits),
    }
}

/// Those of some candidates that are so once an element got a value.
pub fn facts_with_element(
    alloc: Global,
    state: AbstractState,
    candidates: &[Fact],
    target: Target,
    limits: Limits,
) -> Result<Vec<Fact>, AllocError>
    ensures { IfOk result (λ after. GivesElement state.entry target limits.entry after.items) }
{
    let mut after = Vec::new(alloc);
    for fact in candidates {
        if stands_with(state, *fact, target, limits) {
            after.push(*fact)?;
        }
    }
    Ok(after)
}
