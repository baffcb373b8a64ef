//! Whether a fact follows from others: the check of each candidate.

ghost use Rattle.std.specs.Prelude.{◌≡◌, true, None, Some, IfSome};
ghost use Rattle.ctd_elements.specs.declared.fact.Fact.TheVariants as facts;
ghost use Rattle.ctd_elements.specs.declared.fact.Side.TheVariants as sides;
ghost use Rattle.ctd_elements.specs.declared.fact.AbstractState.{AbstractState};
ghost use Rattle.ctd_elements.specs.calls.States.{Implies};
ghost use Rattle.ctd_elements.specs.inner.Bounds.{IsLower};
ghost use Rattle.ctd_elements.specs.calls.Orders.{IsMoved, IsGreatestElement};
ghost use Rattle.ctd_elements.specs.inner.Following.{Halves, HasNoElement, ImpliesBy, IsSmallAnyway};

use crate::fact::{AbstractState, Block, Bound, Fact, Filling, Index, Interval, Keys, Side};
use crate::order::{is_at_most, is_sure, lacks_number, moved, reaches};
use crate::part::{is_empty_block, is_excepted, is_inside, is_tighter, next};
use crate::same::{is_same, is_same_fact};
use ctd_states::{AbstractValue, PossibleValues};

/// Whether elements have values where others have.
fn is_filled_by(state: AbstractState, f: Filling, other: Filling) -> bool
    ensures { result ≡ true → ImpliesBy state.entry (facts.Filled f) (facts.Filled other) }
{
    if f.array != other.array {
        return false;
    }
    if !is_inside(state, f.block, other.block) {
        return false;
    }
    is_tighter(state, other.most, f.most)
}

/// Whether keys lie within others where those of a fact do.
fn are_keys_by(state: AbstractState, k: Keys, other: Keys) -> bool
    ensures within { result ≡ true → ImpliesBy state.entry (facts.KeysWithin k) (facts.KeysWithin other) }
    ensures values { result ≡ true → ImpliesBy state.entry (facts.ValuesAreKeys k) (facts.ValuesAreKeys other) }
{
    if k.array != other.array {
        return false;
    }
    if k.other != other.other {
        return false;
    }
    is_excepted(state, other.except, k.except)
}

/// Whether one bound lies above another as two others do.
fn are_moved(a: Bound, b: Bound, p: Bound, q: Bound) -> bool
    ensures { result ≡ true → IsMoved a p q b }
{
    match moved(a, p, q) {
        Some(c) => is_same(c, b),
        None => false,
    }
}

/// Whether two numbers differ where two others do: both moved by the same number, or exchanged.
fn are_unequal_by(a: Bound, b: Bound, p: Bound, q: Bound) -> bool
    ensures { result ≡ true → (s : AbstractState) → ImpliesBy s (facts.Unequal a b) (facts.Unequal p q) }
{
    if are_moved(a, b, p, q) {
        return true;
    }
    are_moved(a, b, q, p)
}

/// Whether a fact follows from one other.
fn follows_by(state: AbstractState, fact: Fact, other: Fact) -> bool
    ensures { result ≡ true → ImpliesBy state.entry fact other }
{
    match (fact, other) {
        (Fact::Unequal(a, b), Fact::Unequal(p, q)) => are_unequal_by(a, b, p, q),
        (Fact::Filled(f), Fact::Filled(own)) => is_filled_by(state, f, own),
        (Fact::KeysWithin(k), Fact::KeysWithin(own)) => are_keys_by(state, k, own),
        (Fact::ValuesAreKeys(k), Fact::ValuesAreKeys(own)) => are_keys_by(state, k, own),
        _ => false,
    }
}

/// Where a side ends.
fn end_of(side: Side) -> Option<Bound> {
    match side {
        Side::Between(s) => Some(s.high),
        Side::At(Index::Number(b)) => next(b),
        Side::At(_) => None,
    }
}

/// The same with another first side.
pub fn with_first(f: Filling, first: Side) -> Filling
    ensures { result ≡ record { array = f.array; block = record { first = first; second = f.block.second }; most = f.most } }
{
    Filling {
        block: Block { first, ..f.block },
        ..f
    }
}

/// The same with another second side.
pub fn with_second(f: Filling, second: Side) -> Filling
    ensures { result ≡ record { array = f.array; block = record { first = f.block.first; second = Some second }; most = f.most } }
{
    Filling {
        block: Block {
            second: Some(second),
            ..f.block
        },
        ..f
    }
}

/// An interval up to a bound, and from there on.
fn cut_at(s: Interval, at: Bound) -> (Side, Side)
    ensures { result ≡ (sides.Between (record { low = s.low; high = at }), sides.Between (record { low = at; high = s.high })) }
{
    let begin = Interval {
        low: s.low,
        high: at,
    };
    let rest = Interval {
        low: at,
        high: s.high,
    };
    (Side::Between(begin), Side::Between(rest))
}

/// The halves of a filling at a bound of its first side.
fn halves_of_first(f: Filling, at: Bound) -> Option<(Filling, Filling)>
    ensures { IfSome result (λ halves. Halves f at halves) }
{
    match f.block.first {
        Side::Between(s) => {
            let (begin, rest) = cut_at(s, at);
            Some((with_first(f, begin), with_first(f, rest)))
        }
        Side::At(_) => None,
    }
}

/// The halves of a filling at a bound of its second side.
fn halves_of_second(f: Filling, at: Bound) -> Option<(Filling, Filling)>
    ensures { IfSome result (λ halves. Halves f at halves) }
{
    match f.block.second {
        Some(side) => match side {
            Side::Between(s) => {
                let (begin, rest) = cut_at(s, at);
                Some((with_second(f, begin), with_second(f, rest)))
            }
            Side::At(_) => None,
        },
        None => None,
    }
}

/// Whether elements have values where others have the first half of them, and by one fact the second.
fn are_halves_filled(
    state: AbstractState,
    f: Filling,
    at: Bound,
    halves: (Filling, Filling),
    left: Filling,
) -> bool
    ensures { result ≡ true → Halves f at halves → ImpliesBy state.entry (facts.Filled f) (facts.Filled left) }
{
    let (begin, rest) = halves;
    if !is_sure(state, at) {
        return false;
    }
    if !is_filled_by(state, begin, left) {
        return false;
    }
    follows_from_one(state, Fact::Filled(rest))
}

/// Whether elements have values where others have, and by one fact from where the first side of these ends.
fn is_filled_from_first(state: AbstractState, f: Filling, left: Filling) -> bool
    ensures { result ≡ true → ImpliesBy state.entry (facts.Filled f) (facts.Filled left) }
{
    match end_of(left.block.first) {
        Some(at) => match halves_of_first(f, at) {
            Some(halves) => are_halves_filled(state, f, at, halves, left),
            None => false,
        },
        None => false,
    }
}

/// Whether elements have values where others have, and by one fact from where a second side ends.
fn is_filled_from_second(state: AbstractState, f: Filling, side: Side, left: Filling) -> bool
    ensures { result ≡ true → ImpliesBy state.entry (facts.Filled f) (facts.Filled left) }
{
    match end_of(side) {
        Some(at) => match halves_of_second(f, at) {
            Some(halves) => are_halves_filled(state, f, at, halves, left),
            None => false,
        },
        None => false,
    }
}

/// Whether elements have values by two facts, side by side, of which one is a given one.
fn is_filled_with(state: AbstractState, f: Filling, left: Filling) -> bool
    ensures { result ≡ true → ImpliesBy state.entry (facts.Filled f) (facts.Filled left) }
{
    if f.array != left.array {
        return false;
    }
    if is_filled_from_first(state, f, left) {
        return true;
    }
    match left.block.second {
        Some(side) => is_filled_from_second(state, f, side, left),
        None => false,
    }
}

/// Whether a fact follows from a given one and from what else is known.
fn follows_with(state: AbstractState, fact: Fact, other: Fact) -> bool
    ensures { result ≡ true → ImpliesBy state.entry fact other }
{
    match (fact, other) {
        (Fact::Filled(f), Fact::Filled(left)) => is_filled_with(state, f, left),
        _ => false,
    }
}

/// Whether no value is possible.
fn is_none(possible: PossibleValues) -> bool
    ensures { result ≡ true → (possible.text ≡ None) × (possible.number ≡ None) }
{
    if possible.text.is_some() {
        return false;
    }
    possible.number.is_none()
}

/// Whether a name has no elements.
fn has_no_element(state: AbstractState, array: usize) -> bool
    ensures { result ≡ true → HasNoElement state.entry array }
{
    match state.entries.get(array) {
        Some(value) => is_none(value.elements),
        None => false,
    }
}

/// Whether keys lie within others because there are none.
fn has_no_keys(state: AbstractState, k: Keys) -> bool
    ensures within { result ≡ true → Implies state.entry (facts.KeysWithin k) }
    ensures values { result ≡ true → Implies state.entry (facts.ValuesAreKeys k) }
{
    has_no_element(state, k.array)
}

/// Whether one bound is at most another, or one of them has no number.
fn is_ordered(state: AbstractState, a: Bound, b: Bound) -> bool
    ensures { result ≡ true → Implies state.entry (facts.AtMost a b) }
{
    if lacks_number(state, a) {
        return true;
    }
    if lacks_number(state, b) {
        return true;
    }
    is_at_most(state, a, b)
}

/// Whether one bound is less than another.
fn is_lower(state: AbstractState, a: Bound, b: Bound) -> bool
    ensures { result ≡ true → IsLower state.entry a b }
{
    match next(a) {
        Some(above) => is_at_most(state, above, b),
        None => false,
    }
}

/// Whether two bounds differ because one is less than the other, or one of them has no number.
fn are_unequal(state: AbstractState, a: Bound, b: Bound) -> bool
    ensures { result ≡ true → Implies state.entry (facts.Unequal a b) }
{
    if lacks_number(state, a) {
        return true;
    }
    if lacks_number(state, b) {
        return true;
    }
    if is_lower(state, a, b) {
        return true;
    }
    is_lower(state, b, a)
}

/// Whether a fact follows from the values of names, and from which number is at most another.
fn follows_alone(state: AbstractState, fact: Fact) -> bool
    ensures { result ≡ true → Implies state.entry fact }
{
    match fact {
        Fact::AtMost(a, b) => is_ordered(state, a, b),
        Fact::Unequal(a, b) => are_unequal(state, a, b),
        Fact::Filled(f) => is_empty_block(state, f.block),
        Fact::KeysWithin(k) => has_no_keys(state, k),
        Fact::ValuesAreKeys(k) => has_no_keys(state, k),
    }
}

/// The greatest number that an element may be, if it can only be a number.
pub fn greatest_element(value: AbstractValue) -> Option<i128>
    ensures { IfSome result (λ g. IsGreatestElement value g) }
{
    if value.elements.text.is_some() {
        return None;
    }
    match value.elements.number {
        Some(range) => Some(range.high),
        None => None,
    }
}

/// Whether each element of an array is a number of at most a bound.
fn is_small_anyway(state: AbstractState, array: usize, most: Bound) -> bool
    ensures { result ≡ true → IsSmallAnyway state.entry array most }
{
    match state.entries.get(array) {
        Some(value) => match greatest_element(*value) {
            Some(high) => reaches(state, high, most),
            None => false,
        },
        None => false,
    }
}

/// The elements that have values, without their greatest value where each is at most that anyway.
fn loosened(state: AbstractState, f: Filling) -> Filling
    ensures { ImpliesBy state.entry (facts.Filled f) (facts.Filled result) }
{
    match f.most {
        Some(most) => {
            if is_small_anyway(state, f.array, most) {
                Filling { most: None, ..f }
            } else {
                f
            }
        }
        None => f,
    }
}

/// The same fact, or one from which it follows.
fn simpler(state: AbstractState, fact: Fact) -> Fact
    ensures { ImpliesBy state.entry fact result }
{
    match fact {
        Fact::Filled(f) => Fact::Filled(loosened(state, f)),
        _ => fact,
    }
}

/// Whether a fact follows from another.
fn follows_from_one(state: AbstractState, fact: Fact) -> bool
    ensures { result ≡ true → Implies state.entry fact }
{
    for other in state.facts {
        if follows_by(state, fact, *other) {
            return true;
        }
    }
    false
}

/// Whether a fact follows from two others.
fn follows_from_two(state: AbstractState, fact: Fact) -> bool
    ensures { result ≡ true → Implies state.entry fact }
{
    for other in state.facts {
        if follows_with(state, fact, *other) {
            return true;
        }
    }
    false
}

/// Whether a fact is one of those that are known.
fn is_known(state: AbstractState, fact: Fact) -> bool
    ensures { result ≡ true → Implies state.entry fact }
{
    for other in state.facts {
        if is_same_fact(*other, fact) {
            return true;
        }
    }
    false
}

/// Whether a fact follows from what is known without facts of elements, or by one of them.
pub fn follows_directly(state: AbstractState, fact: Fact) -> bool
    ensures { result ≡ true → Implies state.entry fact }
{
    if is_known(state, fact) {
        return true;
    }
    let simple = simpler(state, fact);
    if follows_alone(state, simple) {
        return true;
    }
    follows_from_one(state, simple)
}

/// Whether a fact follows from what is known.
pub fn follows(state: AbstractState, fact: Fact) -> bool
    ensures { result ≡ true → Implies state.entry fact }
{
    if follows_directly(state, fact) {
        return true;
    }
    follows_from_two(state, simpler(state, fact))
}
