//! What a fact was before a name without indices got a value: the same with the value in place of the name.

ghost use Rattle.std.specs.Prelude.{◌≡◌, ◌≢◌, ◌*◌, ◌*ℤ◌, ◌+ℤ◌, pos, true, false, Some, IfSome};
ghost use Rattle.ctd_states.specs.calls.States.{name_at};
ghost use Rattle.ctd_elements.specs.declared.fact.Fact.TheVariants as facts;
ghost use Rattle.ctd_elements.specs.declared.fact.Index.{Index};
ghost use Rattle.ctd_elements.specs.declared.fact.Index.TheVariants as indices;
ghost use Rattle.ctd_elements.specs.declared.fact.Side.TheVariants as sides;
ghost use Rattle.ctd_element_changes.specs.inner.Free.{ExceptionIsFree};
ghost use Rattle.ctd_element_changes.specs.inner.Before.{IsNumberIn, WasBlock, WasBound, WasFact, WasIndex, WasMost, WasSecond, WasSide};
ghost use Rattle.ctd_element_changes.specs.calls.Changes.{IsMultiple};

use crate::free::exception_is_free;
use ctd_elements::{
    Block, Bound, Fact, Filling, Index, Interval, Keys, Side, Term, bound_of, is_name,
};

/// A multiple of a number, with another added, if it is not too large.
fn scaled(times: u32, x: i64, add: i64) -> Option<i64>
    ensures { IfSome result (λ g. g ≡ (pos times *ℤ x) +ℤ add) }
{
    i64::from(times).checked_mul(x)?.checked_add(add)
}

/// A multiple of a term, if it is not too large.
fn multiple_of_term(times: u32, t: Term) -> Option<Term>
    ensures { IfSome result (λ u. u ≡ record { name = t.name; times = t.times * times }) }
{
    let times = t.times.checked_mul(times)?;
    Some(Term {
        name: t.name,
        times,
    })
}

/// A multiple of a bound, with a number added, if it is not too large.
pub fn multiple(times: u32, b: Bound, add: i64) -> Option<Bound>
    ensures { IfSome result (λ c. IsMultiple times b add c) }
{
    let add = scaled(times, b.add, add)?;
    match b.term {
        None => Some(Bound { term: None, add }),
        Some(term) => {
            let term = Some(multiple_of_term(times, term)?);
            Some(Bound { term, add })
        }
    }
}

/// The number of an index, if it may have one.
fn number_in(index: Index) -> Option<Bound>
    ensures { IfSome result (λ b. IsNumberIn index b) }
{
    match index {
        Index::Number(b) => Some(b),
        Index::Value(name) => Some(bound_of(name)),
        Index::Text(_) => None,
    }
}

/// The number that was put into a bound in place of its term.
fn number_before(exact: Option<Index>) -> Option<Bound>
    ensures { IfSome result (λ b. (index : Index) × (exact ≡ Some index) × IsNumberIn index b) }
{
    match exact {
        Some(index) => number_in(index),
        None => None,
    }
}

/// What a bound was.
pub(crate) fn bound_before(
    names: &[&[u8]],
    b: Bound,
    name: &[u8],
    exact: Option<Index>,
) -> Option<Bound>
    ensures { IfSome result (λ old. WasBound names.now name.now exact b old) }
{
    match b.term {
        None => Some(b),
        Some(term) => {
            if !is_name(names, term.name, name) {
                return Some(b);
            }
            multiple(term.times, number_before(exact)?, b.add)
        }
    }
}

/// What an index was that is the value of a name.
fn value_before(names: &[&[u8]], i: usize, name: &[u8], exact: Option<Index>) -> Option<Index>
    ensures { IfSome result (λ old. WasIndex names.now name.now exact (indices.Value i) old) }
{
    if is_name(names, i, name) {
        exact
    } else {
        Some(Index::Value(i))
    }
}

/// What an index was.
fn index_before(names: &[&[u8]], index: Index, name: &[u8], exact: Option<Index>) -> Option<Index>
    ensures { IfSome result (λ old. WasIndex names.now name.now exact index old) }
{
    match index {
        Index::Number(b) => Some(Index::Number(bound_before(names, b, name, exact)?)),
        Index::Value(i) => value_before(names, i, name, exact),
        Index::Text(_) => Some(index),
    }
}

/// What an interval was.
fn interval_before(
    names: &[&[u8]],
    s: Interval,
    name: &[u8],
    exact: Option<Index>,
) -> Option<Interval>
    ensures { IfSome result (λ old. WasSide names.now name.now exact (sides.Between s) (sides.Between old)) }
{
    let low = bound_before(names, s.low, name, exact)?;
    let high = bound_before(names, s.high, name, exact)?;
    Some(Interval { low, high })
}

/// What a side was.
fn side_before(names: &[&[u8]], side: Side, name: &[u8], exact: Option<Index>) -> Option<Side>
    ensures { IfSome result (λ old. WasSide names.now name.now exact side old) }
{
    match side {
        Side::Between(s) => Some(Side::Between(interval_before(names, s, name, exact)?)),
        Side::At(index) => Some(Side::At(index_before(names, index, name, exact)?)),
    }
}

/// What a side was, if there is one.
fn second_before(
    names: &[&[u8]],
    second: Option<Side>,
    name: &[u8],
    exact: Option<Index>,
) -> Option<Option<Side>>
    ensures { IfSome result (λ old. WasSecond names.now name.now exact second old) }
{
    match second {
        Some(side) => Some(Some(side_before(names, side, name, exact)?)),
        None => Some(None),
    }
}

/// What a block was.
fn block_before(names: &[&[u8]], b: Block, name: &[u8], exact: Option<Index>) -> Option<Block>
    ensures { IfSome result (λ old. WasBlock names.now name.now exact b old) }
{
    let first = side_before(names, b.first, name, exact)?;
    let second = second_before(names, b.second, name, exact)?;
    Some(Block { first, second })
}

/// What a greatest value was, if there is one.
fn most_before(
    names: &[&[u8]],
    most: Option<Bound>,
    name: &[u8],
    exact: Option<Index>,
) -> Option<Option<Bound>>
    ensures { IfSome result (λ old. WasMost names.now name.now exact most old) }
{
    match most {
        Some(b) => Some(Some(bound_before(names, b, name, exact)?)),
        None => Some(None),
    }
}

/// Which elements had values.
fn filling_before(names: &[&[u8]], f: Filling, name: &[u8], exact: Option<Index>) -> Option<Filling>
    ensures { IfSome result (λ old. WasFact names.now name.now exact (facts.Filled f) (facts.Filled old)) }
{
    let block = block_before(names, f.block, name, exact)?;
    let most = most_before(names, f.most, name, exact)?;
    Some(Filling {
        array: f.array,
        block,
        most,
    })
}

/// What two bounds were.
fn bounds_before(
    names: &[&[u8]],
    a: Bound,
    b: Bound,
    name: &[u8],
    exact: Option<Index>,
) -> Option<(Bound, Bound)>
    ensures ordered { IfSome result (λ old. WasFact names.now name.now exact (facts.AtMost a b) (facts.AtMost old.0 old.1)) }
    ensures unequal { IfSome result (λ old. WasFact names.now name.now exact (facts.Unequal a b) (facts.Unequal old.0 old.1)) }
{
    let first = bound_before(names, a, name, exact)?;
    let second = bound_before(names, b, name, exact)?;
    Some((first, second))
}

/// The same keys, if what is excepted does not speak of a name.
fn keys_before(names: &[&[u8]], k: Keys, name: &[u8]) -> Option<Keys>
    ensures { IfSome result (λ old. (old ≡ k) × ExceptionIsFree names.now name.now k.except) }
{
    if exception_is_free(names, k.except, name) {
        Some(k)
    } else {
        None
    }
}

/// What a fact was, if it can be said.
pub(crate) fn fact_before(
    names: &[&[u8]],
    fact: Fact,
    name: &[u8],
    exact: Option<Index>,
) -> Option<Fact>
    ensures { IfSome result (λ old. WasFact names.now name.now exact fact old) }
{
    match fact {
        Fact::AtMost(a, b) => {
            let (low, high) = bounds_before(names, a, b, name, exact)?;
            Some(Fact::AtMost(low, high))
        }
        Fact::Unequal(a, b) => {
            let (first, second) = bounds_before(names, a, b, name, exact)?;
            Some(Fact::Unequal(first, second))
        }
        Fact::Filled(f) => Some(Fact::Filled(filling_before(names, f, name, exact)?)),
        Fact::KeysWithin(k) => Some(Fact::KeysWithin(keys_before(names, k, name)?)),
        Fact::ValuesAreKeys(k) => Some(Fact::ValuesAreKeys(keys_before(names, k, name)?)),
    }
}
