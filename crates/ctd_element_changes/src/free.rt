//! Whether blocks do not speak of a name without indices.

ghost use Rattle.std.specs.Prelude.{◌≡◌, true};
ghost use Rattle.ctd_elements.specs.declared.fact.Side.TheVariants as sides;
ghost use Rattle.ctd_element_changes.specs.inner.Free.{BlockIsFree, BoundIsFree, ExceptionIsFree, MostIsFree, SecondIsFree, SideIsFree};

use ctd_elements::{Block, Bound, Index, Interval, Side, is_name};

/// Whether a bound does not speak of a name.
pub(crate) fn bound_is_free(names: &[&[u8]], b: Bound, name: &[u8]) -> bool
    ensures { result ≡ true → BoundIsFree names.now name.now b }
{
    match b.term {
        None => true,
        Some(term) => !is_name(names, term.name, name),
    }
}

/// Whether an index does not speak of a name.
fn index_is_free(names: &[&[u8]], index: Index, name: &[u8]) -> bool
    ensures { result ≡ true → SideIsFree names.now name.now (sides.At index) }
{
    match index {
        Index::Number(b) => bound_is_free(names, b, name),
        Index::Value(i) => !is_name(names, i, name),
        Index::Text(_) => true,
    }
}

/// Whether an interval does not speak of a name.
fn interval_is_free(names: &[&[u8]], s: Interval, name: &[u8]) -> bool
    ensures { result ≡ true → SideIsFree names.now name.now (sides.Between s) }
{
    if !bound_is_free(names, s.low, name) {
        return false;
    }
    bound_is_free(names, s.high, name)
}

/// Whether a side does not speak of a name.
fn side_is_free(names: &[&[u8]], side: Side, name: &[u8]) -> bool
    ensures { result ≡ true → SideIsFree names.now name.now side }
{
    match side {
        Side::Between(s) => interval_is_free(names, s, name),
        Side::At(index) => index_is_free(names, index, name),
    }
}

/// Whether a side, if there is one, does not speak of a name.
fn second_is_free(names: &[&[u8]], second: Option<Side>, name: &[u8]) -> bool
    ensures { result ≡ true → SecondIsFree names.now name.now second }
{
    match second {
        Some(side) => side_is_free(names, side, name),
        None => true,
    }
}

/// Whether a block does not speak of a name.
pub(crate) fn block_is_free(names: &[&[u8]], b: Block, name: &[u8]) -> bool
    ensures { result ≡ true → BlockIsFree names.now name.now b }
{
    if !side_is_free(names, b.first, name) {
        return false;
    }
    second_is_free(names, b.second, name)
}

/// Whether a block, if there is one, does not speak of a name.
pub(crate) fn exception_is_free(names: &[&[u8]], block: Option<Block>, name: &[u8]) -> bool
    ensures { result ≡ true → ExceptionIsFree names.now name.now block }
{
    match block {
        Some(b) => block_is_free(names, b, name),
        None => true,
    }
}

/// Whether a bound, if there is one, does not speak of a name.
pub(crate) fn most_is_free(names: &[&[u8]], most: Option<Bound>, name: &[u8]) -> bool
    ensures { result ≡ true → MostIsFree names.now name.now most }
{
    match most {
        Some(b) => bound_is_free(names, b, name),
        None => true,
    }
}
