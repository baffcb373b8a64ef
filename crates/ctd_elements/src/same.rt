//! Whether facts are written alike.

ghost use Rattle.std.specs.Prelude.{◌≡◌, true};
ghost use Rattle.ctd_elements.specs.declared.fact.Fact.TheVariants as facts;

use crate::fact::{Block, Bound, Fact, Filling, Index, Interval, Keys, Side};
use crate::order::have_same_term;

/// Whether two bounds are one.
pub fn is_same(a: Bound, b: Bound) -> bool
    ensures { result ≡ true → a ≡ b }
{
    if !have_same_term(a, b) {
        return false;
    }
    a.add == b.add
}

/// Whether two indices are one.
fn is_same_index(a: Index, b: Index) -> bool
    ensures { result ≡ true → a ≡ b }
{
    match (a, b) {
        (Index::Number(p), Index::Number(q)) => is_same(p, q),
        (Index::Value(i), Index::Value(j)) => i == j,
        (Index::Text(i), Index::Text(j)) => i == j,
        _ => false,
    }
}

/// Whether two intervals are one.
fn is_same_interval(a: Interval, b: Interval) -> bool
    ensures { result ≡ true → a ≡ b }
{
    if !is_same(a.low, b.low) {
        return false;
    }
    is_same(a.high, b.high)
}

/// Whether two sides are one.
fn is_same_side(a: Side, b: Side) -> bool
    ensures { result ≡ true → a ≡ b }
{
    match (a, b) {
        (Side::Between(s), Side::Between(t)) => is_same_interval(s, t),
        (Side::At(i), Side::At(j)) => is_same_index(i, j),
        _ => false,
    }
}

/// Whether two sides, if there are any, are one.
fn are_same_seconds(a: Option<Side>, b: Option<Side>) -> bool
    ensures { result ≡ true → a ≡ b }
{
    match (a, b) {
        (Some(s), Some(t)) => is_same_side(s, t),
        (None, None) => true,
        _ => false,
    }
}

/// Whether two blocks are one.
fn is_same_block(a: Block, b: Block) -> bool
    ensures { result ≡ true → a ≡ b }
{
    if !is_same_side(a.first, b.first) {
        return false;
    }
    are_same_seconds(a.second, b.second)
}

/// Whether two greatest values, if there are any, are one.
fn are_same_mosts(a: Option<Bound>, b: Option<Bound>) -> bool
    ensures { result ≡ true → a ≡ b }
{
    match (a, b) {
        (Some(p), Some(q)) => is_same(p, q),
        (None, None) => true,
        _ => false,
    }
}

/// Whether two fillings are one.
fn is_same_filling(a: Filling, b: Filling) -> bool
    ensures { result ≡ true → a ≡ b }
{
    if a.array != b.array {
        return false;
    }
    if !is_same_block(a.block, b.block) {
        return false;
    }
    are_same_mosts(a.most, b.most)
}

/// Whether two exceptions, if there are any, are one.
fn are_same_exceptions(a: Option<Block>, b: Option<Block>) -> bool
    ensures { result ≡ true → a ≡ b }
{
    match (a, b) {
        (Some(p), Some(q)) => is_same_block(p, q),
        (None, None) => true,
        _ => false,
    }
}

/// Whether the keys of two facts are one.
fn are_same_keys(a: Keys, b: Keys) -> bool
    ensures { result ≡ true → a ≡ b }
{
    if a.array != b.array {
        return false;
    }
    if a.other != b.other {
        return false;
    }
    are_same_exceptions(a.except, b.except)
}

/// Whether two orders are one.
fn are_same_orders(a: Bound, b: Bound, c: Bound, d: Bound) -> bool
    ensures { result ≡ true → facts.AtMost a b ≡ facts.AtMost c d }
{
    if !is_same(a, c) {
        return false;
    }
    is_same(b, d)
}

/// Whether two facts are one.
pub(crate) fn is_same_fact(a: Fact, b: Fact) -> bool
    ensures { result ≡ true → a ≡ b }
{
    match (a, b) {
        (Fact::AtMost(p, q), Fact::AtMost(s, t)) => are_same_orders(p, q, s, t),
        (Fact::Filled(f), Fact::Filled(g)) => is_same_filling(f, g),
        (Fact::KeysWithin(k), Fact::KeysWithin(l)) => are_same_keys(k, l),
        (Fact::ValuesAreKeys(k), Fact::ValuesAreKeys(l)) => are_same_keys(k, l),
        _ => false,
    }
}
