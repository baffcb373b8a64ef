//! What is known of a value.

ghost use Rattle.ctd_limits.specs.calls.Known.{IsNothing, IsViewOf};

use ctd_elements::{Bound, Index, Limits, Source};
use std::alloc::Global;

/// What is known of a value: an index that it is, bounds that it is at least, and at most, and an element that has it. The bounds have numbers.
#[derive(Drop)]
pub struct ValueLimits {
    pub exact: Option<Index>,
    pub lows: Vec<Bound>,
    pub highs: Vec<Bound>,
    pub source: Option<Source>,
}

/// The same, to be looked at.
pub fn as_limits<'l>(limits: &'l ValueLimits) -> Limits<'l>
    ensures { IsViewOf limits.now result }
{
    Limits {
        exact: limits.exact,
        lows: limits.lows.as_slice(),
        highs: limits.highs.as_slice(),
        source: limits.source,
    }
}

/// What is known of any value: nothing.
pub fn anything(alloc: Global) -> ValueLimits
    ensures { IsNothing result }
{
    ValueLimits {
        exact: None,
        lows: Vec::new(alloc),
        highs: Vec::new(alloc),
        source: None,
    }
}
