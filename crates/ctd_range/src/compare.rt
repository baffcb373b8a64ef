//! What a comparison tells of a number in a range.

ghost use Rattle.std.specs.Prelude.{◌≡◌, ℕ, ℤ, true, false};
ghost use Rattle.std.specs.declared.cmp.Ordering.{Ordering};
ghost use Rattle.ctd_value.specs.Truth.{holds_by};
ghost use Rattle.ctd_range.specs.calls.Ranges.{IsIn, Relates};

use crate::order::{at_least, at_most, greater, less, other, same};
use crate::range::Range;
use ctd_program::Compare;

/// The range of a number that compares so with one of another range.
pub fn restrict(by: Compare, a: Range, b: Range) -> Range
    ensures refines { (k : ℕ) (x y : ℤ) → Relates by x y → IsIn a k x → IsIn b k y → IsIn result k x }
{
    match by {
        Compare::Less => less(a, b),
        Compare::AtMost => at_most(a, b),
        Compare::Greater => greater(a, b),
        Compare::AtLeast => at_least(a, b),
        Compare::Equal => same(a, b),
        Compare::Unequal => other(a, b),
    }
}

/// The comparison that holds where one does not.
pub fn opposite_of(by: Compare) -> Compare
    ensures opposite { (o : Ordering) → holds_by by o ≡ false → holds_by result o ≡ true }
{
    match by {
        Compare::Less => Compare::AtLeast,
        Compare::Greater => Compare::AtMost,
        Compare::AtMost => Compare::Greater,
        Compare::AtLeast => Compare::Less,
        Compare::Equal => Compare::Unequal,
        Compare::Unequal => Compare::Equal,
    }
}
