//! Laws of arithmetic. They have no code: each contract is a law, which holds of all numbers.

ghost use Rattle.ctd_value.specs.calls.Laws.{DivisionLeavesRemainders, PowersAreProducts};

/// A power is the product of equal factors, as many as its exponent says.
pub fn powers_are_products()
    ensures product { PowersAreProducts }
{}

/// A remainder is what a division leaves of the dividend: it is smaller than the divisor, and it is 0 or has the sign of the dividend.
pub fn division_leaves_remainders()
    ensures remainder { DivisionLeavesRemainders }
{}
