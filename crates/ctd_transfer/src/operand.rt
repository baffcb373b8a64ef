//! Which variable is to blame for a fault. No contract speaks of it.

use ctd_states::{Operand, PossibleValues};

/// A variable, or an element of an array, that may have these values, by the index of its name.
pub(crate) fn operand_of(
    index: Option<usize>,
    is_element: bool,
    possible: PossibleValues,
) -> Option<Operand> {
    let range = possible.number;
    Some(Operand {
        name: index?,
        is_element,
        least: range.map(|r| r.low).filter(|low| *low > i128::MIN),
        most: range.map(|r| r.high).filter(|high| *high < i128::MAX),
    })
}

/// How many numbers lie between the ends of an operand, as far as they can be counted.
fn width_of(operand: Operand) -> i128 {
    match (operand.least, operand.most) {
        (Some(least), Some(most)) => most.saturating_sub(least),
        _ => i128::MAX,
    }
}

/// Of two operands the one with more numbers, or the only one.
pub(crate) fn wider(a: Option<Operand>, b: Option<Operand>) -> Option<Operand> {
    match (a, b) {
        (Some(one), Some(other)) if width_of(one) < width_of(other) => Some(other),
        (Some(one), _) => Some(one),
        (None, other) => other,
    }
}

/// What is to blame, where there is such a fault.
pub(crate) fn blame_if(fault: bool, operand: Option<Operand>) -> Option<Operand> {
    if fault { operand } else { None }
}
