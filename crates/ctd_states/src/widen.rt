//! Joins and widening. No contract speaks of them: each result is checked where it is used.

use crate::stop::Stop;
use crate::value::{AbstractValue, Lengths, PossibleValues, copy_of, is_unreachable};
use ctd_range::Range;
use std::alloc::Global;

/// The join of lengths of strings.
fn join_lengths(a: Option<Lengths>, b: Option<Lengths>) -> Option<Lengths> {
    match (a, b) {
        (Some(a), Some(b)) => Some(Lengths {
            least: a.least.min(b.least),
            most: a.most.max(b.most),
        }),
        _ => a.or(b),
    }
}

/// How far an end with a slope moves over all steps that a run may have.
fn reach(slope: u64) -> Option<i128> {
    i128::from(slope).checked_mul(i128::from(u64::MAX))
}

/// The upper end of two ranges, with the greater slope, and so high that it is above both however many steps are left.
fn join_high(a: Range, b: Range) -> (i128, u64) {
    let (steep, flat) = if a.fall >= b.fall { (a, b) } else { (b, a) };
    let gain = reach(steep.fall.saturating_sub(flat.fall));
    match gain.and_then(|gain| flat.high.checked_add(gain)) {
        Some(most) => (steep.high.max(most), steep.fall),
        None => (a.high.max(b.high), flat.fall),
    }
}

/// The lower end of two ranges, with the greater slope, and so low that it is below both.
fn join_low(a: Range, b: Range) -> (i128, u64) {
    let (steep, flat) = if a.rise >= b.rise { (a, b) } else { (b, a) };
    let gain = reach(steep.rise.saturating_sub(flat.rise));
    match gain.and_then(|gain| flat.low.checked_sub(gain)) {
        Some(least) => (steep.low.min(least), steep.rise),
        None => (a.low.min(b.low), flat.rise),
    }
}

/// The join of two ranges.
fn join_ranges(a: Range, b: Range) -> Range {
    let (low, rise) = join_low(a, b);
    let (high, fall) = join_high(a, b);
    Range {
        low,
        high,
        rise,
        fall,
    }
}

/// The join of possible values.
pub(crate) fn join_values(a: PossibleValues, b: PossibleValues) -> PossibleValues {
    let number = match (a.number, b.number) {
        (Some(a), Some(b)) => Some(join_ranges(a, b)),
        (a, b) => a.or(b),
    };
    PossibleValues {
        text: join_lengths(a.text, b.text),
        number,
    }
}

/// The join of two abstract values.
fn join_names(a: AbstractValue, b: AbstractValue) -> AbstractValue {
    AbstractValue {
        may_lack: a.may_lack || b.may_lack,
        alone: join_values(a.alone, b.alone),
        elements: join_values(a.elements, b.elements),
    }
}

/// In which rounds ends that move get a slope, are given up, and all values are possible. An odd round before ends are given up lets a slope settle.
const SLOPES: usize = 2;

const NO_BOUNDS: usize = 6;

const ALL_VALUES: usize = 8;

/// All values.
const ALL: PossibleValues = PossibleValues {
    text: Some(Lengths {
        least: 0,
        most: u64::MAX,
    }),
    number: Some(Range {
        low: i128::MIN,
        high: i128::MAX,
        rise: 0,
        fall: 0,
    }),
};

/// Lengths of strings, with no bound where they grew.
fn widen_lengths(old: Option<Lengths>, all: Option<Lengths>) -> Option<Lengths> {
    match (old, all) {
        (Some(old), Some(all)) => Some(Lengths {
            least: if all.least < old.least { 0 } else { all.least },
            most: if all.most > old.most {
                u64::MAX
            } else {
                all.most
            },
        }),
        _ => all,
    }
}

/// A slope that is greater by what an end moved in a turn, and how much further the end moves by that over all steps but one.
fn steeper(moved: Option<i128>, slope: u64) -> Option<(i128, u64)> {
    let by = u64::try_from(moved?).ok()?;
    let gain = reach(by)?.saturating_sub(i128::from(by));
    Some((gain, slope.checked_add(by)?))
}

/// An upper end that moved, with a slope for that, or with no bound. The slope begins a turn earlier, in which the end moved as far.
fn widen_high(old: Range, all: Range, is_sloped: bool) -> (i128, u64) {
    let is_kept = all.high <= old.high && all.fall >= old.fall;
    if is_kept || is_sloped && all.fall > old.fall {
        return (all.high, all.fall);
    }
    if is_sloped
        && let Some((gain, slope)) = steeper(all.high.checked_sub(old.high), old.fall)
        && let Some(high) = old.high.checked_add(gain)
    {
        return (high, slope);
    }
    (i128::MAX, 0)
}

/// A lower end that moved, with a slope for that, or with no bound.
fn widen_low(old: Range, all: Range, is_sloped: bool) -> (i128, u64) {
    let is_kept = all.low >= old.low && all.rise >= old.rise;
    if is_kept || is_sloped && all.rise > old.rise {
        return (all.low, all.rise);
    }
    if is_sloped
        && let Some((gain, slope)) = steeper(old.low.checked_sub(all.low), old.rise)
        && let Some(low) = old.low.checked_sub(gain)
    {
        return (low, slope);
    }
    (i128::MIN, 0)
}

/// A range, with slopes or no bounds where it grew.
fn widen_numbers(old: Option<Range>, all: Option<Range>, is_sloped: bool) -> Option<Range> {
    match (old, all) {
        (Some(old), Some(all)) => {
            let (low, rise) = widen_low(old, all, is_sloped);
            let (high, fall) = widen_high(old, all, is_sloped);
            Some(Range {
                low,
                high,
                rise,
                fall,
            })
        }
        _ => all,
    }
}

/// Possible values, with slopes or no bounds where they grew.
fn widen_values(old: PossibleValues, all: PossibleValues, is_sloped: bool) -> PossibleValues {
    PossibleValues {
        text: widen_lengths(old.text, all.text),
        number: widen_numbers(old.number, all.number, is_sloped),
    }
}

/// The abstract value of a name in a candidate, widened by that at the end of a turn.
fn widen_name(old: AbstractValue, end: AbstractValue, round: usize) -> AbstractValue {
    let all = join_names(old, end);
    let settles = round < NO_BOUNDS && round % 2 == 1;
    if round < SLOPES || settles {
        return all;
    }
    if round < ALL_VALUES {
        return AbstractValue {
            may_lack: all.may_lack,
            alone: widen_values(old.alone, all.alone, round < NO_BOUNDS),
            elements: widen_values(old.elements, all.elements, round < NO_BOUNDS),
        };
    }
    AbstractValue {
        may_lack: true,
        alone: ALL,
        elements: ALL,
    }
}

/// A state of a candidate, widened by one at the end of a turn.
pub fn widen_entries(
    alloc: Global,
    candidate: &[AbstractValue],
    end: &[AbstractValue],
    round: usize,
) -> Result<Vec<AbstractValue>, Stop> {
    let mut all = Vec::new(alloc);
    for (i, value) in candidate.iter().enumerate() {
        let widened = end
            .get(i)
            .map_or(*value, |other| widen_name(*value, *other, round));
        all.push(widened)?;
    }
    Ok(all)
}

/// The join of two states.
pub(crate) fn merge(
    alloc: Global,
    a: &[AbstractValue],
    b: &[AbstractValue],
) -> Result<Vec<AbstractValue>, Stop> {
    if is_unreachable(a) {
        return copy_of(alloc, b);
    }
    if is_unreachable(b) {
        return copy_of(alloc, a);
    }
    widen_entries(alloc, a, b, 0)
}
