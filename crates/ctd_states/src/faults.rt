//! The faults of a value that there may be.

ghost use Rattle.std.specs.Prelude.{◌≡◌, true};
ghost use Rattle.ctd_outcome.specs.declared.reason.Fault.{Fault};
ghost use Rattle.ctd_states.specs.calls.Faults.{IsAmong, IsOfKind};

/// A variable, or an element of an array, by the index of its name, and the least and the greatest number that it may be, as far as there are such.
#[derive(Clone, Copy)]
pub struct Operand {
    pub name: usize,
    pub is_element: bool,
    pub least: Option<i128>,
    pub most: Option<i128>,
}

/// The first variable of a command that is to blame for a fault of a kind, where one is.
#[derive(Clone, Copy)]
pub struct Blame {
    pub no_value: Option<usize>,
    pub no_element: Option<usize>,
    pub wrong_type: Option<Operand>,
    pub overflow: Option<Operand>,
    pub division_by_zero: Option<Operand>,
    pub exponent: Option<Operand>,
    pub count: Option<Operand>,
}

/// Which faults of a value there may be, and what is to blame for each.
#[derive(Clone, Copy)]
pub struct Faults {
    pub no_value: bool,
    pub no_element: bool,
    pub wrong_type: bool,
    pub overflow: bool,
    pub division_by_zero: bool,
    pub exponent: bool,
    pub count: bool,
    pub shape: bool,
    pub blame: Blame,
}

/// Nothing is to blame.
pub const NO_BLAME: Blame = Blame {
    no_value: None,
    no_element: None,
    wrong_type: None,
    overflow: None,
    division_by_zero: None,
    exponent: None,
    count: None,
};

/// No fault.
pub fn no_faults() -> Faults {
    Faults {
        no_value: false,
        no_element: false,
        wrong_type: false,
        overflow: false,
        division_by_zero: false,
        exponent: false,
        count: false,
        shape: false,
        blame: NO_BLAME,
    }
}

/// The variable that is to blame for one of two faults, with all numbers that it may be by both; of two variables the first.
pub fn join_operands(a: Option<Operand>, b: Option<Operand>) -> Option<Operand> {
    let (Some(first), Some(second)) = (a, b) else {
        return a.or(b);
    };
    if first.name != second.name || first.is_element != second.is_element {
        return a;
    }
    Some(Operand {
        least: first.least.zip(second.least).map(|(x, y)| x.min(y)),
        most: first.most.zip(second.most).map(|(x, y)| x.max(y)),
        ..first
    })
}

/// What is to blame for the faults of two lists.
fn join_blames(a: Blame, b: Blame) -> Blame {
    Blame {
        no_value: a.no_value.or(b.no_value),
        no_element: a.no_element.or(b.no_element),
        wrong_type: join_operands(a.wrong_type, b.wrong_type),
        overflow: join_operands(a.overflow, b.overflow),
        division_by_zero: join_operands(a.division_by_zero, b.division_by_zero),
        exponent: join_operands(a.exponent, b.exponent),
        count: join_operands(a.count, b.count),
    }
}

/// The union of two lists of faults.
pub fn union(a: Faults, b: Faults) -> Faults
    ensures first { (f : Fault) → IsAmong a f → IsAmong result f }
    ensures second { (f : Fault) → IsAmong b f → IsAmong result f }
{
    Faults {
        no_value: a.no_value | b.no_value,
        no_element: a.no_element | b.no_element,
        wrong_type: a.wrong_type | b.wrong_type,
        overflow: a.overflow | b.overflow,
        division_by_zero: a.division_by_zero | b.division_by_zero,
        exponent: a.exponent | b.exponent,
        count: a.count | b.count,
        shape: a.shape | b.shape,
        blame: join_blames(a.blame, b.blame),
    }
}

/// How a run may stop at a command or at a turn of a loop.
#[derive(Clone, Copy)]
pub enum TrapKind {
    /// A variable without indices may have no value.
    NoValue,
    /// An element of an array may have no value.
    NoElement,
    /// A number may be a string, or a string a number.
    WrongType,
    /// A number may leave the range of values.
    Overflow,
    /// A divisor may be 0.
    DivisionByZero,
    /// An exponent may lie outside 0 to 2^64-1.
    BadExponent,
    /// A count of turns may lie outside 0 to 2^64-1.
    BadCount,
    /// The arrays of UNIQUE may have values at different indices.
    OtherShape,
}

/// Whether there is a fault of a kind.
pub fn has(faults: &Faults, kind: TrapKind) -> bool
    ensures holds { IsOfKind faults.now kind → result ≡ true }
{
    match kind {
        TrapKind::NoValue => faults.no_value,
        TrapKind::NoElement => faults.no_element,
        TrapKind::WrongType => faults.wrong_type,
        TrapKind::Overflow => faults.overflow,
        TrapKind::DivisionByZero => faults.division_by_zero,
        TrapKind::BadExponent => faults.exponent,
        TrapKind::BadCount => faults.count,
        TrapKind::OtherShape => faults.shape,
    }
}
