//! Facts of elements of arrays, and of one number beside another. A name is given by its index in a list of names.

use ctd_states::AbstractValue;

/// A multiple of the number that a name without indices has.
#[derive(Clone, Copy)]
pub struct Term {
    pub name: usize,
    pub times: u32,
}

/// A number: a term, if there is one, with a number added.
#[derive(Clone, Copy)]
pub struct Bound {
    pub term: Option<Term>,
    pub add: i64,
}

/// One index.
#[derive(Clone, Copy)]
pub enum Index {
    /// The number of a bound.
    Number(Bound),
    /// The value of a name without indices, be it a number or a string.
    Value(usize),
    /// A string, which stands among the names.
    Text(usize),
}

/// The numbers from one bound up to, and without, another.
#[derive(Clone, Copy)]
pub struct Interval {
    pub low: Bound,
    pub high: Bound,
}

/// One side of a block.
#[derive(Clone, Copy)]
pub enum Side {
    /// The numbers of an interval.
    Between(Interval),
    /// One index.
    At(Index),
}

/// Indices: one that is on a side, or two, each on its side.
#[derive(Clone, Copy)]
pub struct Block {
    pub first: Side,
    pub second: Option<Side>,
}

/// One index, or two.
#[derive(Clone, Copy)]
pub struct Cell {
    pub first: Index,
    pub second: Option<Index>,
}

/// An element: its array, and its cell, if that can be said.
#[derive(Clone, Copy)]
pub struct Source {
    pub array: usize,
    pub cell: Option<Cell>,
}

/// The elements of an array in a block have values. Each is a number of at most a bound, if there is one.
#[derive(Clone, Copy)]
pub struct Filling {
    pub array: usize,
    pub block: Block,
    pub most: Option<Bound>,
}

/// Elements of an array are keys of another, but for those in a block, if there is one.
#[derive(Clone, Copy)]
pub struct Keys {
    pub array: usize,
    pub other: usize,
    pub except: Option<Block>,
}

/// A fact. It says nothing where a bound of it has no number.
#[derive(Clone, Copy)]
pub enum Fact {
    /// A number is at most another.
    AtMost(Bound, Bound),
    /// Two numbers differ.
    Unequal(Bound, Bound),
    /// Elements have values.
    Filled(Filling),
    /// Where one array has an element, the other has one.
    KeysWithin(Keys),
    /// Each element of one array is an index at which the other has a value.
    ValuesAreKeys(Keys),
}

/// An abstract state: the names of a program, the abstract value of each, and facts.
#[derive(Clone, Copy)]
pub struct AbstractState<'s> {
    pub names: &'s [&'s [u8]],
    pub entries: &'s [AbstractValue],
    pub facts: &'s [Fact],
}
