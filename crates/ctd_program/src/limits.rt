//! How far a check may go.

/// How far a check may go.
#[derive(Clone, Copy, PartialEq, Eq, Debug)]
pub struct Limits {
    /// The steps that may be paid: one for each started command, one for each turn of a loop.
    pub steps: u64,
    /// The bytes that the data may have, at most `2^62`.
    pub bytes: u64,
}
