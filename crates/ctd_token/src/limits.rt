//! The limits of a program.

/// The greatest length of a program's text, in bytes.
pub const PROGRAM_LIMIT: usize = 1_048_576;

/// The greatest weight that the tokens of a program may reach: what is counted are the brackets and
/// blocks that are open, and the operators inside each of them.
pub const NESTING_LIMIT: u32 = 200;

/// How many bytes a short name has at most.
pub(crate) const SHORT_NAME: usize = 7;
