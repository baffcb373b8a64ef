//! Why data are rejected, and why a check has no verdict.

use std::fmt;

/// Why the data do not match the program (docs/LANGUAGE.md, commands).
#[derive(Clone, Copy, PartialEq, Eq, Debug)]
pub enum Reason {
    /// SPACE found another byte than 0x20, or the end of the data.
    ExpectedSpace = 1,
    /// NEWLINE found another byte than 0x0A, or the end of the data.
    ExpectedNewline = 2,
    /// EOF, written or implicit, found a byte.
    ExpectedEof = 3,
    /// INT found no digit, with or without a minus before it.
    ExpectedInt = 4,
    /// INT found `0` with a further digit, with no minus before it.
    LeadingZero = 5,
    /// INT found `-0`, with or without further digits.
    MinusZero = 6,
    /// INT found a number outside its interval.
    OutOfRange = 7,
    /// STRING found another byte than its text has, or the end of the data.
    StringMismatch = 8,
    /// REGEX found no match that starts where the command began.
    RegexMismatch = 9,
    /// The test of ASSERT is false.
    AssertFailed = 10,
}

impl fmt::Display for Reason {
    ghost use Rattle.std.specs.Prelude.{Some};
    ghost use Rattle.ctd_outcome.specs.ReasonText.{reason_text};

    ghost output = { λ r. Some (reason_text r) };

    fn fmt<W: fmt::Write>(&self, f: &mut fmt::Formatter<W>) -> fmt::Result {
        f.write_str(match self {
            Reason::ExpectedSpace => "expected a space",
            Reason::ExpectedNewline => "expected a newline",
            Reason::ExpectedEof => "expected end of file",
            Reason::ExpectedInt => "expected an integer",
            Reason::LeadingZero => "integer with a leading zero",
            Reason::MinusZero => "integer with minus zero",
            Reason::OutOfRange => "value out of range",
            Reason::StringMismatch => "string does not match",
            Reason::RegexMismatch => "regular expression does not match",
            Reason::AssertFailed => "assertion failed",
        })
    }
}

/// Why a check stops without a verdict.
#[derive(Clone, Copy, PartialEq, Eq, Debug)]
pub enum Fault {
    /// A variable that is read has no value.
    Undefined = 1,
    /// An integer stands where a string is needed, or a string where an integer is.
    WrongType = 2,
    /// The result of an operation lies outside `-2^127 .. 2^127-1`.
    Overflow = 3,
    /// The divisor is 0.
    DivisionByZero = 4,
    /// An exponent lies outside `0 .. 2^64-1`.
    Exponent = 5,
    /// The count of a loop lies outside `0 .. 2^64-1`.
    Count = 6,
    /// The arrays of UNIQUE have different sets of index lists.
    Shape = 7,
    /// A command, or a turn of a loop, was to start and no step was left.
    StepLimit = 8,
    /// The match of REGEX fills the whole window.
    MatchTooLong = 9,
    /// A byte was needed past the limit of bytes, and the data pass that limit.
    DataTooLong = 10,
    /// A byte was needed that a failed read did not give.
    Read = 11,
}

impl fmt::Display for Fault {
    ghost use Rattle.std.specs.Prelude.{Some};
    ghost use Rattle.ctd_outcome.specs.ReasonText.{fault_text};

    ghost output = { λ f. Some (fault_text f) };

    fn fmt<W: fmt::Write>(&self, f: &mut fmt::Formatter<W>) -> fmt::Result {
        f.write_str(match self {
            Fault::Undefined => "variable has no value",
            Fault::WrongType => "wrong type",
            Fault::Overflow => "number overflow",
            Fault::DivisionByZero => "division by zero",
            Fault::Exponent => "bad exponent",
            Fault::Count => "bad count",
            Fault::Shape => "arrays have different indices",
            Fault::StepLimit => "step limit reached",
            Fault::MatchTooLong => "match too long",
            Fault::DataTooLong => "test data too long",
            Fault::Read => "read failed",
        })
    }
}
