//! Why a command is not done.

use ctd_outcome::{Fault, Reason};
use ctd_source::LookFault;
use ctd_value::{EvalFault, TestFault};
use std::alloc::AllocError;
use std::marker::Model;

/// Why a command is not done: the data do not match it, a fault stopped it, or no memory is left.
#[derive(Clone, Copy)]
pub enum Failure {
    /// The data do not match the program, for this reason.
    Rejected(Reason),
    /// The command has no answer, by this fault.
    Stopped(Fault),
    /// An allocation failed.
    Memory,
}

/// A failure in one number.
#[derive(Clone, Copy)]
enum FailureCode {
    ExpectedSpace,
    ExpectedNewline,
    ExpectedEof,
    ExpectedInt,
    LeadingZero,
    MinusZero,
    OutOfRange,
    StringMismatch,
    RegexMismatch,
    AssertFailed,
    Undefined,
    WrongType,
    Overflow,
    DivisionByZero,
    Exponent,
    Count,
    Shape,
    StepLimit,
    MatchTooLong,
    DataTooLong,
    Read,
    Memory,
}

/// A failure as commands answer it, which contracts see as the failure. It is one number, so that an answer of a command stands in
/// registers.
#[derive(Clone, Copy)]
pub struct CommandFailure(FailureCode);

impl Model for CommandFailure {
    ghost use Rattle.std.proofs.Common.{ap};
    ghost use Rattle.ctd_command.specs.calls.FailureCodes.{failure_at};
    ghost use Rattle.ctd_command.specs.inner.FailureCodes.{code_of, code_again};
    ghost use Rattle.ctd_command.specs.declared.failure.Failure.{Failure};

    ghost Value = { Failure };

    ghost view = { λ f. failure_at f.0 };

    ghost inverse = { λ failure. record { 0 = code_of failure } };

    ghost inverse_ok = { λ f _. ap (λ code. record { 0 = code }) (code_again f.0) };
}

impl From<LookFault> for CommandFailure {
    ghost use Rattle.std.specs.Prelude.{◌≡◌};
    ghost use Rattle.ctd_value.specs.Fault.{fault_of_look};
    ghost use Rattle.ctd_command.specs.declared.failure.Failure.TheVariants.{Stopped};

    ghost from_gives = { λ fault failure. failure ≡ Stopped (fault_of_look fault) };

    fn from(fault: LookFault) -> CommandFailure {
        CommandFailure(match fault {
            LookFault::Read => FailureCode::Read,
            LookFault::DataTooLong => FailureCode::DataTooLong,
        })
    }
}

impl From<EvalFault> for CommandFailure {
    ghost use Rattle.std.specs.Prelude.{◌≡◌};
    ghost use Rattle.ctd_command.specs.calls.Failures.{failure_of};

    ghost from_gives = { λ fault failure. failure ≡ failure_of fault };

    fn from(fault: EvalFault) -> CommandFailure {
        CommandFailure(match fault {
            EvalFault::Undefined => FailureCode::Undefined,
            EvalFault::WrongType => FailureCode::WrongType,
            EvalFault::Overflow => FailureCode::Overflow,
            EvalFault::DivisionByZero => FailureCode::DivisionByZero,
            EvalFault::Exponent => FailureCode::Exponent,
            EvalFault::Count => FailureCode::Count,
            EvalFault::Shape => FailureCode::Shape,
            EvalFault::Memory => FailureCode::Memory,
        })
    }
}

impl From<TestFault> for CommandFailure {
    ghost use Rattle.std.specs.Prelude.{◌≡◌};
    ghost use Rattle.ctd_command.specs.calls.Failures.{test_failure};

    ghost from_gives = { λ fault failure. failure ≡ test_failure fault };

    fn from(fault: TestFault) -> CommandFailure {
        match fault {
            TestFault::Eval(fault) => CommandFailure::from(fault),
            TestFault::Look(fault) => CommandFailure::from(fault),
        }
    }
}

impl From<AllocError> for CommandFailure {
    ghost use Rattle.std.specs.Prelude.{◌≡◌};
    ghost use Rattle.ctd_command.specs.declared.failure.Failure.TheVariants.{Memory};

    ghost from_gives = { λ _ failure. failure ≡ Memory };

    fn from(_: AllocError) -> CommandFailure {
        CommandFailure(FailureCode::Memory)
    }
}

impl CommandFailure {
    ghost use Rattle.std.specs.Prelude.{◌≡◌};
    ghost use Rattle.ctd_command.specs.declared.failure.Failure.TheVariants.{Rejected, Stopped};

    /// The data do not match, for this reason.
    pub fn rejected(reason: Reason) -> CommandFailure
        ensures { result ≡ Rejected reason }
    {
        CommandFailure(match reason {
            Reason::ExpectedSpace => FailureCode::ExpectedSpace,
            Reason::ExpectedNewline => FailureCode::ExpectedNewline,
            Reason::ExpectedEof => FailureCode::ExpectedEof,
            Reason::ExpectedInt => FailureCode::ExpectedInt,
            Reason::LeadingZero => FailureCode::LeadingZero,
            Reason::MinusZero => FailureCode::MinusZero,
            Reason::OutOfRange => FailureCode::OutOfRange,
            Reason::StringMismatch => FailureCode::StringMismatch,
            Reason::RegexMismatch => FailureCode::RegexMismatch,
            Reason::AssertFailed => FailureCode::AssertFailed,
        })
    }

    /// This fault stopped the command.
    pub fn stopped(fault: Fault) -> CommandFailure
        ensures { result ≡ Stopped fault }
    {
        CommandFailure(match fault {
            Fault::Undefined => FailureCode::Undefined,
            Fault::WrongType => FailureCode::WrongType,
            Fault::Overflow => FailureCode::Overflow,
            Fault::DivisionByZero => FailureCode::DivisionByZero,
            Fault::Exponent => FailureCode::Exponent,
            Fault::Count => FailureCode::Count,
            Fault::Shape => FailureCode::Shape,
            Fault::StepLimit => FailureCode::StepLimit,
            Fault::MatchTooLong => FailureCode::MatchTooLong,
            Fault::DataTooLong => FailureCode::DataTooLong,
            Fault::Read => FailureCode::Read,
        })
    }

    /// The failure that it stands for.
    pub fn failure(self) -> Failure
        ensures { result ≡ self }
    {
        match self.0 {
            FailureCode::ExpectedSpace => Failure::Rejected(Reason::ExpectedSpace),
            FailureCode::ExpectedNewline => Failure::Rejected(Reason::ExpectedNewline),
            FailureCode::ExpectedEof => Failure::Rejected(Reason::ExpectedEof),
            FailureCode::ExpectedInt => Failure::Rejected(Reason::ExpectedInt),
            FailureCode::LeadingZero => Failure::Rejected(Reason::LeadingZero),
            FailureCode::MinusZero => Failure::Rejected(Reason::MinusZero),
            FailureCode::OutOfRange => Failure::Rejected(Reason::OutOfRange),
            FailureCode::StringMismatch => Failure::Rejected(Reason::StringMismatch),
            FailureCode::RegexMismatch => Failure::Rejected(Reason::RegexMismatch),
            FailureCode::AssertFailed => Failure::Rejected(Reason::AssertFailed),
            FailureCode::Undefined => Failure::Stopped(Fault::Undefined),
            FailureCode::WrongType => Failure::Stopped(Fault::WrongType),
            FailureCode::Overflow => Failure::Stopped(Fault::Overflow),
            FailureCode::DivisionByZero => Failure::Stopped(Fault::DivisionByZero),
            FailureCode::Exponent => Failure::Stopped(Fault::Exponent),
            FailureCode::Count => Failure::Stopped(Fault::Count),
            FailureCode::Shape => Failure::Stopped(Fault::Shape),
            FailureCode::StepLimit => Failure::Stopped(Fault::StepLimit),
            FailureCode::MatchTooLong => Failure::Stopped(Fault::MatchTooLong),
            FailureCode::DataTooLong => Failure::Stopped(Fault::DataTooLong),
            FailureCode::Read => Failure::Stopped(Fault::Read),
            FailureCode::Memory => Failure::Memory,
        }
    }
}
