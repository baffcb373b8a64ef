//! Why a program is refused, and where.

use crate::text::Place;
use std::alloc::{AllocError, AllocFailed};

/// What is wrong with a program.
#[derive(Clone, Copy, Debug, PartialEq, Eq)]
pub enum LoadKind {
    /// The text is longer than a program may be.
    ProgramTooLong = 1,
    /// A byte that begins no token.
    BadByte = 2,
    /// A string literal without its closing quote.
    UnfinishedString = 3,
    /// An octal escape above 255 in a string literal.
    BadOctal = 4,
    /// A numeral above 2^127 - 1.
    NumberTooLarge = 5,
    /// A word or a numeral of the full language that this profile leaves out.
    NotInProfile = 6,
    /// Blocks, parentheses and operators stand too deep inside one another.
    TooDeep = 7,
    /// The tokens spell no program.
    Syntax = 8,
    /// A regular expression that can't be read.
    BadPattern = 9,
    /// The program's text couldn't be read.
    Read = 10,
    /// No memory was left.
    Memory = 11,
}

/// What is wrong with a program, and the place of it where it has one.
#[derive(Clone, Copy, Debug, PartialEq, Eq)]
pub struct LoadFault {
    pub kind: LoadKind,
    pub place: Option<Place>,
}

impl From<AllocError> for LoadFault {
    ghost use Rattle.std.specs.Prelude.{◌≡◌, None};
    ghost use Rattle.ctd_token.specs.declared.fault.LoadKind.TheVariants.{Memory};

    ghost from_gives = { λ _ e. e ≡ record { kind = Memory; place = None } };

    fn from(_error: AllocError) -> Self {
        LoadFault {
            kind: LoadKind::Memory,
            place: None,
        }
    }
}

impl<T: Drop> From<AllocFailed<T>> for LoadFault {
    ghost use Rattle.std.specs.Prelude.{◌≡◌, None};
    ghost use Rattle.ctd_token.specs.declared.fault.LoadKind.TheVariants.{Memory};

    ghost from_gives = { λ _ e. e ≡ record { kind = Memory; place = None } };

    fn from(_error: AllocFailed<T>) -> Self {
        LoadFault {
            kind: LoadKind::Memory,
            place: None,
        }
    }
}

/// Why no token stands at the front of some bytes.
#[derive(Clone, Copy, Debug, PartialEq, Eq)]
pub enum TokenFault {
    /// What is wrong, and how many bytes behind the first it is.
    Wrong { kind: LoadKind, behind: usize },
    /// No memory was left.
    Memory,
}

impl From<LoadKind> for TokenFault {
    ghost use Rattle.std.specs.Prelude.{◌≡◌};
    ghost use Rattle.ctd_token.specs.declared.fault.TokenFault.TheVariants.{Wrong};

    ghost from_gives = { λ kind e. e ≡ Wrong kind 0 };

    fn from(kind: LoadKind) -> Self {
        TokenFault::Wrong { kind, behind: 0 }
    }
}

impl From<AllocError> for TokenFault {
    ghost use Rattle.std.specs.Prelude.{◌≡◌};
    ghost use Rattle.ctd_token.specs.declared.fault.TokenFault.TheVariants.{Memory};

    ghost from_gives = { λ _ e. e ≡ Memory };

    fn from(_error: AllocError) -> Self {
        TokenFault::Memory
    }
}

impl<T: Drop> From<AllocFailed<T>> for TokenFault {
    ghost use Rattle.std.specs.Prelude.{◌≡◌};
    ghost use Rattle.ctd_token.specs.declared.fault.TokenFault.TheVariants.{Memory};

    ghost from_gives = { λ _ e. e ≡ Memory };

    fn from(_error: AllocFailed<T>) -> Self {
        TokenFault::Memory
    }
}
