//! How a check ends: the verdict or the fault, and where.

use crate::reason::{Fault, Reason};
use ctd_source::{Seen, Spot};
use ctd_token::Place;
use std::fmt;

/// Where in the program a command, or a turn of a loop, stands.
#[derive(Clone, Copy, PartialEq, Eq, Debug)]
pub enum Site {
    /// The skip of blanks before the first command.
    Start,
    /// The word of a command; for a turn, that of its loop.
    At(Place),
    /// The end-of-file command that stands implicitly at the end of every program.
    Finish,
}

impl fmt::Display for Site {
    ghost use Rattle.std.specs.Prelude.{Some};
    ghost use Rattle.ctd_outcome.specs.OutcomeText.{site_text};

    ghost output = { λ s. Some (site_text s) };

    fn fmt<W: fmt::Write>(&self, f: &mut fmt::Formatter<W>) -> fmt::Result {
        match self {
            Site::Start => f.write_str("program start"),
            Site::At(place) => write!(f, "{place}"),
            Site::Finish => f.write_str("program end"),
        }
    }
}

/// The verdict, or why there is none. Spot and place are those at which the command, or the turn of a loop, began.
#[derive(Clone, Copy, PartialEq, Eq, Debug)]
pub enum Outcome {
    /// The data match the program.
    Accepted,
    /// The data do not match the program.
    Rejected {
        spot: Spot,
        place: Site,
        reason: Reason,
    },
    /// The check stopped before it had a verdict.
    Stopped {
        spot: Spot,
        place: Site,
        fault: Fault,
    },
}

/// What a check found.
#[derive(Clone, Copy, PartialEq, Eq, Debug)]
pub struct Checked {
    /// How it ended.
    pub outcome: Outcome,
    /// The steps that were paid.
    pub steps: u64,
    /// The bytes of the data that the commands passed.
    pub consumed: u64,
    /// The bytes that were read from the data.
    pub taken: u64,
    /// What was seen of the end of the data.
    pub seen: Seen,
}
