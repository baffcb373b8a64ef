//! Why a run ends.

use ctd_command::{CommandFailure, Failure};
use ctd_outcome::{Outcome, Site};
use ctd_source::Spot;

/// Why a run goes no further: it has an outcome, or no memory is left.
#[derive(Clone, Copy)]
pub(crate) enum Halt {
    Outcome(Outcome),
    Memory,
}

impl Halt {
    ghost use Rattle.std.specs.Prelude.{◌≡◌};
    ghost use Rattle.ctd_check.specs.inner.Halts.{halt_of};

    /// How a run ends by the failure of a command that began at this spot and stands at this site.
    pub(crate) fn of(failure: CommandFailure, spot: Spot, site: Site) -> Halt
        ensures { result ≡ halt_of spot site failure }
    {
        match failure.failure() {
            Failure::Rejected(reason) => Halt::Outcome(Outcome::Rejected {
                spot,
                place: site,
                reason,
            }),
            Failure::Stopped(fault) => Halt::Outcome(Outcome::Stopped {
                spot,
                place: site,
                fault,
            }),
            Failure::Memory => Halt::Memory,
        }
    }
}
