//! How a spot of the data is written.

ghost use Rattle.std.specs.Prelude.{Some};
ghost use Rattle.ctd_source.specs.SpotText.{spot_text};

use crate::spot::Spot;
use std::fmt;

impl fmt::Display for Spot {
    ghost output = { λ s. Some (spot_text s) };

    fn fmt<W: fmt::Write>(&self, f: &mut fmt::Formatter<W>) -> fmt::Result {
        let Spot { line, column, .. } = *self;
        write!(f, "line {line} column {column}")
    }
}
