//! How places of a program and its faults are written.

ghost use Rattle.std.specs.Prelude.{◌≡◌, ◌≤◌, Some, length};
ghost use Rattle.ctd_token.specs.FaultText.{kind_text, load_fault_text, place_text};

use crate::fault::{LoadFault, LoadKind};
use crate::text::Place;
use std::fmt;

impl fmt::Display for Place {
    ghost output = { λ p. Some (place_text p) };

    fn fmt<W: fmt::Write>(&self, f: &mut fmt::Formatter<W>) -> fmt::Result {
        let Place { line, column } = *self;
        write!(f, "program line {line} column {column}")
    }
}

impl LoadKind {
    /// The words for this kind of fault: ASCII, at most 22 bytes.
    pub fn text(self) -> &'static str
        ensures words { result.now ≡ kind_text self }
        ensures len { length result.now ≤ 22 }
    {
        match self {
            LoadKind::ProgramTooLong => "program too long",
            LoadKind::BadByte => "unexpected byte",
            LoadKind::UnfinishedString => "unfinished string",
            LoadKind::BadOctal => "octal escape above 255",
            LoadKind::NumberTooLarge => "number too large",
            LoadKind::NotInProfile => "not in this profile",
            LoadKind::TooDeep => "nested too deeply",
            LoadKind::Syntax => "syntax error",
            LoadKind::BadPattern => "bad pattern",
            LoadKind::Read => "cannot read program",
            LoadKind::Memory => "out of memory",
        }
    }
}

impl fmt::Display for LoadKind {
    ghost output = { λ k. Some (kind_text k) };

    fn fmt<W: fmt::Write>(&self, f: &mut fmt::Formatter<W>) -> fmt::Result {
        f.write_str(self.text())
    }
}

impl fmt::Display for LoadFault {
    ghost output = { λ f. Some (load_fault_text f) };

    fn fmt<W: fmt::Write>(&self, f: &mut fmt::Formatter<W>) -> fmt::Result {
        let LoadFault { kind, place } = *self;
        match place {
            None => write!(f, "{kind}"),
            Some(place) => write!(f, "{place}: {kind}"),
        }
    }
}
