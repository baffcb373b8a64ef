//! A finding: what is said of a command, with its place.

use crate::kind::Kind;
use ctd_token::{Bytes, Place};

/// What is said of a command: a kind, and the name of a variable where it is about one.
#[derive(Drop)]
pub struct Remark {
    pub kind: Kind,
    pub name: Option<Bytes>,
}

/// A remark, with the place of its command, or the start of the program where it is about a preset.
#[derive(Drop)]
pub struct Finding {
    pub place: Place,
    pub remark: Remark,
}
