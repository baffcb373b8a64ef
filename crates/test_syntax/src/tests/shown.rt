//! Text that is written part by part.

use std::alloc::{AllocError, Global};
use std::fmt::{Display, Write};
use std::test::Fail;

/// Text that is written part by part; asking for the text returns the allocation error.
#[derive(Drop)]
pub(super) struct Shown {
    text: String,
    whole: bool,
}

impl Shown {
    /// No text.
    pub(super) fn new(alloc: Global) -> Shown {
        Shown {
            text: String::new(alloc),
            whole: true,
        }
    }

    /// Writes a text.
    pub(super) fn put(&mut self, text: &str) {
        if self.text.push_str(text).is_err() {
            self.whole = false;
        }
    }

    /// Writes whatever has a text.
    pub(super) fn put_form<D: Display + Drop>(&mut self, form: D) {
        if write!(self.text, "{form}").is_err() {
            self.whole = false;
        }
    }

    /// Writes the bytes of a name, or those between the quotes of a string.
    pub(super) fn put_bytes(&mut self, bytes: &[u8]) {
        for byte in bytes {
            if self.text.push(*byte as char).is_err() {
                self.whole = false;
            }
        }
    }

    /// All that was written.
    pub(super) fn told(self) -> Result<String, Fail> {
        if !self.whole {
            return Err(Fail::from(AllocError));
        }
        Ok(self.text)
    }
}
