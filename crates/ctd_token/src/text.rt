//! Places in a program, and strings of bytes.

ghost use Rattle.std.specs.Prelude.{◌≡◌, ◌≤◌, List, ℕ, length, true, false, IfOk};

use std::alloc::{AllocError, Global};
use std::marker::Model;

/// A place in the text of a program: a line and a column in bytes, both counted from 1.
#[derive(Clone, Copy, Debug, PartialEq, Eq)]
pub struct Place {
    pub line: u32,
    pub column: u32,
}

/// A string of bytes of any values, which contracts see as the list of them.
pub struct Bytes {
    items: Vec<u8>,
}

impl Drop for Bytes {
    fn drop(self) {
        let Bytes { items: _ } = self;
    }
}

impl Model for Bytes {
    ghost Value = { List ℕ };

    ghost view = { λ b. b.items.items };
}

impl Bytes {
    /// A copy of some bytes, or an error where no memory is left for it.
    pub fn copy(alloc: Global, bytes: &[u8]) -> Result<Bytes, AllocError>
        ensures equal { IfOk result (λ copied. copied ≡ bytes.now) }
    {
        let items = bytes.to_vec(alloc)?;
        Ok(Bytes { items })
    }

    /// The bytes of a list, which is not copied.
    pub(crate) fn from_vec(items: Vec<u8>) -> Bytes
        ensures equal { result ≡ items.items }
    {
        Bytes { items }
    }

    /// The bytes, all of them.
    pub fn as_slice(&self) -> &[u8]
        ensures whole { result.now ≡ self.now }
    {
        self.items.as_slice()
    }

    /// Puts other bytes in place of these, where there is room for them without more memory, and tells whether it did; else all
    /// is as it was. There is room for as many as these are.
    pub fn overwrite(&mut self, bytes: &[u8]) -> bool
        ensures done { result ≡ true → self.new ≡ bytes.now }
        ensures stays { result ≡ false → self.new ≡ self.old }
        ensures fits { length bytes.now ≤ length self.old → result ≡ true }
    {
        if self.items.capacity() < bytes.len() {
            return false;
        }
        self.items.clear();
        self.items.extend_from_slice(bytes).is_ok()
    }
}
