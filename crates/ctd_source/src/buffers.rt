//! The memory of a cursor.
ghost use Rattle.std.specs.Prelude.{◌≡◌, [], vec_len};
ghost use Rattle.ctd_source.specs.declared.limits.TheConstants.{PULL};

use crate::held::Held;
use crate::limits::PULL;
use std::alloc::{AllocError, Global};

/// All the memory that a cursor ever needs: for the bytes that it holds, and for what one read gives.
#[derive(Drop)]
pub struct Buffers {
    pub(crate) window: Held,
    pub(crate) pull_buffer: Vec<u8>,
    ghost empty: { window.items ≡ [] },
    ghost pull_buffer_len: { vec_len pull_buffer ≡ PULL },
}

impl Buffers {
    /// Buffers that hold nothing. No other call of a cursor allocates.
    pub fn new(alloc: Global) -> Result<Self, AllocError> {
        Ok(Buffers {
            window: Held::new(alloc)?,
            pull_buffer: vec![in alloc; 0; PULL]?,
        })
    }
}
