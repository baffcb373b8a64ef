//! Bytes in one piece.
ghost use Rattle.std.specs.Prelude.{◌≡◌, ◌+◌, ◌≤◌, [], ◌++◌, length, drop, vec_len, vec_capacity, IfOk};
ghost use Rattle.ctd_source.specs.declared.limits.TheConstants.{PIECE_CAPACITY};

use crate::limits::PIECE_CAPACITY;
use std::alloc::{AllocError, Global};
use std::marker::Model;

/// Bytes in one piece, with room for `PIECE_CAPACITY` of them. Room that was never needed is never touched.
#[derive(Drop)]
pub struct LentBuffer {
    room: Vec<u8>,
}

impl Model for LentBuffer {
    ghost use Rattle.std.specs.Prelude.{◌≤◌, ℕ, List, vec_len, vec_capacity};
    ghost use Rattle.ctd_source.specs.declared.limits.TheConstants.{PIECE_CAPACITY};

    ghost Value = { List ℕ };

    ghost view = { λ p. p.room.items };

    ghost invariant = { λ p. (vec_len p.room ≤ PIECE_CAPACITY) × (PIECE_CAPACITY ≤ vec_capacity p.room) };
}

impl LentBuffer {
    /// No bytes.
    pub(crate) fn new(alloc: Global) -> Result<Self, AllocError>
        ensures { IfOk result (λ piece. piece ≡ []) }
    {
        Ok(LentBuffer {
            room: Vec::with_capacity(alloc, PIECE_CAPACITY)?,
        })
    }

    /// How many there are.
    #[inline(always)]
    pub(crate) fn len(&self) -> usize
        ensures len { result ≡ length self.now }
        ensures within { result ≤ PIECE_CAPACITY }
    {
        self.room.len()
    }

    /// The bytes.
    #[inline(always)]
    pub(crate) fn bytes(&self) -> &[u8]
        ensures { result.now ≡ self.now }
    {
        &self.room
    }

    /// Adds bytes behind them.
    #[inline(always)]
    pub(crate) fn add(&mut self, bytes: &[u8])
        requires { length self.old + length bytes.now ≤ PIECE_CAPACITY }
        ensures { self.new ≡ self.old ++ bytes.now }
    {
        if self.room.extend_from_slice(bytes).is_err() {
            unreachable!();
        }
    }

    /// Removes the first `n`, and moves the others to the front of the room.
    #[cold]
    #[inline(never)]
    pub(crate) fn remove_front(&mut self, n: usize)
        requires { n ≤ length self.old }
        ensures { self.new ≡ drop n self.old }
    {
        self.room.copy_within(n.., 0);
        self.room.truncate(self.room.len() - n);
    }

    /// Leaves all of them out.
    pub(crate) fn clear(&mut self)
        ensures { self.new ≡ [] }
    {
        self.room.clear();
    }
}
