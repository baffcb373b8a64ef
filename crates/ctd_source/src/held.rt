//! The bytes that a cursor holds.

ghost use Rattle.std.specs.Prelude.{◌≡◌, ◌+◌, ◌^◌, ◌<◌, ◌≤◌, [], ◌++◌, length, take, drop, slice_get, fold, IfOk};
ghost use Rattle.circular_buffer.specs.Buffer.{buffer};
ghost use Rattle.ctd_source.specs.inner.TestData.{spot_after};
ghost use Rattle.ctd_source.specs.declared.limits.TheConstants.{WINDOW, PULL, PIECE_CAPACITY};

use crate::limits::{PIECE_CAPACITY, PULL, WINDOW};
use crate::piece::LentBuffer;
use crate::running_spot::RunningSpot;
use circular_buffer::HeapCircularBuffer;
use std::alloc::{AllocError, Global};
use std::marker::Model;

/// The bytes that are held. They are in a ring, or else all in one piece.
///
/// Bytes that come while none are held go to the front of the ring, so a caller that never asks for a window uses no more memory than one
/// pull needs. Once bytes come behind others, which only a window asks for, all of them go to the piece. Bytes that were passed
/// stay where they are and are only counted, until all were passed or the room of the piece is used up; then those that are held move to its
/// front.
#[derive(Drop)]
pub struct Held {
    ring: HeapCircularBuffer<u8>,
    piece: LentBuffer,
    passed: usize,
}

impl Model for Held {
    ghost use Rattle.std.specs.Prelude.{◌≡◌, ◌+◌, ◌≤◌, ◌⊎◌, [], ◌++◌, length, drop};
    ghost use Rattle.ctd_source.specs.declared.limits.TheConstants.{WINDOW, PULL, PIECE_CAPACITY};
    ghost use Rattle.ctd_source.specs.calls.Holding.{Holding};

    ghost Value = { Holding };

    ghost view = { λ h. record { items = drop h.passed (h.piece ++ h.ring.items); to_gather = length h.ring.items } };

    ghost invariant = { λ h. (h.passed ≤ length h.piece + length h.ring.items) × (length h.piece + length h.ring.items ≤ h.passed + WINDOW) × (length h.piece ≤ PIECE_CAPACITY) × (length h.ring.items ≤ PULL) × (h.ring.capacity ≡ PULL) × ((h.piece ≡ []) ⊎ (h.ring.items ≡ [])) };
}

/// The first bytes of a ring behind those that were passed, as many as lie in one piece: some, where there are any.
#[inline(always)]
fn run_in(ring: &HeapCircularBuffer<u8>, passed: usize) -> &[u8]
    ensures front { take (length result.now) (drop passed ring.now.items) ≡ result.now }
    ensures some { passed < length ring.now.items → 0 < length result.now }
{
    let (front, _) = ring.as_slices();
    if passed < front.len() {
        &front[passed..]
    } else {
        second_run_in(ring, passed)
    }
}

/// The run of the second piece of the ring, where the first is passed. Out of line, since it is rarely needed.
#[cold]
#[inline(never)]
fn second_run_in(ring: &HeapCircularBuffer<u8>, passed: usize) -> &[u8]
    ensures front { take (length result.now) (drop passed ring.now.items) ≡ result.now }
    ensures some { passed < length ring.now.items → 0 < length result.now }
{
    let (front, back) = ring.as_slices();
    let passed = passed.min(ring.len());
    if passed < front.len() {
        &front[passed..]
    } else {
        &back[passed - front.len()..]
    }
}

/// Puts the bytes of a ring in one piece.
#[cold]
#[inline(never)]
fn gather_from(ring: &mut HeapCircularBuffer<u8>, piece: &mut LentBuffer)
    requires fits { length ring.old.items ≤ PULL }
    requires empty { piece.old ≡ [] }
    ensures piece { piece.new ≡ ring.old.items }
    ensures ring { ring.new ≡ buffer [] ring.old.capacity }
{
    let (front, back) = ring.as_slices();
    piece.add(front);
    piece.add(back);
    ring.clear();
}

/// Adds bytes to a piece of which the first `passed` were passed, and makes room for them where there is too little. Returns how many of
/// the bytes in the piece are passed ones then.
fn add_to_piece(piece: &mut LentBuffer, passed: usize, bytes: &[u8]) -> usize
    requires passed { passed ≤ length piece.old }
    requires fits { length piece.old + length bytes.now ≤ passed + WINDOW }
    ensures passed { result ≤ length piece.new }
    ensures fits { length piece.new ≤ result + WINDOW }
    ensures room { length piece.new ≤ PIECE_CAPACITY }
    ensures kept { drop result piece.new ≡ drop passed piece.old ++ bytes.now }
{
    let mut passed = passed;
    if piece.len() + bytes.len() > PIECE_CAPACITY {
        piece.remove_front(passed);
        passed = 0;
    }
    piece.add(bytes);
    passed
}

impl Held {
    /// No bytes, and all the room that is ever needed.
    pub(crate) fn new(alloc: Global) -> Result<Self, AllocError>
        ensures { IfOk result (λ held. held.items ≡ []) }
    {
        Ok(Held {
            ring: HeapCircularBuffer::with_capacity(alloc, PULL)?,
            piece: LentBuffer::new(alloc)?,
            passed: 0,
        })
    }

    /// How many there are.
    #[inline(always)]
    pub(crate) fn len(&self) -> usize
        ensures len { result ≡ length self.now.items }
        ensures within { result ≤ WINDOW }
    {
        self.piece.len() + self.ring.len() - self.passed
    }

    /// The first of them.
    #[inline(always)]
    pub(crate) fn first(&self) -> Option<u8>
        ensures { result ≡ slice_get self.now.items 0 }
    {
        match self.piece.bytes().get(self.passed) {
            Some(byte) => Some(*byte),
            None => self.ring.get(self.passed).copied(),
        }
    }

    /// The first of them, as many as lie in one piece: some, where there are any.
    #[inline(always)]
    pub(crate) fn run(&self) -> &[u8]
        ensures front { take (length result.now) self.now.items ≡ result.now }
        ensures within { length result.now ≤ length self.now.items }
        ensures some { 0 < length self.now.items → 0 < length result.now }
    {
        let piece = self.piece.bytes();
        if self.passed < piece.len() {
            &piece[self.passed..]
        } else {
            run_in(&self.ring, self.passed)
        }
    }

    /// Passes the first `n`.
    #[inline(always)]
    pub(crate) fn pass(&mut self, n: usize)
        requires { n ≤ length self.old.items }
        ensures { self.new.items ≡ drop n self.old.items }
    {
        self.passed += n;
    }

    /// Moves a spot past the first `n`.
    pub(crate) fn lead(&mut self, n: usize, spot: &mut RunningSpot)
        requires within { n ≤ length self.old.items }
        requires fits { (spot.old.line + n < 2 ^ 63) × (spot.old.offset + n < 2 ^ 63) }
        ensures kept { self.new.items ≡ self.old.items }
        ensures value { spot.new ≡ fold spot_after spot.old (take n self.old.items) }
        ensures line { spot.new.line ≤ spot.old.line + n }
        ensures offset { spot.new.offset ≡ spot.old.offset + n }
    {
        let run = self.run();
        if n <= run.len() {
            spot.pass_all(&run[..n]);
        } else {
            self.gather();
            spot.pass_all(&self.piece()[..n]);
        }
    }

    /// Adds the bytes of one pull behind them.
    pub(crate) fn add(&mut self, bytes: &[u8])
        requires pulled { length bytes.now ≤ PULL }
        requires fits { length self.old.items + length bytes.now ≤ WINDOW }
        ensures { self.new.items ≡ self.old.items ++ bytes.now }
    {
        if self.len() == 0 {
            self.ring.clear();
            self.piece.clear();
            self.passed = 0;
            self.ring.fill_from_slice(bytes);
        } else {
            self.gather();
            self.passed = add_to_piece(&mut self.piece, self.passed, bytes);
        }
    }

    /// Gathers them in one piece.
    #[inline(always)]
    pub(crate) fn gather(&mut self)
        ensures kept { self.new.items ≡ self.old.items }
        ensures piece { self.new.to_gather ≡ 0 }
    {
        if !self.ring.is_empty() {
            gather_from(&mut self.ring, &mut self.piece);
        }
    }

    /// The held bytes as one slice.
    #[inline(always)]
    pub(crate) fn piece(&self) -> &[u8]
        requires { self.now.to_gather ≡ 0 }
        ensures { result.now ≡ self.now.items }
    {
        &self.piece.bytes()[self.passed..]
    }
}
