//! The spot of the next byte, as it moves on.

ghost use Rattle.std.specs.Prelude.{◌≡◌, ◌+◌, ◌^◌, ◌<◌, ◌≤◌, ℕ, List, length, fold, count_by};
ghost use Rattle.ctd_source.specs.TestData.{is_newline};
ghost use Rattle.ctd_source.specs.inner.TestData.{spot_after};

use crate::spot::Spot;
use memchr::memrchr;
use std::marker::Model;

/// How many bytes a count of newlines within a byte can take.
const BYTE_COUNT_MAX: usize = 255;

/// The spot of the next byte. It keeps the offset at which the line began in place of the column, so that to pass the
/// bytes of a line changes one number.
#[derive(Drop)]
pub struct RunningSpot {
    line: u64,
    line_start: u64,
    offset: u64,
}

impl Model for RunningSpot {
    ghost use Rattle.std.specs.Prelude.{◌+◌, ◌-◌, ◌≤◌};
    ghost use Rattle.ctd_source.specs.declared.spot.Spot.{Spot};

    ghost Value = { Spot };

    ghost view = { λ s. record { line = s.line; column = s.offset - s.line_start + 1; offset = s.offset } };

    ghost invariant = { λ s. s.line_start ≤ s.offset };
}

impl RunningSpot {
    /// The spot of the first byte.
    pub(crate) fn start() -> Self
        ensures { result ≡ record { line = 1; column = 1; offset = 0 } }
    {
        RunningSpot {
            line: 1,
            line_start: 0,
            offset: 0,
        }
    }

    /// The spot, with its column.
    #[inline(always)]
    pub(crate) fn spot(&self) -> Spot
        requires { self.now.offset < 2 ^ 63 }
        ensures { result ≡ self.now }
    {
        Spot {
            line: self.line,
            column: self.offset - self.line_start + 1,
            offset: self.offset,
        }
    }

    /// The offset.
    #[inline(always)]
    pub(crate) fn offset(&self) -> u64
        ensures { result ≡ self.now.offset }
    {
        self.offset
    }

    /// Moves past one more byte.
    #[inline(always)]
    pub(crate) fn pass(&mut self, byte: u8)
        requires { (self.old.line < 2 ^ 63) × (self.old.offset < 2 ^ 63) }
        ensures { self.new ≡ spot_after self.old byte }
    {
        self.offset += 1;
        if byte == b'\n' {
            self.line += 1;
            self.line_start = self.offset;
        }
    }

    /// Moves past `n` more bytes of which none ends a line.
    #[inline(always)]
    pub(crate) fn pass_in_line(&mut self, n: usize)
        requires { self.old.offset + n < 2 ^ 63 }
        ensures value { (bytes : List ℕ) → length bytes ≡ n → count_by is_newline bytes ≡ 0 → self.new ≡ fold spot_after self.old bytes }
        ensures line { self.new.line ≡ self.old.line }
        ensures offset { self.new.offset ≡ self.old.offset + n }
    {
        self.offset += n as u64;
    }

    /// Moves past more bytes: their newlines are counted, and the last of them begins the line.
    pub(crate) fn pass_all(&mut self, bytes: &[u8])
        requires { (self.old.line + length bytes.now < 2 ^ 63) × (self.old.offset + length bytes.now < 2 ^ 63) }
        ensures value { self.new ≡ fold spot_after self.old bytes.now }
        ensures line { self.new.line ≤ self.old.line + length bytes.now }
        ensures offset { self.new.offset ≡ self.old.offset + length bytes.now }
    {
        let from = self.offset;
        self.offset += bytes.len() as u64;
        if let Some(last) = memrchr(b'\n', bytes) {
            self.line += newlines(bytes);
            self.line_start = from + last as u64 + 1;
        }
    }
}

/// How many newlines a few bytes have: a count that stays within a byte lets a compiler count many at a time.
fn newlines_of_few(bytes: &[u8]) -> u8
    requires { length bytes.now ≤ BYTE_COUNT_MAX }
    ensures { result ≡ count_by is_newline bytes.now }
{
    let mut count = 0;
    for byte in bytes {
        count += u8::from(*byte == b'\n');
    }
    count
}

/// How many newlines there are. Out of line: keeps the passing of bytes of one line small.
#[inline(never)]
fn newlines(bytes: &[u8]) -> u64
    ensures count { result ≡ count_by is_newline bytes.now }
    ensures within { result ≤ length bytes.now }
{
    let mut rest = bytes;
    let mut count = 0;
    while rest.len() > BYTE_COUNT_MAX {
        let (few, others) = rest.split_at(BYTE_COUNT_MAX);
        count += newlines_of_few(few) as u64;
        rest = others;
    }
    count + newlines_of_few(rest) as u64
}
