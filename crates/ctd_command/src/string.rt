//! STRING: the bytes of a string.
ghost use Rattle.std.specs.Prelude.{◌≡◌, ◌≤◌, ◌<◌, nat_eq, true, length, take, drop, count_by, None, OnOk, IfOk};
ghost use Rattle.std.specs.List.{common_prefix_len};
ghost use Rattle.ctd_source.specs.calls.Consistency.{IsBounded};
ghost use Rattle.ctd_source.specs.calls.SourceReads.{state_of, MovesPast};
ghost use Rattle.ctd_source.specs.calls.Received.{AdvancesSuchThat};
ghost use Rattle.ctd_source.specs.TestData.{is_newline};
ghost use Rattle.ctd_program.specs.calls.View.{expr_tree};
ghost use Rattle.ctd_command.specs.Commands.{string, match_bytes};
ghost use Rattle.ctd_command.specs.inner.Alone.{DoesAlone};
ghost use Rattle.ctd_command.specs.inner.Passing.{PassesSome};
ghost use Rattle.ctd_command.specs.calls.Performs.{IsSound, Performs};

use crate::failure::CommandFailure;
use crate::machine::Run;
use ctd_outcome::Reason;
use ctd_program::Expr;
use ctd_source::{Cursor, LookFault, Source};
use ctd_value::text_of;

/// How many bytes at the front of two lists agree.
#[derive(Clone, Copy)]
struct CommonPrefix {
    len: usize,
    /// Whether it is known that none of them ends a line.
    is_in_line: bool,
}

/// Whether two lists are the same, and no line ends in them: one pass tells both.
fn agree_in_line(wanted: &[u8], bytes: &[u8]) -> bool
    requires { length wanted.now ≡ length bytes.now }
    ensures same { result ≡ true → wanted.now ≡ bytes.now }
    ensures in_line { result ≡ true → count_by is_newline bytes.now ≡ 0 }
{
    let mut agree = true;
    for i in 0..bytes.len() {
        agree &= (wanted[i] == bytes[i]) & (bytes[i] != b'\n');
    }
    agree
}

/// How many bytes at the front of two lists agree. Most often one of them is all of the front of the other.
fn common_prefix(wanted: &[u8], bytes: &[u8]) -> CommonPrefix
    ensures len { result.len ≡ common_prefix_len nat_eq wanted.now bytes.now }
    ensures in_line { result.is_in_line ≡ true → count_by is_newline (take result.len bytes.now) ≡ 0 }
{
    let most = wanted.len().min(bytes.len());
    let (wanted_front, bytes_front) = (&wanted[..most], &bytes[..most]);
    let is_in_line = agree_in_line(wanted_front, bytes_front);
    if is_in_line || wanted_front == bytes_front {
        return CommonPrefix {
            len: most,
            is_in_line,
        };
    }
    CommonPrefix {
        len: first_difference(wanted, bytes),
        is_in_line: false,
    }
}

/// How many bytes at the front of two lists agree, by a look at each byte.
fn first_difference(wanted: &[u8], bytes: &[u8]) -> usize
    ensures { result ≡ common_prefix_len nat_eq wanted.now bytes.now }
{
    let most = wanted.len().min(bytes.len());
    let mut count = 0;
    while count < most {
        if wanted[count] != bytes[count] {
            return count;
        }
        count += 1;
    }
    count
}

/// The bytes after the first `count`.
fn rest_after(bytes: &[u8], count: usize) -> &[u8]
    requires { count ≤ length bytes.now }
    ensures { result.now ≡ drop count bytes.now }
{
    &bytes[count..]
}

/// How many bytes are compared at once: they fit in the cache, where their lines are counted next.
const COMPARE_CHUNK: usize = 16_384;

/// The first of the bytes, as many as are compared at once.
fn first_chunk(bytes: &[u8]) -> &[u8]
    ensures front { take (length result.now) bytes.now ≡ result.now }
    ensures within { length result.now ≤ length bytes.now }
    ensures some { 0 < length bytes.now → 0 < length result.now }
{
    &bytes[..bytes.len().min(COMPARE_CHUNK)]
}

/// Passes the bytes that agree. Where none of them ends a line, there is no look for lines.
fn pass_common_prefix<D: Source>(front: CommonPrefix, cursor: &mut Cursor<'_, D>)
    requires held { front.len ≤ length (state_of cursor.old).held }
    requires in_line { front.is_in_line ≡ true → count_by is_newline (take front.len (state_of cursor.old).held) ≡ 0 }
    ensures moves { MovesPast front.len cursor.old cursor.new }
    ensures bounded { IsBounded (state_of cursor.new) }
{
    if front.is_in_line {
        cursor.take_in_line(front.len);
    } else {
        cursor.take_many(front.len);
    }
}

/// Passes as many of the wanted bytes as come next and are held, a chunk of them at most, and tells how many.
fn pass_prefix<D: Source>(wanted: &[u8], cursor: &mut Cursor<'_, D>) -> Result<usize, LookFault>
    requires sound { (state_of cursor.old).fault ≡ None }
    ensures sound { OnOk result ((state_of cursor.new).fault ≡ None) }
    ensures within { IfOk result (λ n. n ≤ length wanted.now) }
    ensures passes { AdvancesSuchThat cursor.old cursor.new (λ d. PassesSome wanted.now d (state_of cursor.old).spot.offset (state_of cursor.new).spot.offset result) }
{
    match cursor.look() {
        Ok(Some(_byte)) => {
            let front = common_prefix(wanted, first_chunk(cursor.held_run()));
            pass_common_prefix(front, cursor);
            Ok(front.len)
        }
        Ok(None) => Ok(0),
        Err(fault) => Err(fault),
    }
}

/// Passes these bytes, a run of held bytes at a time.
fn match_bytes<D: Source>(bytes: &[u8], cursor: &mut Cursor<'_, D>) -> Result<(), CommandFailure>
    requires sound { (state_of cursor.old).fault ≡ None }
    ensures sound { OnOk result ((state_of cursor.new).fault ≡ None) }
    ensures matches { AdvancesSuchThat cursor.old cursor.new (λ d. DoesAlone d (state_of cursor.old).spot.offset (state_of cursor.new).spot.offset result (match_bytes bytes.now)) }
{
    let mut rest = bytes;
    while !rest.is_empty() {
        let count = pass_prefix(rest, cursor)?;
        if count == 0 {
            return Err(CommandFailure::rejected(Reason::StringMismatch));
        }
        rest = rest_after(rest, count);
    }
    Ok(())
}

impl<'d, D: Source> Run<'d, D> {
    /// STRING: evaluates a string, then passes its bytes, which are compared where they stand. At the first that differs it is
    /// StringMismatch, and those that agreed are passed.
    #[inline(never)]
    pub fn string(&mut self, e: &Expr) -> Result<(), CommandFailure>
        requires sound { IsSound self.old }
        ensures performs { Performs self.old self.new result (string (expr_tree e.now)) }
    {
        let bytes = text_of(self.alloc, e, &self.store)?;
        match_bytes(bytes, &mut self.cursor)
    }
}
