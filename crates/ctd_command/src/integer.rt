//! INT: an integer of any length, in an interval.
ghost use Rattle.std.specs.Prelude.{◌≡◌, OnOk, IfSome, None, true};
ghost use Rattle.ctd_source.specs.calls.SourceReads.{state_of};
ghost use Rattle.ctd_source.specs.calls.Received.{AdvancesSuchThat};
ghost use Rattle.ctd_program.specs.calls.View.{expr_tree, target};
ghost use Rattle.ctd_command.specs.Commands.{int, integer};
ghost use Rattle.ctd_command.specs.Integer.{is_minus, with_sign};
ghost use Rattle.ctd_command.specs.inner.Passing.{IsBufferedInteger, PassesMinus, PassesDigits};
ghost use Rattle.ctd_command.specs.calls.Performs.{IsSound, Performs};
ghost use Rattle.ctd_command.specs.inner.Performs.{IsAtLeast, IsAtMost};

use crate::digits::{DigitSummary, MAX_U64_DIGITS, leading_number};
use crate::failure::CommandFailure;
use crate::machine::Run;
use ctd_program::{Expr, Var};
use ctd_source::{Cursor, LookFault, Source};

/// An integer of 64 bits at the front of some bytes.
#[derive(Clone, Copy)]
struct BufferedInteger {
    value: i64,
    /// How many bytes it takes.
    len: usize,
}

/// Whether a minus comes first.
fn begins_with_minus(bytes: &[u8]) -> bool
    ensures { result ≡ is_minus bytes.now }
{
    matches!(bytes, [b'-', ..])
}

/// The number of a sign and a size, where the size is below 2^63.
#[inline(always)]
fn with_sign(is_negative: bool, size: u64) -> Option<i64>
    ensures { IfSome result (λ n. n ≡ with_sign is_negative size) }
{
    let value = i64::try_from(size).ok()?;
    Some(if is_negative { -value } else { value })
}

/// The integer that some bytes begin with, where its size is below 2^63, it ends before the bytes do and is written as INT wants it.
fn buffered_integer(bytes: &[u8]) -> Option<BufferedInteger>
    ensures { IfSome result (λ front. IsBufferedInteger bytes.now front.value front.len) }
{
    let is_negative = begins_with_minus(bytes);
    let sign_len = usize::from(is_negative);
    let unsigned = &bytes[sign_len..];
    let few = &unsigned[..unsigned.len().min(MAX_U64_DIGITS)];
    let (size, count) = leading_number(few);
    if count == few.len() || count == 0 {
        return None;
    }
    if few[0] == b'0' && (is_negative || count > 1) {
        return None;
    }
    Some(BufferedInteger {
        value: with_sign(is_negative, size)?,
        len: sign_len + count,
    })
}

/// Passes a minus, where one is next, and tells whether it was.
fn pass_minus<D: Source>(cursor: &mut Cursor<'_, D>) -> Result<bool, LookFault>
    requires sound { (state_of cursor.old).fault ≡ None }
    ensures sound { OnOk result ((state_of cursor.new).fault ≡ None) }
    ensures passes { AdvancesSuchThat cursor.old cursor.new (λ d. PassesMinus d (state_of cursor.old).spot.offset (state_of cursor.new).spot.offset result) }
{
    match cursor.look() {
        Ok(Some(byte)) => {
            if byte != b'-' {
                return Ok(false);
            }
            cursor.take();
            Ok(true)
        }
        Ok(None) => Ok(false),
        Err(fault) => Err(fault),
    }
}

/// Passes the digits that come next, a run of held bytes at a time.
fn pass_digits<D: Source>(
    digits: &mut DigitSummary,
    cursor: &mut Cursor<'_, D>,
) -> Result<(), LookFault>
    requires sound { (state_of cursor.old).fault ≡ None }
    ensures sound { OnOk result ((state_of cursor.new).fault ≡ None) }
    ensures passes { AdvancesSuchThat cursor.old cursor.new (λ d. PassesDigits digits.old digits.new d (state_of cursor.old).spot.offset (state_of cursor.new).spot.offset result) }
{
    loop {
        match cursor.look() {
            Ok(Some(byte)) => {
                if !byte.is_ascii_digit() {
                    return Ok(());
                }
                let count = digits.read(cursor.held_run());
                cursor.take_many(count);
            }
            Ok(None) => return Ok(()),
            Err(fault) => return Err(fault),
        }
    }
}

impl<'d, D: Source> Run<'d, D> {
    /// INT: evaluates both bounds, then passes an integer between them and keeps it in its variable, if there is one. What has the form
    /// of an integer is passed whole, also where it is ExpectedInt, LeadingZero, MinusZero or OutOfRange.
    #[inline(never)]
    pub fn int(&mut self, low: &Expr, high: &Expr, var: &Option<Var>) -> Result<(), CommandFailure>
        requires sound { IsSound self.old }
        ensures performs { Performs self.old self.new result (int (expr_tree low.now) (expr_tree high.now) (target var.now)) }
    {
        let Some(front) = buffered_integer(self.cursor.held_run()) else {
            return self.any_int(low, high, var);
        };
        if !self.is_at_least(front.value, low) || !self.is_at_most(front.value, high) {
            return self.any_int(low, high, var);
        }
        self.cursor.take_in_line(front.len);
        self.keep(var, i128::from(front.value))
    }

    /// Whether the lower bound has a value and this one is not below it.
    #[inline(always)]
    fn is_at_least(&self, value: i64, low: &Expr) -> bool
        requires sound { IsSound self.now }
        ensures { result ≡ true → IsAtLeast self.now value (expr_tree low.now) }
    {
        match self.literal_number(low) {
            Some(least) => least <= value,
            None => match self.fast_number(low) {
                Some(least) => least <= value,
                None => self.is_any_at_least(value, low),
            },
        }
    }

    /// `is_at_least` of a bound of any size. Out of line: keeps the caller small.
    #[inline(never)]
    fn is_any_at_least(&self, value: i64, low: &Expr) -> bool
        requires sound { IsSound self.now }
        ensures { result ≡ true → IsAtLeast self.now value (expr_tree low.now) }
    {
        match self.number(low) {
            Ok(least) => least <= i128::from(value),
            Err(_) => false,
        }
    }

    /// Whether the upper bound has a value and this one is not above it.
    #[inline(always)]
    fn is_at_most(&self, value: i64, high: &Expr) -> bool
        requires sound { IsSound self.now }
        ensures { result ≡ true → IsAtMost self.now value (expr_tree high.now) }
    {
        match self.literal_number(high) {
            Some(most) => value <= most,
            None => match self.fast_number(high) {
                Some(most) => value <= most,
                None => self.is_any_at_most(value, high),
            },
        }
    }

    /// `is_at_most` of a bound of any size. Out of line: keeps the caller small.
    #[inline(never)]
    fn is_any_at_most(&self, value: i64, high: &Expr) -> bool
        requires sound { IsSound self.now }
        ensures { result ≡ true → IsAtMost self.now value (expr_tree high.now) }
    {
        match self.number(high) {
            Ok(most) => i128::from(value) <= most,
            Err(_) => false,
        }
    }

    /// INT with any bounds and any integer. Out of line: keeps the caller small.
    #[inline(never)]
    fn any_int(&mut self, low: &Expr, high: &Expr, var: &Option<Var>) -> Result<(), CommandFailure>
        requires sound { IsSound self.old }
        ensures performs { Performs self.old self.new result (int (expr_tree low.now) (expr_tree high.now) (target var.now)) }
    {
        let least = self.number(low)?;
        let most = self.number(high)?;
        let n = self.any_integer(least, most)?;
        self.keep(var, n)
    }

    /// Passes the longest prefix of the form of an integer, of any length and however it is held, and judges it.
    fn any_integer(&mut self, least: i128, most: i128) -> Result<i128, CommandFailure>
        requires sound { IsSound self.old }
        ensures performs { Performs self.old self.new result (integer least most) }
    {
        let is_negative = pass_minus(&mut self.cursor)?;
        let mut digits = DigitSummary::none();
        pass_digits(&mut digits, &mut self.cursor)?;
        match digits.judge(least, most, is_negative) {
            Ok(n) => Ok(n),
            Err(reason) => Err(CommandFailure::rejected(reason)),
        }
    }
}
