//! The digits of an integer as they pass: what a judgement needs is kept, and no digit.

ghost use Rattle.std.specs.Prelude.{◌≡◌, ◌≤◌, ◌<◌, ◌+◌, ◌-◌, ◌*◌, ◌^◌, ◌++◌, if◌then◌else◌, ◌∷◌, [], ℕ, List, length, take, min, IfSome, IfNone, true, false};
ghost use Rattle.std.specs.List.{prefix_len, take_while};
ghost use Rattle.std.specs.Char.{is_ascii_digit};
ghost use Rattle.ctd_command.specs.Integer.{digits_value, judge, with_sign, in_interval};
ghost use Rattle.ctd_command.specs.declared.digits.TheConstants.{MAX_U64_DIGITS};

use ctd_outcome::Reason;

/// What was seen of a row of digits.
#[derive(Clone, Copy)]
pub(crate) struct DigitSummary {
    /// How many there are: none, one or more.
    count: u8,
    /// Whether the first of them is 0.
    is_zero_first: bool,
    /// Their number, where it does not pass `BEYOND`.
    size: u128,
}

/// The size of the least value of 128 bits.
const MIN_SIZE: u128 = 0x8000_0000_0000_0000_0000_0000_0000_0000;

/// One more, which stands for all greater sizes: no bound reaches it.
const BEYOND: u128 = 0x8000_0000_0000_0000_0000_0000_0000_0001;

/// How many digits have a number of 64 bits, whichever they are.
pub(crate) const MAX_U64_DIGITS: usize = 19;

/// The number that a further digit makes; none where the byte is no digit.
#[inline(always)]
fn with_digit(number: u64, byte: u8) -> Option<u64>
    requires { number < 10 ^ 18 }
    ensures digit { IfSome result (λ _. is_ascii_digit byte ≡ true) }
    ensures number { IfSome result (λ n. n ≡ number * 10 + (byte - 48)) }
    ensures none { IfNone result (is_ascii_digit byte ≡ false) }
{
    // What is below b'0' wraps to a number above 9: one test tells whether it is a digit.
    let digit = u64::from(byte).wrapping_sub(48);
    if digit > 9 {
        return None;
    }
    Some(number * 10 + digit)
}

/// The number of the digits that a few bytes begin with, and how many they are. Out of line: within another function the compiler keeps
/// three counters of the digits. It takes four digits a turn, while there are four bytes.
#[inline(never)]
pub(crate) fn leading_number(few: &[u8]) -> (u64, usize)
    requires { length few.now ≤ MAX_U64_DIGITS }
    ensures number { result.0 ≡ digits_value (take_while is_ascii_digit few.now) }
    ensures count { result.1 ≡ prefix_len is_ascii_digit few.now }
{
    let mut number = 0;
    let mut count = 0;
    while few.len() - count >= 4 {
        let Some(one) = with_digit(number, few[count]) else {
            return (number, count);
        };
        let Some(two) = with_digit(one, few[count + 1]) else {
            return (one, count + 1);
        };
        let Some(three) = with_digit(two, few[count + 2]) else {
            return (two, count + 2);
        };
        let Some(four) = with_digit(three, few[count + 3]) else {
            return (three, count + 3);
        };
        number = four;
        count += 4;
    }
    while count < few.len() {
        let Some(more) = with_digit(number, few[count]) else {
            break;
        };
        number = more;
        count += 1;
    }
    (number, count)
}

/// The size that a further digit makes.
fn append_digit(size: u128, digit: u8) -> u128
    requires { digit < 10 }
    ensures { result ≡ min (size * 10 + digit) (2 ^ 127 + 1) }
{
    if size < 1 << 64 {
        return size * 10 + digit as u128;
    }
    let grown = size.saturating_mul(10).saturating_add(digit as u128);
    if grown < BEYOND { grown } else { BEYOND }
}

/// The value of a sign and a size, where 128 bits hold it.
fn value_of(is_negative: bool, size: u128) -> Option<i128>
    ensures some { IfSome result (λ v. (size < 2 ^ 127 + 1) × (v ≡ with_sign is_negative size)) }
    ensures none { IfNone result (2 ^ 127 < size + (if is_negative then 0 else 1)) }
{
    if size < MIN_SIZE {
        let value = size as i128;
        Some(if is_negative { -value } else { value })
    } else if is_negative && size == MIN_SIZE {
        Some(i128::MIN)
    } else {
        None
    }
}

/// The value of a sign and a size of any length, where it lies in the interval.
fn value_in_interval(least: i128, most: i128, is_negative: bool, size: u128) -> Option<i128>
    ensures { (n : ℕ) → size ≡ min n (2 ^ 127 + 1) → result ≡ in_interval least most (with_sign is_negative n) }
{
    let value = value_of(is_negative, size)?;
    if least <= value && value <= most {
        Some(value)
    } else {
        None
    }
}

impl DigitSummary {
    ghost use Rattle.ctd_command.specs.inner.Summaries.{Summarizes};

    /// No digit.
    pub(crate) fn none() -> DigitSummary
        ensures { Summarizes result [] }
    {
        DigitSummary {
            count: 0,
            is_zero_first: false,
            size: 0,
        }
    }

    /// One more digit.
    fn push(&mut self, digit: u8)
        requires { is_ascii_digit digit ≡ true }
        ensures { (digits : List ℕ) → Summarizes self.old digits → Summarizes self.new (digits ++ digit ∷ []) }
    {
        self.is_zero_first |= (self.count == 0) & (digit == b'0');
        self.count = self.count.saturating_add(1).min(2);
        self.size = append_digit(self.size, digit - b'0');
    }

    /// The digits that the bytes begin with; tells how many they are.
    pub(crate) fn read(&mut self, bytes: &[u8]) -> usize
        ensures count { result ≡ prefix_len is_ascii_digit bytes.now }
        ensures seen { (digits : List ℕ) → Summarizes self.old digits → Summarizes self.new (digits ++ take result bytes.now) }
    {
        let mut seen = *self;
        let mut count = 0;
        for byte in bytes {
            if !byte.is_ascii_digit() {
                break;
            }
            seen.push(*byte);
            count += 1;
        }
        *self = seen;
        count
    }

    /// The judgement of a sign and these digits.
    pub(crate) fn judge(&self, least: i128, most: i128, is_negative: bool) -> Result<i128, Reason>
        ensures { (digits : List ℕ) → Summarizes self.now digits → result ≡ judge least most is_negative digits }
    {
        if self.count == 0 {
            return Err(Reason::ExpectedInt);
        }
        if self.is_zero_first && is_negative {
            return Err(Reason::MinusZero);
        }
        if self.is_zero_first && self.count > 1 {
            return Err(Reason::LeadingZero);
        }
        value_in_interval(least, most, is_negative, self.size).ok_or(Reason::OutOfRange)
    }
}
