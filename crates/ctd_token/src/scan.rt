//! One token after another: gaps, words, names, numerals and marks (checktestdata language
//! specification, tokens).

ghost use Rattle.std.specs.Prelude.{◌≡◌, ◌≤◌, ◌<◌, ◌^◌, drop, take, false, true, slice_index, length, All, IfOk, IfErr, IfSome, MatchOption};
ghost use Rattle.std.specs.List.{prefix_len};
ghost use Rattle.std.specs.Char.{is_ascii_uppercase, is_ascii_digit};
ghost use Rattle.ctd_token.specs.Cut.{is_whitespace, skip_gap, single_mark, double_mark, is_left_out_word, name_len, digits_value, word_at, numeral_at, mark_at, token_at};
ghost use Rattle.ctd_token.specs.calls.Scanning.{Scans, FaultWithin};
ghost use Rattle.ctd_token.specs.inner.Scanning.{mark_judgement};

use crate::fault::{LoadKind, TokenFault};
use crate::literal::text_at;
use crate::token::{Mark, TokenKind};
use std::alloc::Global;

fn is_whitespace(b: u8) -> bool
    ensures { result ≡ is_whitespace b }
{
    matches!(b, b' ' | b'\t' | b'\r' | b'\n')
}

/// How many bytes at the front are blanks and comments.
pub(crate) fn gap_len(bytes: &[u8]) -> usize
    ensures within { result ≤ length bytes.now }
    ensures skipped { drop result bytes.now ≡ skip_gap bytes.now }
{
    let mut in_comment = false;
    let mut n = 0;
    while n < bytes.len() {
        let b = bytes[n];
        if in_comment {
            in_comment = b != b'\n';
        } else if b == b'#' {
            in_comment = true;
        } else if !is_whitespace(b) {
            break;
        }
        n += 1;
    }
    n
}

fn word_len(bytes: &[u8]) -> usize
    ensures value { result ≡ prefix_len is_ascii_uppercase bytes.now }
    ensures within { result ≤ length bytes.now }
{
    bytes.iter().take_while(|b| b.is_ascii_uppercase()).count()
}

fn name_len(bytes: &[u8]) -> usize
    ensures value { result ≡ name_len bytes.now }
    ensures within { result ≤ length bytes.now }
{
    bytes
        .iter()
        .take_while(|b| b.is_ascii_lowercase() || b.is_ascii_digit())
        .count()
}

fn digits_len(bytes: &[u8]) -> usize
    ensures value { result ≡ prefix_len is_ascii_digit bytes.now }
    ensures within { result ≤ length bytes.now }
{
    bytes.iter().take_while(|b| b.is_ascii_digit()).count()
}

// Whether a word is one of those that this profile leaves out.
fn is_left_out(word: &[u8]) -> bool
    ensures { result ≡ is_left_out_word word.now }
{
    word == b"FLOAT".as_slice()
        || word == b"FLOATP".as_slice()
        || word == b"FIXED".as_slice()
        || word == b"SCIENTIFIC".as_slice()
}

#[inline(always)]
fn word_at(bytes: &[u8]) -> Result<(TokenKind, usize), LoadKind>
    ensures token { result ≡ word_at (prefix_len is_ascii_uppercase bytes.now) bytes.now }
    ensures within { IfOk result (λ x. x.1 ≤ length bytes.now) }
{
    let n = word_len(bytes);
    if is_left_out(&bytes[..n]) {
        return Err(LoadKind::NotInProfile);
    }
    Ok((TokenKind::Word, n))
}

// The number that the digits spell, where it is below 2^127.
fn digits_value(digits: &[u8]) -> Option<u128>
    requires { All (λ b. is_ascii_digit b ≡ true) digits.now }
    ensures { MatchOption result (2 ^ 127 ≤ digits_value digits.now) (λ n. (n ≡ digits_value digits.now) × (n < 2 ^ 127)) }
{
    let mut value: u128 = 0;
    for b in digits {
        // Below 2^124 there is room for one more digit; from there on a further one is too much.
        if value >= 1 << 124 {
            return None;
        }
        value = 10 * value + (*b - b'0') as u128;
        if value >= 1 << 127 {
            return None;
        }
    }
    Some(value)
}

#[inline(always)]
fn numeral_at(bytes: &[u8]) -> Result<(TokenKind, usize), LoadKind>
    requires { 0 < length bytes.now }
    ensures token { result ≡ numeral_at (prefix_len is_ascii_digit bytes.now) bytes.now }
    ensures within { IfOk result (λ x. x.1 ≤ length bytes.now) }
{
    let n = digits_len(bytes);
    let fraction_begins = n < bytes.len() && matches!(bytes[n], b'.' | b'e' | b'E');
    if fraction_begins || (n >= 2 && bytes[0] == b'0') {
        return Err(LoadKind::NotInProfile);
    }
    match digits_value(&bytes[..n]) {
        Some(value) => Ok((TokenKind::Numeral(value as i128), n)),
        None => Err(LoadKind::NumberTooLarge),
    }
}

// The mark that one byte is.
fn single_mark(b: u8) -> Option<Mark>
    ensures { result ≡ single_mark b }
{
    match b {
        b'(' => Some(Mark::Open),
        b')' => Some(Mark::Close),
        b'[' => Some(Mark::OpenIndex),
        b']' => Some(Mark::CloseIndex),
        b',' => Some(Mark::Comma),
        b'=' => Some(Mark::Assign),
        b'+' => Some(Mark::Plus),
        b'-' => Some(Mark::Minus),
        b'*' => Some(Mark::Times),
        b'/' => Some(Mark::Divide),
        b'%' => Some(Mark::Percent),
        b'^' => Some(Mark::Caret),
        b'!' => Some(Mark::Bang),
        b'<' => Some(Mark::Less),
        b'>' => Some(Mark::Greater),
        _ => None,
    }
}

// The mark that two bytes are.
fn double_mark(a: u8, b: u8) -> Option<Mark>
    ensures { result ≡ double_mark a b }
{
    match (a, b) {
        (b'<', b'=') => Some(Mark::AtMost),
        (b'>', b'=') => Some(Mark::AtLeast),
        (b'=', b'=') => Some(Mark::Equal),
        (b'!', b'=') => Some(Mark::Unequal),
        (b'&', b'&') => Some(Mark::AndAnd),
        (b'|', b'|') => Some(Mark::OrOr),
        _ => None,
    }
}

#[inline(always)]
fn mark_at(bytes: &[u8]) -> Option<(Mark, usize)>
    requires { 0 < length bytes.now }
    ensures token { mark_judgement result ≡ mark_at (slice_index bytes.now 0) (drop 1 bytes.now) }
    ensures within { IfSome result (λ x. (0 < x.1) × (x.1 ≤ length bytes.now)) }
{
    if bytes.len() > 1 {
        if let Some(mark) = double_mark(bytes[0], bytes[1]) {
            return Some((mark, 2));
        }
    }
    let mark = single_mark(bytes[0])?;
    Some((mark, 1))
}

/// The longest token at the front of some bytes and its length, or the fault of the bytes there (checktestdata language
/// specification, tokens).
///
/// No blank and no comment is left out: at one, the fault is BadByte. The fault is at the first byte, but BadOctal is at
/// its backslash, this many bytes further on. Only a string takes memory, and only a refused growth is Memory. The time is
/// linear in the bytes of the token, where there is one.
#[inline(always)] // With the three that it asks: they are called for each token of a program, and their answers would go through memory.
pub fn token_at(alloc: Global, bytes: &[u8]) -> Result<(TokenKind, usize), TokenFault>
    requires some { 0 < length bytes.now }
    ensures token { Scans result (token_at bytes.now) }
    ensures within { IfOk result (λ x. (0 < x.1) × (x.1 ≤ length bytes.now)) }
    ensures fault_within { IfErr result (λ f. FaultWithin f (length bytes.now)) }
{
    let first = bytes[0];
    if first.is_ascii_uppercase() {
        Ok(word_at(bytes)?)
    } else if first.is_ascii_lowercase() {
        Ok((TokenKind::Name, name_len(bytes)))
    } else if first.is_ascii_digit() {
        Ok(numeral_at(bytes)?)
    } else if first == b'"' {
        text_at(alloc, bytes)
    } else if let Some((mark, len)) = mark_at(bytes) {
        Ok((TokenKind::Mark(mark), len))
    } else {
        Err(TokenFault::from(LoadKind::BadByte))
    }
}
