//! String literals (docs/LANGUAGE.md, tokens).

ghost use Rattle.std.specs.Prelude.{◌≡◌, ◌+◌, ◌<◌, ◌≤◌, drop, IfOk, IfErr, length, slice_index, option_to_list};
ghost use Rattle.std.specs.List.{prefix_len};
ghost use Rattle.ctd_token.specs.StringLiteral.{is_octal, octal_escape, escape, after_backslash, literal};
ghost use Rattle.ctd_token.specs.inner.StringLiteral.{is_plain};
ghost use Rattle.ctd_token.specs.Cut.{text_at};
ghost use Rattle.ctd_token.specs.calls.Scanning.{Scans, FaultWithin};

use crate::fault::{LoadKind, TokenFault};
use crate::text::Bytes;
use crate::token::TokenKind;
use memchr::memchr2;
use std::alloc::Global;

/// The next bytes of a literal: what they stand for, if anything, and how many they are.
#[derive(Clone, Copy)]
struct LiteralPart {
    value: Option<u16>,
    length: usize,
}

// A backslash that begins no escape, and stands for itself.
const LONE_BACKSLASH: LiteralPart = LiteralPart {
    value: Some(b'\\' as u16),
    length: 1,
};

fn is_octal(b: u8) -> bool
    ensures { result ≡ is_octal b }
{
    b'0' <= b && b <= b'7'
}

// How many bytes at the front stand for themselves, whatever is next to them.
fn plain_len(bytes: &[u8]) -> usize
    ensures value { result ≡ prefix_len is_plain bytes.now }
    ensures within { result ≤ length bytes.now }
{
    memchr2(b'"', b'\\', bytes).unwrap_or(bytes.len())
}

// A backslash and up to three octal digits.
fn octal_escape(bytes: &[u8]) -> LiteralPart
    ensures value { option_to_list result.value ≡ (octal_escape bytes.now).values }
    ensures length { result.length ≡ (octal_escape bytes.now).length }
    ensures within { result.length ≤ 1 + length bytes.now }
{
    let mut value = 0;
    let mut n = 0;
    while n < 3 && n < bytes.len() && is_octal(bytes[n]) {
        value = 8 * value + (bytes[n] - b'0') as u16;
        n += 1;
    }
    LiteralPart {
        value: Some(value),
        length: 1 + n,
    }
}

// A backslash and a byte that is no octal digit.
fn escape(b: u8) -> LiteralPart
    ensures value { option_to_list result.value ≡ (escape b).values }
    ensures length { result.length ≡ (escape b).length }
{
    let byte = match b {
        b'n' => b'\n',
        b't' => b'\t',
        b'r' => b'\r',
        b'b' => b'\x08',
        b'"' | b'\\' => b,
        b'\n' => {
            return LiteralPart {
                value: None,
                length: 2,
            };
        }
        _ => return LONE_BACKSLASH,
    };
    LiteralPart {
        value: Some(byte as u16),
        length: 2,
    }
}

// A backslash, and the bytes after it.
fn after_backslash(bytes: &[u8]) -> LiteralPart
    ensures value { option_to_list result.value ≡ (after_backslash bytes.now).values }
    ensures length { result.length ≡ (after_backslash bytes.now).length }
    ensures within { result.length ≤ 1 + length bytes.now }
    ensures some { 0 < result.length }
{
    if bytes.is_empty() {
        LONE_BACKSLASH
    } else if is_octal(bytes[0]) {
        octal_escape(bytes)
    } else {
        escape(bytes[0])
    }
}

/// The string literal at the front of some bytes, which begin with its opening quote, and its
/// length with both quotes.
pub(crate) fn text_at(alloc: Global, bytes: &[u8]) -> Result<(TokenKind, usize), TokenFault>
    requires { 0 < length bytes.now }
    ensures token { Scans result (text_at (literal 0 (drop 1 bytes.now))) }
    ensures within { IfOk result (λ x. (0 < x.1) × (x.1 ≤ length bytes.now)) }
    ensures fault_within { IfErr result (λ f. FaultWithin f (length bytes.now)) }
{
    let mut values = Vec::new(alloc);
    let mut bad_octal = None;
    let mut at = 1;
    while at < bytes.len() {
        if bytes[at] == b'"' {
            return match bad_octal {
                None => Ok((TokenKind::Text(Bytes::from_vec(values)), at + 1)),
                Some(behind) => Err(TokenFault::Wrong {
                    kind: LoadKind::BadOctal,
                    behind,
                }),
            };
        }
        if bytes[at] == b'\\' {
            let part = after_backslash(&bytes[at + 1..]);
            match part.value {
                Some(value) if value > 255 => bad_octal = bad_octal.or(Some(at)),
                Some(value) => values.push(value as u8)?,
                None => {}
            }
            at += part.length;
        } else {
            let n = plain_len(&bytes[at..]);
            values.extend_from_slice(&bytes[at..at + n])?;
            at += n;
        }
    }
    Err(TokenFault::from(LoadKind::UnfinishedString))
}
