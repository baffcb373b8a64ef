//! What is told of a fault of a program besides its name: what could stand at a syntax error, what is wrong with a pattern, what is left out.

use crate::expected::expected_behind;
use ctd_findings::pattern_mistake;
use ctd_token::{LoadFault, LoadKind, Place, TokenKind, tokens};
use itoa::Buffer;
use std::alloc::{AllocError, Global};

/// The longest text, in bytes, behind which tokens are tried.
const LONGEST_TRIED: usize = 65_536;

/// The text before a place, and the rest.
fn split_at_place(text: &[u8], place: Place) -> (&[u8], &[u8]) {
    let mut line = 1u32;
    let mut column = 1u32;
    for (offset, byte) in text.iter().enumerate() {
        if line == place.line && column == place.column {
            return text.split_at(offset);
        }
        if *byte == b'\n' {
            line = line.saturating_add(1);
            column = 1;
        } else {
            column = column.saturating_add(1);
        }
    }
    (text, &[])
}

/// What could stand at the end of a text with which a program may begin. Of a long one nothing is told, since each token is tried behind all of it.
fn expected_text(alloc: Global, text: &[u8]) -> Result<Vec<u8>, AllocError> {
    if text.len() > LONGEST_TRIED {
        return Ok(Vec::new(alloc));
    }
    let names = expected_behind(alloc, text)?;
    let Some(names) = names.as_slice().strip_prefix(b" or ") else {
        return Ok(Vec::new(alloc));
    };
    let mut told = b": expected ".to_vec(alloc)?;
    told.extend_from_slice(names)?;
    Ok(told)
}

/// What is wrong with the pattern that a literal would be.
fn mistake_text(alloc: Global, literal: &[u8]) -> Result<Vec<u8>, AllocError> {
    let mistake = pattern_mistake(alloc, literal)?;
    let mut told = b": ".to_vec(alloc)?;
    told.extend_from_slice(mistake.text.as_bytes())?;
    if let Some(byte) = mistake.byte {
        told.extend_from_slice(b" at byte ")?;
        told.extend_from_slice(Buffer::new().format(byte).as_bytes())?;
        told.extend_from_slice(b" of the pattern")?;
    }
    Ok(told)
}

/// What is wrong with the pattern that stands at a place of a text.
fn pattern_text(alloc: Global, text: &[u8], place: Place) -> Result<Vec<u8>, AllocError> {
    let tokens = match tokens(alloc, text) {
        Ok(tokens) => tokens,
        Err(fault) => match fault.kind {
            LoadKind::Memory => return Err(AllocError),
            _ => return Ok(Vec::new(alloc)),
        },
    };
    for token in &tokens {
        match &token.kind {
            TokenKind::Text(pattern) if token.place == place => {
                return mistake_text(alloc, pattern.as_slice());
            }
            _ => {}
        }
    }
    Ok(Vec::new(alloc))
}

/// What is told of a part of the full language that is left out, with which a text begins: a command, or a number.
fn left_out_text(text: &[u8]) -> &'static str {
    match text.first() {
        Some(b'A'..=b'Z') => ": numbers are whole here, and REGEX reads others",
        _ => ": a number has no fraction, no exponent and no leading zero",
    }
}

/// What is told of a fault besides its name, if anything is.
pub(crate) fn explanation(
    alloc: Global,
    text: &[u8],
    fault: &LoadFault,
) -> Result<Vec<u8>, AllocError> {
    let Some(place) = fault.place else {
        return Ok(Vec::new(alloc));
    };
    let (before, behind) = split_at_place(text, place);
    match fault.kind {
        LoadKind::Syntax => expected_text(alloc, before),
        LoadKind::BadPattern => pattern_text(alloc, text, place),
        LoadKind::NotInProfile => left_out_text(behind).as_bytes().to_vec(alloc),
        _ => Ok(Vec::new(alloc)),
    }
}
