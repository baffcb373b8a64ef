//! The command that a program leaves open where it breaks off.

use ctd_token::{LoadFault, LoadKind, Place, tokens};
use std::alloc::{AllocError, Global};

/// Whether END could stand at a fault of which this is told; nothing may be told of a long text.
fn may_be_end(told: &[u8]) -> bool {
    told.is_empty() || told.ends_with(b"END")
}

/// The place of the innermost command without its END, in a text whose syntax error, of which this is told, stands behind its last token.
pub(crate) fn unclosed_command(
    alloc: Global,
    text: &[u8],
    fault: &LoadFault,
    told: &[u8],
) -> Result<Option<Place>, AllocError> {
    if fault.kind != LoadKind::Syntax || !may_be_end(told) {
        return Ok(None);
    }
    let tokens = match tokens(alloc, text) {
        Ok(tokens) => tokens,
        Err(fault) => match fault.kind {
            LoadKind::Memory => return Err(AllocError),
            _ => return Ok(None),
        },
    };
    let mut open = Vec::new(alloc);
    for token in &tokens {
        if fault.place == Some(token.place) {
            return Ok(None);
        }
        let Some(word) = text.get(token.first as usize..token.after as usize) else {
            return Ok(None);
        };
        match word {
            b"REP" | b"REPI" | b"WHILE" | b"WHILEI" | b"IF" => open.push(token.place)?,
            b"END" => drop(open.pop()),
            _ => {}
        }
    }
    Ok(open.last().copied())
}
