//! A command line as one text: a byte 0 stands between two words.

ghost use Rattle.std.specs.Prelude.{◌≡◌, ◌==◌, map, IfOk};
ghost use Rattle.std.specs.List.{slice_split};

use ctd_check::Bytes;
use std::alloc::{AllocError, Global};

/// Cuts a text at its bytes 0.
fn split_at_zeros(alloc: Global, text: &[u8]) -> Result<Vec<&[u8]>, AllocError>
    ensures { IfOk result (λ pieces. map (λ x. x.now) pieces.items ≡ slice_split (λ b. b == 0) text.now) }
{
    text.split(|byte| *byte == 0).collect(alloc)
}

/// The words of a command line.
pub(crate) fn split_words(alloc: Global, text: &[u8]) -> Result<Vec<Bytes>, AllocError>
    ensures { IfOk result (λ words. words.items ≡ slice_split (λ b. b == 0) text.now) }
{
    let pieces = split_at_zeros(alloc, text)?;
    let mut words = Vec::new(alloc);
    for piece in pieces.as_slice() {
        words.push(Bytes::copy(alloc, piece)?)?;
    }
    Ok(words)
}
