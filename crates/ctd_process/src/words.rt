//! The words of a command line.

ghost use Rattle.std.specs.Prelude.{◌≡◌, IfOk};
ghost use Rattle.ctd_process.specs.Words.{words_in};

use ctd_token::Bytes;
use std::alloc::{AllocError, Global};
use std::env::Args;

/// Copies of the words that the system gave, in their order.
pub fn copy_words(alloc: Global, args: Args) -> Result<Vec<Bytes>, AllocError>
    ensures { IfOk result (λ words. words.items ≡ words_in args) }
{
    let mut words = Vec::new(alloc);
    for arg in args {
        let word = Bytes::copy(alloc, arg.as_bytes())?;
        words.push(word).map_err(AllocError::from)?;
    }
    Ok(words)
}
