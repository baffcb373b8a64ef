//! The text of a program, as a source gives it.
ghost use Rattle.std.specs.Prelude.{◌≡◌, ◌<◌, ◌≤◌, ◌+◌, ℕ, List, true, false, length, IfOk, IfErr};
ghost use Rattle.std.specs.Io.KnownBytes.{IsAtEnd};
ghost use Rattle.ctd_source.specs.Pull.{seen_after, pull_count, GivesNext};
ghost use Rattle.ctd_source.specs.SourceReads.{GaveBytes};
ghost use Rattle.ctd_source.specs.declared.source.Seen.TheVariants.{Going, Ended, Broken};

use ctd_source::{Failed, Source};
use std::alloc::{AllocError, Global};

/// How many bytes are pulled at a time. Most programs have fewer, so a check touches no more memory for its program than it needs.
const PROGRAM_READ: usize = 16_384;

/// The text that a source gave.
#[derive(Drop)]
pub(crate) struct ReceivedText {
    pub(crate) bytes: Vec<u8>,
    /// Whether a read failed after them.
    pub(crate) failed: bool,
}

/// Pulls once, at most so many bytes, to the front of a piece.
fn pull_most<P: Source>(
    program: &mut P,
    most: usize,
    piece: &mut [u8; PROGRAM_READ],
) -> Result<usize, Failed>
    requires { 0 < most }
    ensures bound { IfOk result (λ n. n ≤ length piece.new) }
    ensures most { IfOk result (λ n. n ≤ most) }
    ensures given { P.given program.new ≡ P.given program.old + pull_count result }
    ensures seen { P.seen program.new ≡ seen_after result }
    ensures bytes { GivesNext (P.left program.old) (P.left program.new) result piece.new }
    ensures end { P.seen program.old ≡ Going → P.seen program.new ≡ Ended → IsAtEnd (P.left program.new) }
{
    let most = most.min(piece.len());
    program.pull(&mut piece[..most])
}

/// Receives a text until the source ends or fails, or until so many bytes came.
pub(crate) fn receive<P: Source>(
    alloc: Global,
    program: &mut P,
    most: usize,
) -> Result<ReceivedText, AllocError>
    requires going { P.seen program.old ≡ Going }
    ensures within { IfOk result (λ text. length text.bytes.items ≤ most) }
    ensures gave { IfOk result (λ text. GaveBytes P.Source program.old program.new text.bytes.items) }
    ensures failed { IfOk result (λ text. text.failed ≡ true → P.seen program.new ≡ Broken) }
    ensures ended { IfOk result (λ text. text.failed ≡ false → length text.bytes.items < most → P.seen program.new ≡ Ended) }
    ensures memory { IfErr result (λ _. (bytes : List ℕ) × (length bytes ≤ most) × GaveBytes P.Source program.old program.new bytes) }
{
    let mut piece = [0; PROGRAM_READ];
    let mut bytes = Vec::new(alloc);
    while bytes.len() < most {
        match pull_most(program, most - bytes.len(), &mut piece) {
            Ok(0) => {
                return Ok(ReceivedText {
                    bytes,
                    failed: false,
                });
            }
            Ok(more) => bytes.extend_from_slice(&piece[..more])?,
            Err(Failed) => {
                return Ok(ReceivedText {
                    bytes,
                    failed: true,
                });
            }
        }
    }
    Ok(ReceivedText {
        bytes,
        failed: false,
    })
}
