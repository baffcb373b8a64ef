//! The answer to a command line, in buffers of the caller.

ghost use Rattle.std.specs.Prelude.{◌==◌};
ghost use Rattle.std.specs.List.{slice_split};
ghost use Rattle.ctd_in_memory.specs.calls.Buffers.{ReceivesText, FillsBuffers};
ghost use Rattle.ctd_in_memory.specs.calls.InMemory.{IsAnswerTo};

use crate::run::run_in_memory;
use std::alloc::Global;

/// How long the two texts of an answer are, in bytes, also where a buffer is too small for its text.
#[repr(C)]
#[derive(Drop)]
pub struct Lengths {
    /// The length of the text for standard output.
    pub out: usize,
    /// The length of the text for standard error.
    pub err: usize,
}

/// Checks data against a program, both in memory, as the command line would, and returns the exit status.
///
/// `words` are the words of the command line, with a byte 0 between two of them; the first is the name of the command. No file is
/// opened: `program` and `testdata` stand for the files that the words name, whatever their names are.
///
/// The text for standard output is copied to the front of `out`, that for standard error to the front of `err`, and `lengths` gets
/// their lengths. A text that is longer than its buffer is not copied. All other bytes of the buffers stay as they are.
pub fn answer_in_buffers(
    alloc: Global,
    words: &[u8],
    program: &[u8],
    testdata: &[u8],
    out: &mut [u8],
    err: &mut [u8],
    lengths: &mut Lengths,
) -> u8
    ensures answers { FillsBuffers (IsAnswerTo (slice_split (λ b. b == 0) words.now) program.now testdata.now)
        (record { length_given = lengths.new.out; before = out.old; after = out.new })
        (record { length_given = lengths.new.err; before = err.old; after = err.new }) result }
{
    let answer = run_in_memory(alloc, words, program, testdata);
    lengths.out = copy_text(answer.out.bytes.as_slice(), out);
    lengths.err = copy_text(answer.err.bytes.as_slice(), err);
    answer.status
}

/// Copies a text to the front of a buffer, if it fits, and returns its length in bytes.
fn copy_text(text: &[u8], buffer: &mut [u8]) -> usize
    ensures receives { ReceivesText text.now (record { length_given = result; before = buffer.old; after = buffer.new }) }
{
    let length = text.len();
    if length <= buffer.len() {
        buffer[..length].copy_from_slice(text);
    }
    length
}
