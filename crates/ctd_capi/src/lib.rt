//! The checker as a static library, for callers in other languages: one function over bytes in memory.
#![tactic(auto)]

ghost use Rattle.std.specs.Prelude.{◌==◌};
ghost use Rattle.std.specs.List.{slice_split};
ghost use Rattle.ctd_in_memory.specs.calls.Buffers.{FillsBuffers};
ghost use Rattle.ctd_in_memory.specs.calls.InMemory.{IsAnswerTo};

use ctd_in_memory::{Lengths, answer_in_buffers};
use std::alloc::Global;

/// Checks data against a program, both in memory, as the command line would, and returns the exit status.
///
/// `words` are the words of the command line, with a byte 0 between two of them; the first is the name of the command. No file is
/// opened: `program` and `testdata` stand for the files that the words name, whatever their names are.
///
/// The text for standard output is copied to the front of `out`, that for standard error to the front of `err`, and `lengths` gets
/// their lengths. A text that is longer than its buffer is not copied. All other bytes of the buffers stay as they are.
#[unsafe(no_mangle)]
pub extern "C" fn checktestdata_run(
    alloc: Global,
    words: &[u8],
    program: &[u8],
    testdata: &[u8],
    out: &mut [u8],
    err: &mut [u8],
    lengths: &mut Lengths,
) -> u8
    ensures answers { FillsBuffers (IsAnswerTo (slice_split (λ b. b == 0) words.now) program.now testdata.now)
        (record { length_given = lengths.new.out; before = out.old; after = out.new })
        (record { length_given = lengths.new.err; before = err.old; after = err.new }) result }
{
    answer_in_buffers(alloc, words, program, testdata, out, err, lengths)
}
