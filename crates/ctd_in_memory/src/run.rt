//! A command line, a program and data in memory, to both texts and the status.

ghost use Rattle.std.specs.Prelude.{◌≡◌, ◌==◌, false};
ghost use Rattle.std.specs.List.{slice_split};
ghost use Rattle.ctd_report.specs.Written.{EndsWithReport, before_after};
ghost use Rattle.ctd_in_memory.specs.calls.Buffers.{HoldReport};
ghost use Rattle.ctd_in_memory.specs.calls.InMemory.{IsAnswerTo};

use crate::memory_source::MemorySource;
use crate::text_sink::TextSink;
use crate::words::split_words;
use ctd_check::Bytes;
use ctd_report::NO_VERDICT;
use ctd_tool::{Sink, ToolFault, UsageFault, run_tool, settings, usage_status};
use std::alloc::Global;

/// The exit status, and the texts for both streams.
#[derive(Drop)]
pub(crate) struct Answer {
    pub(crate) status: u8,
    pub(crate) out: TextSink,
    pub(crate) err: TextSink,
}

/// Answers the words: reads the settings from them, checks the data, writes the report and returns the status.
fn answer_words<O: Sink, E: Sink>(
    alloc: Global,
    words: &[Bytes],
    program: &[u8],
    testdata: &[u8],
    out: &mut O,
    err: &mut E,
) -> u8
    requires out_works { O.has_failed out.old ≡ false }
    requires err_works { E.has_failed err.old ≡ false }
    ensures { EndsWithReport (before_after O.Sink out.old out.new) (before_after E.Sink err.old err.new)
        (IsAnswerTo words.now program.now testdata.now) result }
{
    let setup = match settings(alloc, words) {
        Ok(setup) => setup,
        Err(fault) => return usage_status(&fault, out, err),
    };
    let mut program = MemorySource::new(program);
    let mut testdata = MemorySource::new(testdata);
    match run_tool(alloc, &setup, &mut program, &mut testdata, out, err) {
        Ok(status) => status,
        Err(ToolFault::Memory) => usage_status(&UsageFault::Memory, out, err),
        Err(ToolFault::Write) => NO_VERDICT,
    }
}

/// Answers a command line, given as one text with a byte 0 between two words, into two texts in memory.
pub(crate) fn run_in_memory(alloc: Global, words: &[u8], program: &[u8], testdata: &[u8]) -> Answer
    ensures { HoldReport (IsAnswerTo (slice_split (λ b. b == 0) words.now) program.now testdata.now)
        result.out.bytes.items result.err.bytes.items result.status }
{
    let mut out = TextSink::new(alloc);
    let mut err = TextSink::new(alloc);
    let status = match split_words(alloc, words) {
        Ok(words) => {
            let words = words.as_slice();
            answer_words(alloc, words, program, testdata, &mut out, &mut err)
        }
        Err(_) => usage_status(&UsageFault::Memory, &mut out, &mut err),
    };
    Answer { status, out, err }
}
