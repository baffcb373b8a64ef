//! Writers that fail just once: no call of them is made again.

use crate::tests::memory::Written;
use crate::tests::reports::{BAD_ARGUMENTS, REJECTED, REJECTED_LINE, Report};
use crate::tests::same;
use ctd_tool::{ToWrite, ToolFault, UsageFault};
use std::alloc::Global;
use std::io::{Error, ErrorKind, Result, Write};
use std::process::Abort;

/// A writer that takes at most three bytes at a time, fails at one of its calls, and counts them.
#[derive(Drop)]
struct FailingOnce {
    bytes: Vec<u8>,
    calls: usize,
    fails_at: usize,
    error: ErrorKind,
}

impl FailingOnce {
    /// A writer that has taken nothing.
    fn new(alloc: Global, fails_at: usize, error: ErrorKind) -> FailingOnce {
        FailingOnce {
            bytes: Vec::new(alloc),
            calls: 0,
            fails_at,
            error,
        }
    }

    /// Counts a call, which may be the one that fails.
    fn count(&mut self) -> Result<()> {
        self.calls = self.calls.saturating_add(1);
        if self.calls == self.fails_at {
            return Err(Error::from(self.error));
        }
        Ok(())
    }
}

impl Write for FailingOnce {
    fn write(&mut self, buf: &[u8]) -> Result<usize> {
        self.count()?;
        let count = buf.len().min(3);
        self.bytes.extend_from_slice(&buf[..count])?;
        Ok(count)
    }

    fn flush(&mut self) -> Result<()> {
        self.count()
    }
}

/// What a report leaves on two writers of which each fails at a call of this number, and how often each was called.
fn written(
    alloc: Global,
    report: Report,
    fails_at: usize,
    error: ErrorKind,
) -> (Written, [usize; 2]) {
    let mut out = FailingOnce::new(alloc, fails_at, error);
    let mut err = FailingOnce::new(alloc, fails_at, error);
    let answer = report.write(
        alloc,
        &mut ToWrite::new(&mut out),
        &mut ToWrite::new(&mut err),
    );
    let calls = [out.calls, err.calls];
    let written = Written {
        answer,
        out: out.bytes,
        err: err.bytes,
    };
    (written, calls)
}

/// A report, whether it goes to standard output, its status and its text.
type Row = (Report, bool, u8, &'static str);

/// Judges a report on writers that fail at a call of this number. Without that its text takes a write for three bytes, and a flush.
fn judge(rt: &impl Abort, alloc: Global, row: &Row, fails_at: usize, error: ErrorKind) {
    let (report, is_out, status, text) = *row;
    let whole = text.len().div_ceil(3).saturating_add(1);
    let count = fails_at.min(whole);
    let answer = if fails_at <= whole {
        Err(ToolFault::Write)
    } else {
        Ok(status)
    };
    let len = count.saturating_sub(1).saturating_mul(3).min(text.len());
    let taken = &text.as_bytes()[..len];
    let (found, calls) = written(alloc, report, fails_at, error);
    let (is, wanted) = if is_out {
        (found.is(answer, taken, b""), [count, 0])
    } else {
        (found.is(answer, b"", taken), [0, count])
    };
    same(rt, &(is, calls), &(true, wanted), &(text, fails_at));
}

static ROWS: [Row; 2] = [
    (Report::Outcome(REJECTED), true, 1, REJECTED_LINE),
    (Report::Usage(UsageFault::Words), false, 2, BAD_ARGUMENTS),
];

/// The errors of writers, which are failures all alike: a write that was interrupted, one that would have to wait, and any other.
static ERRORS: [ErrorKind; 3] = [
    ErrorKind::Interrupted,
    ErrorKind::WouldBlock,
    ErrorKind::Other,
];

/// Judges a report on writers that fail at each of their calls. The longer text has 69 bytes, so its flush is the call of number 24.
fn judge_calls(rt: &impl Abort, alloc: Global, row: &Row, error: ErrorKind) {
    for fails_at in 1..=25 {
        judge(rt, alloc, row, fails_at, error);
    }
}

#[test]
fn a_call_that_fails_is_not_made_again(rt: HostRuntime) {
    for error in &ERRORS {
        for row in &ROWS {
            judge_calls(&rt, rt.alloc(), row, *error);
        }
    }
}
