//! Reports: their streams and statuses, and what is left of them where a stream fails.

ghost use Rattle.std.specs.Prelude.{◌≡◌, false};

use crate::tests::memory::{AMPLE, Clipped, Refusal, Room, Written};
use crate::tests::same;
use ctd_check::{Bytes, Fault, LoadFault, LoadKind, Outcome, Place, Reason, Site, Spot};
use ctd_tool::{
    Sink, ToWrite, ToolFault, UsageFault, report_usage, write_cannot_open, write_load_fault,
    write_outcome,
};
use std::alloc::Global;
use std::process::Abort;

/// What is reported.
#[derive(Clone, Copy)]
pub(super) enum Report {
    /// How a check ended.
    Outcome(Outcome),
    /// How a check ended, in a quiet run.
    Quiet(Outcome),
    /// Why a program was not read.
    LoadFault(LoadFault),
    /// Why words give no settings.
    Usage(UsageFault),
    /// That the file of this name can't be opened.
    CannotOpen(&'static [u8]),
}

impl Report {
    /// Writes it to two sinks.
    pub(super) fn write<O: Sink, E: Sink>(
        self,
        alloc: Global,
        out: &mut O,
        err: &mut E,
    ) -> Result<u8, ToolFault>
        requires out_works { O.has_failed out.old ≡ false }
        requires err_works { E.has_failed err.old ≡ false }
    {
        match self {
            Report::Outcome(outcome) => write_outcome(alloc, &outcome, false, out, err),
            Report::Quiet(outcome) => write_outcome(alloc, &outcome, true, out, err),
            Report::LoadFault(fault) => write_load_fault(&fault, out, err),
            Report::Usage(fault) => report_usage(&fault, out, err),
            Report::CannotOpen(name) => {
                let name = Bytes::copy(alloc, name)?;
                write_cannot_open(alloc, &name, out, err)
            }
        }
    }
}

/// What is written of a report to two writers of this room.
fn written(alloc: Global, report: Report, room: Room) -> Written {
    let mut out = Clipped::new(alloc, room);
    let mut err = Clipped::new(alloc, room);
    let answer = report.write(
        alloc,
        &mut ToWrite::new(&mut out),
        &mut ToWrite::new(&mut err),
    );
    Written {
        answer,
        out: out.bytes,
        err: err.bytes,
    }
}

const SPOT: Spot = Spot {
    line: 3,
    column: 70001,
    offset: 90000,
};

const PLACE: Place = Place {
    line: 12,
    column: 405,
};

pub(super) const REJECTED: Outcome = Outcome::Rejected {
    spot: SPOT,
    place: Site::At(PLACE),
    reason: Reason::ExpectedNewline,
};

const STOPPED: Outcome = Outcome::Stopped {
    spot: SPOT,
    place: Site::Finish,
    fault: Fault::DataTooLong,
};

const BROKEN: LoadFault = LoadFault {
    kind: LoadKind::Syntax,
    place: Some(PLACE),
};

const OUT_OF_MEMORY: LoadFault = LoadFault {
    kind: LoadKind::Memory,
    place: None,
};

pub(super) const REJECTED_LINE: &str =
    "line 3 column 70001: expected a newline (program line 12 column 405)\n";

pub(super) const BAD_ARGUMENTS: &str =
    "checktestdata: bad arguments\nTry 'checktestdata --help'.\n";

/// A report, its status, and what is written to both streams.
type Row = (Report, u8, &'static str, &'static str);

static ROWS: [Row; 6] = [
    (Report::Outcome(Outcome::Accepted), 0, "testdata ok!\n", ""),
    (Report::Outcome(REJECTED), 1, REJECTED_LINE, ""),
    // What stops a run is told to the quiet too.
    (
        Report::Quiet(STOPPED),
        2,
        "",
        "checktestdata: line 3 column 70001: test data too long (program end)\n",
    ),
    (
        Report::LoadFault(BROKEN),
        2,
        "",
        "checktestdata: program line 12 column 405: syntax error\n",
    ),
    (Report::Usage(UsageFault::Words), 2, "", BAD_ARGUMENTS),
    (
        Report::CannotOpen(b"no such.ctd"),
        2,
        "",
        "checktestdata: cannot open no such.ctd\n",
    ),
];

/// Judges what is answered and written of a report to two writers of this room.
fn judge(
    rt: &impl Abort,
    alloc: Global,
    report: Report,
    room: Room,
    answer: Result<u8, ToolFault>,
    texts: [&str; 2],
) {
    let written = written(alloc, report, room);
    let is = written.is(answer, texts[0].as_bytes(), texts[1].as_bytes());
    same(rt, &is, &true, &texts);
}

#[test]
fn reports_have_their_texts(rt: HostRuntime) {
    for (report, status, out, err) in &ROWS {
        judge(&rt, rt.alloc(), *report, AMPLE, Ok(*status), [out, err]);
    }
}

const UNFLUSHED: Room = (1000, Refusal::NeverFlushed);

const NONE: Room = (0, Refusal::NeverFlushed);

#[test]
fn a_failed_flush_is_no_success(rt: HostRuntime) {
    let fault = Err(ToolFault::Write);
    let verdict = Report::Outcome(REJECTED);
    judge(
        &rt,
        rt.alloc(),
        verdict,
        UNFLUSHED,
        fault,
        [REJECTED_LINE, ""],
    );
    let words = Report::Usage(UsageFault::Words);
    judge(
        &rt,
        rt.alloc(),
        words,
        UNFLUSHED,
        fault,
        ["", BAD_ARGUMENTS],
    );
}

#[test]
fn what_writes_nothing_touches_no_stream(rt: HostRuntime) {
    let accepted = Report::Quiet(Outcome::Accepted);
    judge(&rt, rt.alloc(), accepted, NONE, Ok(0), ["", ""]);
    let rejected = Report::Quiet(REJECTED);
    judge(&rt, rt.alloc(), rejected, NONE, Ok(1), ["", ""]);
    let no_memory = Report::LoadFault(OUT_OF_MEMORY);
    judge(
        &rt,
        rt.alloc(),
        no_memory,
        NONE,
        Err(ToolFault::Memory),
        ["", ""],
    );
}

/// Judges that a verdict and bad arguments stop where their streams fail, behind so many bytes, and that the others hold nothing.
fn judge_cut(rt: &impl Abort, alloc: Global, room: Room) {
    let fault = Err(ToolFault::Write);
    if room.0 < REJECTED_LINE.len() {
        let taken = &REJECTED_LINE.as_bytes()[..room.0];
        let written = written(alloc, Report::Outcome(REJECTED), room);
        same(rt, &written.is(fault, taken, b""), &true, &room.0);
    }
    if room.0 < BAD_ARGUMENTS.len() {
        let taken = &BAD_ARGUMENTS.as_bytes()[..room.0];
        let written = written(alloc, Report::Usage(UsageFault::Words), room);
        same(rt, &written.is(fault, b"", taken), &true, &room.0);
    }
}

#[test]
fn a_report_stops_where_its_stream_fails(rt: HostRuntime) {
    for room in 0..REJECTED_LINE.len() {
        judge_cut(&rt, rt.alloc(), (room, Refusal::Fails));
        judge_cut(&rt, rt.alloc(), (room, Refusal::TakesNone));
    }
}

/// Judges that variants have the numbers 1, 2, 3, ..
fn are_numbered(rt: &impl Abort, variants: &[u8]) {
    for (number, variant) in (1..).zip(variants) {
        same(rt, variant, &number, &variants);
    }
}

#[test]
fn numbers_of_reasons_and_faults(rt: HostRuntime) {
    let reasons = [
        Reason::ExpectedSpace as u8,
        Reason::ExpectedNewline as u8,
        Reason::ExpectedEof as u8,
        Reason::ExpectedInt as u8,
        Reason::LeadingZero as u8,
        Reason::MinusZero as u8,
        Reason::OutOfRange as u8,
        Reason::StringMismatch as u8,
        Reason::RegexMismatch as u8,
        Reason::AssertFailed as u8,
    ];
    let faults = [
        Fault::Undefined as u8,
        Fault::WrongType as u8,
        Fault::Overflow as u8,
        Fault::DivisionByZero as u8,
        Fault::Exponent as u8,
        Fault::Count as u8,
        Fault::Shape as u8,
        Fault::StepLimit as u8,
        Fault::MatchTooLong as u8,
        Fault::DataTooLong as u8,
        Fault::Read as u8,
    ];
    are_numbered(&rt, &reasons);
    are_numbered(&rt, &faults);
}

#[test]
fn numbers_of_faults_of_words_and_streams(rt: HostRuntime) {
    let words = [
        UsageFault::Words as u8,
        UsageFault::BadSteps as u8,
        UsageFault::BadPreset as u8,
        UsageFault::Generate as u8,
        UsageFault::Help as u8,
        UsageFault::Version as u8,
        UsageFault::Memory as u8,
    ];
    are_numbered(&rt, &words);
    are_numbered(&rt, &[ToolFault::Memory as u8, ToolFault::Write as u8]);
}
