//! Looks at data that are cut, that end, that fail and that never end. Most tests are a table of what is asked: one function
//! makes a cursor and lends it to another, which asks, so that both are proved once.
ghost use Rattle.std.specs.Prelude.{◌≡◌, ◌≤◌, length, take, count_by};
ghost use Rattle.ctd_source.specs.TestData.{is_newline};

use super::same;
use ctd_source::{Cursor, Failed, FromRead, LookFault, Next, Plain, Seen, Source, Spot, WINDOW};
use std::alloc::{AllocError, Global};
use std::io::{self, ErrorKind, Read};
use std::process::Abort;
use std::test::Fail;

/// A reader that never ends.
#[derive(Drop)]
struct Endless;

impl Read for Endless {
    fn read(&mut self, buf: &mut [u8]) -> io::Result<usize> {
        buf.fill(b'1');
        Ok(buf.len())
    }
}

/// A reader that gives at most `most` bytes at once.
#[derive(Drop)]
struct Cut<R> {
    reader: R,
    most: usize,
}

impl<R: Read> Read for Cut<R> {
    fn read(&mut self, buf: &mut [u8]) -> io::Result<usize> {
        let most = self.most.min(buf.len());
        self.reader.read(&mut buf[..most])
    }
}

/// A reader that gives its answers in turn, None for an error and 0 bytes past the last, and counts its calls.
#[derive(Drop)]
pub(super) struct Scripted<'s> {
    pub(super) answers: &'s [Option<&'s [u8]>],
    pub(super) error: ErrorKind,
    pub(super) calls: &'s mut usize,
}

/// The errors of readers, which are failures all alike: a read that was interrupted, one that would have to wait, and any other.
pub(super) static ERRORS: [ErrorKind; 3] = [
    ErrorKind::Interrupted,
    ErrorKind::WouldBlock,
    ErrorKind::Other,
];

impl Read for Scripted<'_> {
    fn read(&mut self, buf: &mut [u8]) -> io::Result<usize> {
        let turn = *self.calls;
        *self.calls = turn.saturating_add(1);
        match self.answers.get(turn) {
            None => Ok(0),
            Some(None) => Err(io::Error::from(self.error)),
            Some(Some(bytes)) => {
                let count = bytes.len().min(buf.len());
                buf[..count].copy_from_slice(&bytes[..count]);
                Ok(count)
            }
        }
    }
}

/// The next byte, which is passed where there is one.
fn pass<R: Source>(cursor: &mut Cursor<'_, R>) -> Result<Option<u8>, LookFault> {
    let next = cursor.look();
    if cursor.held() > 0 && next.is_ok() {
        cursor.take();
    }
    next
}

/// The next byte of anything that tells it, looked at twice.
pub(super) fn next_twice<N: Next>(next: &mut N) -> [Result<Option<u8>, LookFault>; 2] {
    [next.next_byte(), next.next_byte()]
}

/// How many bytes come before the first newline.
fn line_len(bytes: &[u8]) -> usize
    ensures within { result ≤ length bytes.now }
    ensures in_line { count_by is_newline (take result bytes.now) ≡ 0 }
{
    let mut count = 0;
    for byte in bytes {
        if *byte == b'\n' {
            break;
        }
        count += 1;
    }
    count
}

/// Passes the held bytes before the next newline, and tells how many they are.
fn pass_in_line<R: Source>(cursor: &mut Cursor<'_, R>) -> usize {
    let count = line_len(cursor.held_run());
    cursor.take_in_line(count);
    count
}

/// Lines of 0 to 79 letters, `len` bytes in all.
fn lines(alloc: Global, len: u32) -> Result<Vec<u8>, AllocError> {
    let mut text = Vec::new(alloc);
    for i in 0..len {
        text.push(if i % 81 == i / 81 % 81 { b'\n' } else { b'a' })
            .map_err(AllocError::from)?;
    }
    Ok(text)
}

/// What is asked of a cursor, with the answer.
#[derive(Clone, Copy)]
pub(super) enum Ask<'a> {
    /// What it saw of the end, and how many bytes it took from its source.
    Seen(Seen, u64),
    /// The line, the column and the offset of its spot.
    Spot(u64, u64, u64),
    /// The next byte.
    Look(Result<Option<u8>, LookFault>),
    /// The next byte, of anything that tells it, twice.
    Next(Result<Option<u8>, LookFault>),
    /// The next byte, which is passed where there is one.
    Pass(Result<Option<u8>, LookFault>),
    /// That these bytes come next, which are passed; where they are more than 1,007, with a window of them now and then.
    PassAll(&'a [u8]),
    /// That these bytes come next, seen by windows, with up to 299,993 bytes passed after each.
    PassInWindows(&'a [u8]),
    /// Whether this byte is passed.
    PassIf(u8, Result<bool, LookFault>),
    /// How many held bytes before the next newline are passed.
    PassInLine(usize),
    /// How many held bytes are passed, which are all.
    PassHeld(usize),
    /// The bytes that are held.
    Held(&'a [u8]),
    /// Whether these bytes are the window.
    Window(&'a [u8], Result<bool, LookFault>),
    /// The length of the window, or `None` where a byte of it is not a one.
    Ones(Result<Option<usize>, LookFault>),
    /// That all bytes are passed in runs of up to 700, each of which moves the spot as its bytes do.
    PassInRuns,
}

/// Passes the held bytes, and tells how many they are.
fn pass_held<R: Source>(cursor: &mut Cursor<'_, R>) -> usize {
    let count = cursor.held_run().len();
    cursor.take_many(count);
    count
}

/// Where a spot is moved by a byte.
fn behind(spot: Spot, byte: u8) -> Spot {
    let is_end = byte == b'\n';
    Spot {
        line: spot.line.saturating_add(u64::from(is_end)),
        column: if is_end {
            1
        } else {
            spot.column.saturating_add(1)
        },
        offset: spot.offset.saturating_add(1),
    }
}

/// Passes all bytes in runs of 1, 2, 3, .. 700, 1, 2, .. held bytes. Whether each run moves the spot as its bytes do.
fn passes_in_runs<R: Source>(cursor: &mut Cursor<'_, R>) -> bool {
    let mut spot = cursor.spot();
    for turn in 0..u32::MAX {
        if cursor.look() == Ok(None) {
            return true;
        }
        let held = cursor.held_run();
        let count = held.len().min(1 + turn as usize % 700);
        for byte in &held[..count] {
            spot = behind(spot, *byte);
        }
        cursor.take_many(count);
        if cursor.spot() != spot {
            return false;
        }
    }
    false
}

/// Whether the window of a cursor is the one of these bytes.
fn has_window<R: Source>(cursor: &mut Cursor<'_, R>, bytes: &[u8]) -> Result<bool, LookFault> {
    Ok(cursor.window()? == bytes)
}

/// The length of the window of a cursor, or `None` where a byte of it is not a one.
fn ones_in_window<R: Source>(cursor: &mut Cursor<'_, R>) -> Result<Option<usize>, LookFault> {
    let window = cursor.window()?;
    let is_ones = window.iter().all(|byte| *byte == b'1');
    Ok(is_ones.then_some(window.len()))
}

/// Passes bytes that are the ones of a text, and now and then looks at a window of them. Whether they are.
fn passes_all<R: Source>(cursor: &mut Cursor<'_, R>, text: &[u8]) -> bool {
    for (i, byte) in text.iter().enumerate() {
        if i % 50_000 == 1_007 {
            let end = (i + WINDOW).min(text.len());
            if has_window(cursor, &text[i..end]) != Ok(true) {
                return false;
            }
        }
        if pass(cursor) != Ok(Some(*byte)) {
            return false;
        }
    }
    true
}

/// Passes all bytes, looking at a window before each 299,993 of them. Whether each window has the next bytes of a text, and the data end with it.
fn passes_in_windows<R: Source>(cursor: &mut Cursor<'_, R>, text: &[u8]) -> bool {
    let mut rest = text;
    for _ in 0..=text.len() {
        if has_window(cursor, &rest[..rest.len().min(WINDOW)]) != Ok(true) {
            return false;
        }
        if rest.is_empty() {
            return true;
        }
        let count = rest.len().min(cursor.held()).min(299_993);
        cursor.take_many(count);
        rest = &rest[count..];
    }
    false
}

/// Whether what was found is what is wanted.
fn is<T: PartialEq + Copy>(found: T, wanted: T) -> bool {
    found == wanted
}

/// Whether a cursor is at a spot.
fn is_at<R: Source>(cursor: &Cursor<'_, R>, line: u64, column: u64, offset: u64) -> bool {
    let spot = Spot {
        line,
        column,
        offset,
    };
    cursor.spot() == spot
}

/// Whether these bytes are held.
fn holds<R: Source>(cursor: &Cursor<'_, R>, bytes: &[u8]) -> bool {
    cursor.held() == bytes.len() && cursor.held_run() == bytes
}

/// Whether a cursor answers as it is wanted.
fn answers<R: Source>(cursor: &mut Cursor<'_, R>, ask: Ask<'_>) -> bool {
    match ask {
        Ask::Seen(seen, taken) => is(cursor.seen(), seen) && cursor.taken() == taken,
        Ask::Spot(line, column, offset) => is_at(cursor, line, column, offset),
        Ask::Look(next) => is(cursor.look(), next),
        Ask::Next(next) => is(next_twice(cursor), [next, next]),
        Ask::Pass(next) => is(pass(cursor), next),
        Ask::PassAll(bytes) => passes_all(cursor, bytes),
        Ask::PassInWindows(bytes) => passes_in_windows(cursor, bytes),
        Ask::PassIf(byte, passed) => is(cursor.pass_if_eq(byte), passed),
        Ask::PassInLine(count) => pass_in_line(cursor) == count,
        Ask::PassHeld(count) => pass_held(cursor) == count,
        Ask::Held(bytes) => holds(cursor, bytes),
        Ask::Window(bytes, wanted) => is(has_window(cursor, bytes), wanted),
        Ask::Ones(count) => is(ones_in_window(cursor), count),
        Ask::PassInRuns => passes_in_runs(cursor),
    }
}

/// Judges a cursor by what it is asked in turn.
pub(super) fn judge<R: Source>(rt: &impl Abort, cursor: &mut Cursor<'_, R>, asks: &[Ask]) {
    for (turn, ask) in asks.iter().enumerate() {
        same(rt, &answers(cursor, *ask), &true, &turn);
    }
}

/// Judges a cursor at the start of what a reader gives.
fn judge_start<R: Read + Drop>(
    rt: &impl Abort,
    alloc: Global,
    reader: R,
    limit: u32,
    asks: &[Ask],
) -> Result<(), AllocError> {
    let mut source = FromRead::new(reader);
    let mut cursor = Cursor::start(alloc, &mut source, u64::from(limit))?;
    judge(rt, &mut cursor, asks);
    let _source = cursor.into_source();
    Ok(())
}

/// The same over a reader that gives these answers and is called so often in all, where its error is this one.
fn judge_script_of(
    rt: &impl Abort,
    alloc: Global,
    answers: &[Option<&[u8]>],
    error: ErrorKind,
    wanted_calls: usize,
    asks: &[Ask],
) -> Result<(), AllocError> {
    let mut calls = 0;
    let reader = Scripted {
        answers,
        error,
        calls: &mut calls,
    };
    judge_start(rt, alloc, reader, 10, asks)?;
    same(rt, &calls, &wanted_calls, &answers);
    Ok(())
}

/// The same, whatever the error is.
fn judge_script(
    rt: &impl Abort,
    alloc: Global,
    answers: &[Option<&[u8]>],
    wanted_calls: usize,
    asks: &[Ask],
) -> Result<(), AllocError> {
    for error in &ERRORS {
        judge_script_of(rt, alloc, answers, *error, wanted_calls, asks)?;
    }
    Ok(())
}

/// Of a line of an x and one of a y that is not ended.
pub(super) const SPOTS: &[Ask] = &[
    Ask::Seen(Seen::Going, 0),
    Ask::Pass(Ok(Some(b'x'))),
    Ask::Pass(Ok(Some(b'\n'))),
    Ask::Spot(2, 1, 2),
    Ask::Window(b"y", Ok(true)),
    Ask::Held(b"y"),
    Ask::PassHeld(1),
    Ask::Next(Ok(None)),
    Ask::Seen(Seen::Ended, 3),
];

/// Of a line of three bytes and one of two.
const LINES: &[Ask] = &[
    Ask::PassInLine(0),
    Ask::Look(Ok(Some(b'a'))),
    Ask::PassInLine(3),
    Ask::Spot(1, 4, 3),
    Ask::Pass(Ok(Some(b'\n'))),
    Ask::PassInLine(2),
    Ask::Spot(2, 3, 6),
    Ask::Next(Ok(Some(b'\n'))),
];

/// Of a line of an a and one that begins with a b, behind which a read fails.
const WANTED: &[Ask] = &[
    Ask::PassIf(b'b', Ok(false)),
    Ask::PassIf(b'a', Ok(true)),
    Ask::PassIf(b'a', Ok(false)),
    Ask::PassIf(b'\n', Ok(true)),
    Ask::PassIf(b'b', Ok(true)),
    Ask::Spot(2, 2, 3),
    Ask::PassIf(b'c', Err(LookFault::Read)),
    Ask::PassIf(b'c', Err(LookFault::Read)),
    Ask::Spot(2, 2, 3),
];

/// Of an a and a b, behind which a read fails.
const FAILED_WINDOW: &[Ask] = &[
    Ask::Window(b"ab", Err(LookFault::Read)),
    Ask::Look(Err(LookFault::Read)),
    Ask::Held(b"ab"),
];

/// What a reader gives in turn, how often it is called, and what a cursor over it is asked.
type Script = (
    &'static [Option<&'static [u8]>],
    usize,
    &'static [Ask<'static>],
);

static SCRIPTS: [Script; 4] = [
    (&[Some(b"x\ny")], 2, SPOTS),
    (&[Some(b"abc\nde\n")], 1, LINES),
    (&[Some(b"a\n"), Some(b"b"), None, Some(b"c")], 3, WANTED),
    (&[Some(b"ab"), None, Some(b"c")], 2, FAILED_WINDOW),
];

#[test]
fn cursors_answer_what_their_readers_give(rt: HostRuntime) -> Result<(), Fail> {
    for (answers, calls, asks) in &SCRIPTS {
        judge_script(&rt, rt.alloc(), answers, *calls, asks)?;
    }
    Ok(())
}

#[test]
fn answers_a_failed_read_again(rt: HostRuntime) -> Result<(), Fail> {
    let text: &[u8] = b"12345";
    for n in 0..=text.len() {
        let asks = [
            Ask::PassAll(&text[..n]),
            Ask::Seen(Seen::Going, n as u64),
            Ask::Next(Err(LookFault::Read)),
            Ask::Window(b"", Err(LookFault::Read)),
            Ask::Seen(Seen::Broken, n as u64),
        ];
        let answers = [Some(&text[..n]), None, Some(b"6")];
        let empty = usize::from(n == 0);
        judge_script(&rt, rt.alloc(), &answers[empty..], 2 - empty, &asks)?;
    }
    Ok(())
}

/// Of ones without an end, and a limit of 1000.
const LIMIT: &[Ask] = &[
    Ask::PassAll(&[b'1'; 1_000]),
    Ask::Look(Err(LookFault::DataTooLong)),
    Ask::Spot(1, 1_001, 1_000),
    Ask::Seen(Seen::Going, 1_001),
];

/// Of ones without an end, and a limit of a window.
const LIMIT_OF_A_WINDOW: &[Ask] = &[Ask::Look(Ok(Some(b'1'))), Ask::Ones(Ok(Some(WINDOW)))];

/// Of ones without an end, and a limit of a byte less.
const LIMIT_BELOW_A_WINDOW: &[Ask] = &[
    Ask::Look(Ok(Some(b'1'))),
    Ask::Ones(Err(LookFault::DataTooLong)),
];

static LIMITS: [(u32, &[Ask]); 3] = [
    (1_000, LIMIT),
    (1_048_576, LIMIT_OF_A_WINDOW),
    (1_048_575, LIMIT_BELOW_A_WINDOW),
];

#[test]
fn a_limit_stops_data_that_never_end(rt: HostRuntime) -> Result<(), Fail> {
    for (limit, asks) in &LIMITS {
        judge_start(&rt, rt.alloc(), Endless, *limit, asks)?;
    }
    Ok(())
}

/// Of lines that are passed in runs.
const RUNS: &[Ask] = &[Ask::PassInRuns, Ask::Seen(Seen::Ended, 200_000)];

/// Judges cursors over lines, however reads are cut: each byte, a window now and then, each run, and the end.
fn judge_cuts(rt: &impl Abort, alloc: Global, text: &[u8]) -> Result<(), AllocError> {
    let bytes = [
        Ask::PassAll(text),
        Ask::Look(Ok(None)),
        Ask::Seen(Seen::Ended, 200_000),
    ];
    for most in &[1, 2, 3, 7, 65_535, 65_536, 100_000, 1_048_575, 1_048_576] {
        let reader = Cut {
            reader: text,
            most: *most,
        };
        judge_start(rt, alloc, reader, 1_000_000, &bytes)?;
    }
    judge_start(rt, alloc, text, 1_000_000, RUNS)
}

#[test]
fn looks_are_the_same_however_reads_are_cut(rt: HostRuntime) -> Result<(), Fail> {
    let text = lines(rt.alloc(), 200_000)?;
    judge_cuts(&rt, rt.alloc(), text.as_slice())?;
    Ok(())
}

/// Judges the windows of cursors over a text, with small reads and with large ones.
fn judge_windows(rt: &impl Abort, alloc: Global, text: &[u8]) -> Result<(), AllocError> {
    let asks = [Ask::PassInWindows(text), Ask::Look(Ok(None))];
    for most in &[1_009, 65_536] {
        let reader = Cut {
            reader: text,
            most: *most,
        };
        judge_start(rt, alloc, reader, 10_000_000, &asks)?;
    }
    Ok(())
}

#[test]
fn windows_are_right_past_the_end_of_their_room(rt: HostRuntime) -> Result<(), Fail> {
    let text = lines(rt.alloc(), 3_500_000)?;
    judge_windows(&rt, rt.alloc(), text.as_slice())?;
    Ok(())
}
