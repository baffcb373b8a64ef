//! Patterns with what they match at the start of a window, worked out by hand from the rules of `regex`.

use super::same;
use ctd_pattern::{Pattern, PatternFault};
use std::alloc::Global;
use std::process::Abort;
use std::test::Fail;

/// The length that a pattern matches at the start of a window.
fn length_by(alloc: Global, pattern: &Pattern, window: &[u8]) -> Answer {
    match pattern.matcher(alloc) {
        Ok(mut matcher) => Ok(matcher.match_length(window)),
        Err(_) => Err(PatternFault::Memory),
    }
}

/// The length that a literal matches at the start of a window, or why it is no pattern.
fn match_length(alloc: Global, literal: &[u8], window: &[u8]) -> Answer {
    let pattern = Pattern::read(alloc, literal)?;
    length_by(alloc, &pattern, window)
}

/// What a literal says of a window.
type Answer = Result<Option<usize>, PatternFault>;

/// A literal, a window, and the length that the literal matches at its start.
type Row = (&'static [u8], &'static [u8], Option<usize>);

/// That each literal of a table matches the length of its row.
fn judged(rt: &impl Abort, alloc: Global, rows: &[Row]) {
    for (literal, window, wanted) in rows {
        let found = match_length(alloc, literal, window);
        same(rt, &found, &Ok(*wanted), &(literal, window));
    }
}

// The window is the whole text: its start is the start of the text, its end the end.
const EDGES: [Row; 20] = [
    (b"^a", b"ab", Some(1)),
    (b"^b", b"ab", None),
    (b"(?m)^b", b"a\nb", None),
    (b"a$", b"a", Some(1)),
    (b"a$", b"ab", None),
    (b"a$", b"a\n", None),
    (b"(?m)a$", b"a\nb", Some(1)),
    (b"\\Aa\\z", b"a", Some(1)),
    (b"\\bab\\b", b"ab c", Some(2)),
    (b"\\bab\\b", b"abc", None),
    (b"\\bab\\b", b"ab", Some(2)),
    (b"\\Ba", b"a", None),
    (b"", b"", Some(0)),
    (b"", b"x", Some(0)),
    (b"a*", b"b", Some(0)),
    (b"a*?", b"aa", Some(0)),
    (b"^", b"x", Some(0)),
    (b"$", b"", Some(0)),
    (b"$", b"x", None),
    (b"\\b", b" a", None),
];

// The first match counts, and of two alternatives the first that leads to a match.
const CHOICES: [Row; 17] = [
    (b"b", b"ab", None),
    (b"b", b"", None),
    (b"b|a", b"ab", Some(1)),
    (b"a|ab", b"ab", Some(1)),
    (b"ab|a", b"ab", Some(2)),
    (b"(a|ab)c", b"abc", Some(3)),
    (b"a*b|a", b"aac", Some(1)),
    (b"a+", b"aaab", Some(3)),
    (b"a+?", b"aaab", Some(1)),
    (b"a{2}", b"aaa", Some(2)),
    (b"a{2,}", b"aaa", Some(3)),
    (b"a{2,3}?", b"aaa", Some(2)),
    (b"(?i)abc", b"AbC", Some(3)),
    (b"abc", b"AbC", None),
    (b"\\d+", b"12a", Some(2)),
    (b"(?x) a  b # both", b"ab", Some(2)),
    (b"(?P<name>a)b", b"ab", Some(2)),
];

// Lines, and characters above the first 128.
const BYTES: [Row; 19] = [
    (b".", b"\n", None),
    (b"(?s).", b"\n", Some(1)),
    (b".*", b"ab\ncd", Some(2)),
    (b"(?s).*", b"ab\ncd", Some(5)),
    (b"[a-z\n]+", b"ab\ncd\n1", Some(6)),
    (b"(?m)(^[0-9]+$\n?)+", b"1\n22\nx", Some(5)),
    (b".", b"\xc3\xa9", Some(2)),
    (b".", b"\xff", None),
    (b"(?-u:.)", b"\xff", Some(1)),
    (b"\xc3\xa9", b"\xc3\xa9", Some(2)),
    (b"[\xc3\xa0-\xc3\xbc]+", b"\xc3\xa9\xc3\xa8e", Some(4)),
    (b"\\xe9", b"\xc3\xa9", Some(2)),
    (b"(?-u:\\xe9)", b"\xe9", Some(1)),
    (b"(?-u:[\\x80-\\xff])+", b"\x80\xffa", Some(2)),
    (b"(?-u:[^a])", b"\xc3\xa9", Some(1)),
    (b"[^a]", b"\xc3\xa9", Some(2)),
    (b"\\w", b"\xc3\xa9", Some(2)),
    (b"(?-u:\\w)", b"\xc3\xa9", None),
    (b"\x00", b"\x00", Some(1)),
];

#[test]
fn lengths_at_the_start(rt: HostRuntime) {
    judged(&rt, rt.alloc(), &EDGES);
    judged(&rt, rt.alloc(), &CHOICES);
    judged(&rt, rt.alloc(), &BYTES);
}

const FAULTS: [(&[u8], PatternFault); 14] = [
    (b"\xff", PatternFault::NotText),
    (b"a\xc3", PatternFault::NotText),
    (b"(\xff", PatternFault::NotText),
    (b"(", PatternFault::NotPattern),
    (b"a)", PatternFault::NotPattern),
    (b"*", PatternFault::NotPattern),
    (b"[z-a]", PatternFault::NotPattern),
    (b"a{2,1}", PatternFault::NotPattern),
    (b"a{", PatternFault::NotPattern),
    (b"(a)\\1", PatternFault::NotPattern),
    (b"(?=a)", PatternFault::NotPattern),
    (b"\\p{Nowhere}", PatternFault::NotPattern),
    (b"(((a{1000}){1000}){1000}){1000}", PatternFault::TooLarge),
    (b"\\w{5000}", PatternFault::TooLarge),
];

#[test]
fn literals_without_a_pattern(rt: HostRuntime) {
    for (literal, wanted) in &FAULTS {
        let found = match_length(rt.alloc(), literal, b"");
        same(&rt, &found, &Err(*wanted), literal);
    }
}

const NUMBERS: [(&[u8], Option<usize>); 4] = [
    (b"12 3", Some(2)),
    (b"x1", None),
    (b"12345", Some(5)),
    (b"7", Some(1)),
];

/// Judges two matchers of a pattern of digits, each by all of the rows.
fn judge_matchers(rt: &impl Abort, alloc: Global, pattern: &Pattern) -> Result<(), Fail> {
    for turn in 0..2 {
        let mut matcher = pattern.matcher(alloc)?;
        for (window, wanted) in &NUMBERS {
            let found = matcher.match_length(window);
            same(rt, &found, wanted, &(turn, window));
        }
    }
    Ok(())
}

/// One pattern gives as many matchers as are wanted, and each of them any number of answers.
#[test]
fn a_matcher_gives_any_number_of_answers(rt: HostRuntime) -> Result<(), Fail> {
    let Ok(pattern) = Pattern::read(rt.alloc(), b"[0-9]+") else {
        return Err(Fail::new(format_args!("no pattern")));
    };
    judge_matchers(&rt, rt.alloc(), &pattern)
}
