//! Small texts with their tokens or their fault, worked out by hand from the language.

use super::answers::{Asked, judge_lines, judge_rows, judged};
use super::shown::Shown;
use ctd_token::{
    Bytes, Lexer, Name, NameKey, PROGRAM_LIMIT, Place, Token, TokenKind, advance, token_at, tokens,
};
use std::alloc::{AllocError, Global};
use std::test::Fail;

/// The kind of a token; a string with its bytes.
fn write_kind(out: &mut Shown, kind: &TokenKind) {
    match kind {
        TokenKind::Text(bytes) => out.put_form(format_args!("Text {:?}", bytes.as_slice())),
        TokenKind::Mark(mark) => out.put_form(format_args!("{mark:?}")),
        TokenKind::Numeral(n) => out.put_form(format_args!("{n}")),
        TokenKind::Word => out.put("Word"),
        TokenKind::Name => out.put("Name"),
    }
}

/// Of each token its kind, its span and its place.
fn write_tokens(out: &mut Shown, tokens: &[Token]) {
    let mut before = "";
    for token in tokens {
        out.put(before);
        write_kind(out, &token.kind);
        out.put_form(format_args!(" {}-{}", token.first, token.after));
        out.put_form(format_args!(" {}:{}", token.place.line, token.place.column));
        before = ", ";
    }
}

/// What `tokens` answers for a text, written as the rows below write it: the tokens or the fault.
pub(super) fn write_cut(out: &mut Shown, alloc: Global, text: &[u8]) {
    match tokens(alloc, text) {
        Ok(found) => write_tokens(out, found.as_slice()),
        Err(fault) => out.put_form(fault),
    }
}

/// How many tokens a text has, and the last of them.
pub(super) fn write_last(out: &mut Shown, alloc: Global, text: &[u8]) {
    match tokens(alloc, text) {
        Ok(found) => {
            let count = found.len();
            out.put_form(format_args!("{count} "));
            write_tokens(out, &found[count.saturating_sub(1)..]);
        }
        Err(fault) => out.put_form(fault),
    }
}

const LINES: &str = r##"

#"
#
INT(a1) => Word 0-3 1:1, Open 3-4 1:4, Name 4-6 1:5, Close 6-7 1:7
=== => Equal 0-2 1:1, Assign 2-3 1:3
<=>=!=&&|| => AtMost 0-2 1:1, AtLeast 2-4 1:3, Unequal 4-6 1:5, AndAnd 6-8 1:7, OrOr 8-10 1:9
< =!! = => Less 0-1 1:1, Assign 2-3 1:3, Bang 3-4 1:4, Bang 4-5 1:5, Assign 6-7 1:7
FLOATS => Word 0-6 1:1
FIXEDS FLOATPP => Word 0-6 1:1, Word 7-14 1:8
aB1b2 => Name 0-1 1:1, Word 1-2 1:2, 1 2-3 1:3, Name 3-5 1:4
0 10 1a -7 => 0 0-1 1:1, 10 2-4 1:3, 1 5-6 1:6, Name 6-7 1:7, Minus 8-9 1:9, 7 9-10 1:10
170141183460469231731687303715884105727 => 170141183460469231731687303715884105727 0-39 1:1
"" => Text [] 0-2 1:1
"\1012\8\\n" => Text [65, 50, 92, 56, 92, 110] 0-12 1:1
"a"b"" => Text [97] 0-3 1:1, Name 3-4 1:4, Text [] 4-6 1:5
SPACE # x => Word 0-5 1:1
> => Greater 0-1 1:1
ABCDEFGHIJKLMNOPQRSTUVWXYZ abcdefghijklmnopqrstuvwxyz0123456789 1234567890 => Word 0-26 1:1, Name 27-63 1:28, 1234567890 64-74 1:65
# The longest texts, and one that is a byte longer.
{1048576  }
{1048576 A} => Word 0-1048576 1:1
a{1048574 0}z => Name 0-1048576 1:1
#{1048576 $} => program too long
# Faults of tokens; the table of the built checker has more of them.
"a\377\777\400" => program line 1 column 7: octal escape above 255
STRING("\400 => program line 1 column 8: unfinished string
a &b => program line 1 column 3: unexpected byte
1END => program line 1 column 1: not in this profile
INT(0,1.5) => program line 1 column 7: not in this profile
A FLOATP => program line 1 column 3: not in this profile
INT(-170141183460469231731687303715884105728,0) => program line 1 column 6: number too large
"##;

/// Texts of several lines, and of control characters.
const TEXTS: [(&str, &str); 12] = [
    (" \t\r\n", ""),
    ("# $ ~\n", ""),
    ("##\n#\r#", ""),
    (
        "()[],+-*/%^",
        "Open 0-1 1:1, Close 1-2 1:2, OpenIndex 2-3 1:3, CloseIndex 3-4 1:4, Comma 4-5 1:5, \
         Plus 5-6 1:6, Minus 6-7 1:7, Times 7-8 1:8, Divide 8-9 1:9, Percent 9-10 1:10, Caret 10-11 1:11",
    ),
    (
        "STRING(\"\\101\\x\\\nB\")",
        "Word 0-6 1:1, Open 6-7 1:7, Text [65, 92, 120, 66] 7-18 1:8, Close 18-19 2:3",
    ),
    ("A#b\nC", "Word 0-1 1:1, Word 4-5 2:1"),
    ("A#b\r C\n\n d", "Word 0-1 1:1, Name 9-10 3:2"),
    ("\n\r\tA", "Word 3-4 2:3"),
    ("\"\n\n\"\nA", "Text [10, 10] 0-4 1:1, Word 5-6 4:1"),
    (
        "A\n\"x\" # \"y\"\n\"#\"",
        "Word 0-1 1:1, Text [120] 2-5 2:1, Text [35] 12-15 3:1",
    ),
    (
        "A \"x\ny\" \"$",
        "program line 2 column 4: unfinished string",
    ),
    ("\n # $\n  $", "program line 3 column 3: unexpected byte"),
];

const MANY: [(&str, &str); 3] = [
    ("{100000 a }", "100000 Name 199998-199999 1:199999"),
    ("{100000 12\n}", "100000 12 299997-299999 100000:1"),
    ("{100000 \"x\"}", "100000 Text [120] 299997-300000 1:299998"),
];

/// The kind of the token that comes next, or the fault, or the end.
fn write_next(out: &mut Shown, alloc: Global, lexer: &mut Lexer<'_>) {
    match lexer.next_token(alloc) {
        Ok(Some(token)) => write_kind(out, &token.kind),
        Ok(None) => out.put("end"),
        Err(fault) => out.put_form(fault),
    }
}

/// What a lexer of a text answers to the first four calls.
pub(super) fn write_steps(out: &mut Shown, alloc: Global, text: &[u8]) {
    match Lexer::new(text) {
        Ok(mut lexer) => {
            for _ in 0..4 {
                write_next(out, alloc, &mut lexer);
                out.put(", ");
            }
        }
        Err(fault) => out.put_form(fault),
    }
}

// A lexer stays at a fault and at the end.
const STEPS: [(&str, &str); 3] = [
    (
        "a7 # b\n <= $ c",
        "Name, AtMost, program line 2 column 5: unexpected byte, program line 2 column 5: unexpected byte, ",
    ),
    ("12 # b", "12, end, end, end, "),
    ("{1048577  }", "program too long"),
];

/// What `token_at` answers for some bytes: the kind and the length, or the fault.
pub(super) fn write_front(out: &mut Shown, alloc: Global, bytes: &[u8]) {
    if bytes.is_empty() {
        return;
    }
    match token_at(alloc, bytes) {
        Ok((kind, len)) => {
            write_kind(out, &kind);
            out.put_form(format_args!(" {len}"));
        }
        Err(fault) => out.put_form(format_args!("{fault:?}")),
    }
}

const FRONTS: [(&str, &str); 7] = [
    ("INT(1", "Word 3"),
    ("a1B", "Name 2"),
    ("12,", "12 2"),
    ("<=1", "AtMost 2"),
    ("\"a\\400\"b", "Wrong { kind: BadOctal, behind: 2 }"),
    (" a", "Wrong { kind: BadByte, behind: 0 }"),
    ("#a", "Wrong { kind: BadByte, behind: 0 }"),
];

/// The line and the column of each offset of a text, up to the end.
pub(super) fn write_places(out: &mut Shown, text: &[u8]) {
    if text.len() > PROGRAM_LIMIT {
        return;
    }
    let start = Place { line: 1, column: 1 };
    for offset in 0..text.len() + 1 {
        let place = advance(start, text, 0, offset);
        out.put_form(format_args!("{}:{} ", place.line, place.column));
    }
}

const PLACES: [(&str, &str); 1] = [("a\nbc\n", "1:1 1:2 2:1 2:2 2:3 3:1 ")];

#[test]
fn texts_have_their_tokens(rt: HostRuntime) -> Result<(), Fail> {
    judge_lines(&rt, rt.alloc(), &Asked::Cut, LINES)?;
    judge_rows(&rt, rt.alloc(), &Asked::Cut, &TEXTS)?;
    judge_rows(&rt, rt.alloc(), &Asked::Last, &MANY)?;
    judge_rows(&rt, rt.alloc(), &Asked::Steps, &STEPS)?;
    judge_rows(&rt, rt.alloc(), &Asked::Front, &FRONTS)?;
    judge_rows(&rt, rt.alloc(), &Asked::Places, &PLACES)
}

/// Two names, and whether they are found to be the same.
type Row = (&'static [u8], &'static [u8], bool);

// Of long names nothing is told, nor of the name of no bytes.
const CODES: [Row; 15] = [
    (b"n1", b"n1", true),
    (b"n1", b"1n", false),
    (b"n1", b"n", false),
    (b"n1", b"n11", false),
    (b"n1", b"\xff\xff\xff\xff\xff\xff\xff", false),
    (b"n1", b"", false),
    (b"\xff\xff\xff\xff\xff\xff\xff", b"n1", false),
    (b"\xff\xff\xff\xff\xff\xff\xff", b"1n", false),
    (b"\xff\xff\xff\xff\xff\xff\xff", b"n", false),
    (b"\xff\xff\xff\xff\xff\xff\xff", b"n11", false),
    (
        b"\xff\xff\xff\xff\xff\xff\xff",
        b"\xff\xff\xff\xff\xff\xff\xff",
        true,
    ),
    (b"\xff\xff\xff\xff\xff\xff\xff", b"", false),
    (b"vertices", b"vertices", false),
    (b"vertices", b"", false),
    (b"vertices", b"edges", false),
];

/// Whether two names hold their bytes, and the other its number, and they are found to be the same where they should.
fn is_right(known: &NameKey, given: &Name, row: &Row) -> bool {
    let (name, other, wanted) = row;
    known.as_slice() == *name
        && given.as_slice() == *other
        && given.number() == 7
        && known.is_same_short(given) == *wanted
}

/// Whether the names of a row are right.
fn are_right(alloc: Global, row: &Row) -> Result<bool, AllocError> {
    let known = NameKey::new(Name::copy(alloc, row.0)?);
    let given = Name::numbered(alloc, row.1, 7)?;
    Ok(is_right(&known, &given, row))
}

#[test]
fn names_hold_their_bytes_and_are_compared(rt: HostRuntime) -> Result<(), Fail> {
    let mut right = 0usize;
    for row in &CODES {
        right = right.saturating_add(are_right(rt.alloc(), row)? as usize);
    }
    assert_eq!(rt; right, CODES.len());
    Ok(())
}

/// Whether a copy of bytes holds them.
fn is_copied(alloc: Global, bytes: &[u8]) -> Result<bool, AllocError> {
    let copied = Bytes::copy(alloc, bytes)?;
    Ok(copied.as_slice() == bytes)
}

#[test]
fn bytes_are_copied_whole(rt: HostRuntime) -> Result<(), Fail> {
    let long = vec![in rt.alloc(); b'x'; 100_000]?;
    for bytes in &[b"".as_slice(), b"ab", long.as_slice()] {
        assert!(rt; is_copied(rt.alloc(), bytes)?);
    }
    Ok(())
}

/// Whether bytes were written over, and what they are then.
fn write_over(out: &mut Shown, bytes: &mut Bytes, others: &[u8]) {
    let is_done = bytes.overwrite(others);
    out.put_form(format_args!(" {is_done} "));
    out.put_bytes(bytes.as_slice());
}

#[test]
fn bytes_are_written_over_where_they_have_room(rt: HostRuntime) -> Result<(), Fail> {
    let mut bytes = Bytes::copy(rt.alloc(), b"long")?;
    let mut shown = Shown::new(rt.alloc());
    shown.put_bytes(bytes.as_slice());
    write_over(&mut shown, &mut bytes, b"ab");
    write_over(&mut shown, &mut bytes, &[b'x'; 4096]);
    judged(&rt, shown.told(), "long true ab false ab", "the bytes")
}
