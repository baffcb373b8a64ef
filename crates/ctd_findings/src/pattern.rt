//! The remarks on a pattern, by the tree that `regex` reads in it.

use crate::command::remark_if;
use crate::finding::Remark;
use crate::kind::Kind;
use ctd_traps::Collector;
use regex_class::Class;
use regex_hir::{Hir, Look};
use regex_syntax::{Config, ErrorKind, Flags, Parsed, parse};
use std::alloc::{AllocError, Global};
use std::str::from_utf8;

/// Of how many alternatives all are compared.
const MOST_BRANCHES: usize = 100;

/// The first letter of ASCII, `A`.
const FIRST_LETTER: u32 = 65;

/// The last letter of ASCII, `z`.
const LAST_LETTER: u32 = 122;

const LINE_FEED: u32 = 10;

/// What stands behind a line feed in ASCII.
const VERTICAL_TAB: u32 = 11;

/// An end of a pattern.
#[derive(Clone, Copy)]
enum Edge {
    Start,
    End,
}

/// How `regex` reads a pattern over bytes.
fn config() -> Config {
    Config {
        flags: Flags::default(),
        octal: false,
        utf8: false,
        nest_limit: 250,
    }
}

/// What is wrong with a literal of REGEX of which no pattern is built.
#[derive(Clone, Copy)]
pub struct PatternMistake {
    /// The words of `regex` where it reads no pattern.
    pub text: &'static str,
    /// The number of a byte of the literal, from 1, where the mistake has a place.
    pub byte: Option<usize>,
}

/// What is wrong with a literal of REGEX of which no pattern is built (LANGUAGE.md, `bad pattern`). An error where memory ran out.
pub fn pattern_mistake(alloc: Global, literal: &[u8]) -> Result<PatternMistake, AllocError> {
    let text = match from_utf8(literal) {
        Ok(text) => text,
        Err(error) => {
            return Ok(PatternMistake {
                text: "no UTF-8",
                byte: Some(error.valid_up_to().saturating_add(1)),
            });
        }
    };
    match parse(alloc, text, &config()) {
        Ok(_) => Ok(PatternMistake {
            text: "it needs tables of more than 10 MiB",
            byte: None,
        }),
        Err(error) => match error.kind {
            ErrorKind::OutOfMemory => Err(AllocError),
            _ => Ok(PatternMistake {
                text: error.kind.message(),
                byte: Some(error.span.start.saturating_add(1)),
            }),
        },
    }
}

/// The tree that `regex` reads in a pattern, if it is one.
pub(crate) fn tree_of(alloc: Global, pattern: &[u8]) -> Result<Option<Parsed>, AllocError> {
    let Ok(text) = from_utf8(pattern) else {
        return Ok(None);
    };
    match parse(alloc, text, &config()) {
        Ok(parsed) => Ok(Some(parsed)),
        Err(error) => match error.kind {
            ErrorKind::OutOfMemory => Err(AllocError),
            _ => Ok(None),
        },
    }
}

/// Adds a tree and all that stand in it.
#[cycle(parts)]
fn list_parts<'h>(tree: &'h Hir, found: &mut Collector<&'h Hir>) {
    found.add(tree);
    match tree {
        Hir::Repetition { sub, .. } | Hir::Capture { sub, .. } => list_parts(sub, found),
        Hir::Concat(parts) | Hir::Alternation(parts) => list_all_parts(parts.as_slice(), found),
        _ => (),
    }
}

/// Adds trees and all that stand in them.
#[cycle(parts)]
fn list_all_parts<'h>(trees: &'h [Hir], found: &mut Collector<&'h Hir>) {
    for tree in trees {
        list_parts(tree, found);
    }
}

/// Adds a tree, and what of those in it stands at one of its ends, if it stands there once.
#[cycle(edge)]
fn list_edge<'h>(edge: Edge, tree: &'h Hir, found: &mut Collector<&'h Hir>) {
    found.add(tree);
    match tree {
        Hir::Capture { sub, .. } => list_edge(edge, sub, found),
        Hir::Concat(parts) => list_edge_of_parts(edge, parts.as_slice(), found),
        Hir::Alternation(branches) => list_edge_of_branches(edge, branches.as_slice(), found),
        _ => (),
    }
}

/// The same of parts that stand one behind the other.
#[cycle(edge)]
fn list_edge_of_parts<'h>(edge: Edge, parts: &'h [Hir], found: &mut Collector<&'h Hir>) {
    match (edge, parts) {
        (Edge::Start, [first, ..]) => list_edge(edge, first, found),
        (Edge::End, [.., last]) => list_edge(edge, last, found),
        _ => (),
    }
}

/// The same of alternatives.
#[cycle(edge)]
fn list_edge_of_branches<'h>(edge: Edge, branches: &'h [Hir], found: &mut Collector<&'h Hir>) {
    for branch in branches {
        list_edge(edge, branch, found);
    }
}

/// Whether a tree is `^`.
fn is_caret(tree: &Hir) -> bool {
    matches!(
        tree,
        Hir::Look(Look::Start | Look::StartLf | Look::StartCrlf)
    )
}

/// Whether a tree is `$`, as it stands without the flag `m`.
fn is_dollar(tree: &Hir) -> bool {
    matches!(tree, Hir::Look(Look::End))
}

/// Whether a tree is a repetition without a bound.
fn is_unbounded(tree: &Hir) -> bool {
    matches!(tree, Hir::Repetition { max: None, .. })
}

/// The class that a tree is, if it is one.
fn class_of(tree: &Hir) -> Option<&Class> {
    match tree {
        Hir::Bytes(class) | Hir::Chars(class) => Some(class),
        _ => None,
    }
}

/// Whether a tree is a class that has the letters from `A` to `z` as one range, or all but these.
fn has_letter_range(tree: &Hir) -> bool {
    let Some(class) = class_of(tree) else {
        return false;
    };
    let mut next = 0;
    for range in class.ranges.iter() {
        let (low, high) = *range;
        let is_range = low == FIRST_LETTER && high == LAST_LETTER;
        let is_gap = next == FIRST_LETTER && low == LAST_LETTER + 1;
        if is_range || is_gap {
            return true;
        }
        next = high.saturating_add(1);
    }
    false
}

/// Whether a tree is a class that has a line feed, and not for its own sake: it has the vertical tab too.
fn has_line_feed(tree: &Hir) -> bool {
    class_of(tree).is_some_and(|class| class.contains(LINE_FEED) && class.contains(VERTICAL_TAB))
}

/// The bytes that a tree stands for, if it is a text.
fn text_of(tree: &Hir) -> Option<&[u8]> {
    match tree {
        Hir::Empty => Some(&[]),
        Hir::Literal(bytes) => Some(bytes.as_slice()),
        _ => None,
    }
}

/// The text with which a tree begins.
fn first_text(tree: &Hir) -> &[u8] {
    let first = match tree {
        Hir::Concat(parts) => parts.first(),
        _ => Some(tree),
    };
    first.and_then(|part| text_of(part)).unwrap_or(&[])
}

/// Whether one of some alternatives begins with a text.
fn some_begins_with(text: &[u8], branches: &[Hir]) -> bool {
    branches
        .iter()
        .any(|branch| first_text(branch).starts_with(text))
}

/// Whether a tree has alternatives, one of which is a text with which a later one begins.
fn hides_alternative(tree: &Hir) -> bool {
    let Hir::Alternation(branches) = tree else {
        return false;
    };
    if branches.len() > MOST_BRANCHES {
        return false;
    }
    for (i, branch) in branches.iter().enumerate() {
        if let Some(text) = text_of(branch)
            && some_begins_with(text, &branches[i + 1..])
        {
            return true;
        }
    }
    false
}

/// The trees that stand in a tree, and itself.
pub(crate) fn parts_of(alloc: Global, tree: &Hir) -> Result<Vec<&Hir>, AllocError> {
    let mut found = Collector::new(alloc);
    list_parts(tree, &mut found);
    found.finish()
}

/// Those of them that stand at one of its ends, once.
fn edge_of(alloc: Global, edge: Edge, tree: &Hir) -> Result<Vec<&Hir>, AllocError> {
    let mut found = Collector::new(alloc);
    list_edge(edge, tree, &mut found);
    found.finish()
}

/// Adds the remarks on the tree of a pattern.
fn list_tree(alloc: Global, tree: &Hir, found: &mut Collector<Remark>) -> Result<(), AllocError> {
    let parts = parts_of(alloc, tree)?;
    let starts = edge_of(alloc, Edge::Start, tree)?;
    let ends = edge_of(alloc, Edge::End, tree)?;
    let is_empty = matches!(tree, Hir::Empty);
    remark_if(is_empty, Kind::EmptyPattern, found);
    let has_letters = parts.iter().any(|part| has_letter_range(part));
    remark_if(has_letters, Kind::LetterRange, found);
    let hides = ends.iter().any(|end| hides_alternative(end));
    remark_if(hides, Kind::HiddenAlternative, found);
    let begins = starts.iter().any(|start| is_caret(start));
    remark_if(begins, Kind::Caret, found);
    let ends_so = ends.iter().any(|end| is_dollar(end));
    remark_if(ends_so, Kind::Dollar, found);
    let repeats = parts.iter().any(|part| is_unbounded(part));
    remark_if(repeats, Kind::NoBound, found);
    let feeds = parts.iter().any(|part| has_line_feed(part));
    remark_if(feeds, Kind::LineFeed, found);
    Ok(())
}

/// Adds the remarks on a pattern: none where `regex` reads no pattern in it.
pub(crate) fn list_pattern(alloc: Global, pattern: &[u8], found: &mut Collector<Remark>) {
    match tree_of(alloc, pattern) {
        Ok(Some(parsed)) => match list_tree(alloc, &parsed.hir, found) {
            Ok(()) => (),
            Err(_) => found.fail(),
        },
        Ok(None) => (),
        Err(_) => found.fail(),
    }
}
