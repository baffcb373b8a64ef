//! What the calls answer for a text, as text.

use super::numbers::write_numbers;
use super::presets::write_read;
use super::shown::Shown;
use super::tokens::{write_cut, write_front, write_last, write_places, write_steps};
use super::tree_text::write_program;
use ctd_syntax::parse;
use std::alloc::Global;
use std::process::Abort;
use std::test::Fail;

/// What is asked of a text.
pub(super) enum Asked {
    /// Its tokens.
    Cut,
    /// How many tokens it has, and the last of them.
    Last,
    /// Its tokens, one after another.
    Steps,
    /// The token at its front.
    Front,
    /// The places of its bytes, and of its end.
    Places,
    /// The program that it spells.
    Tree,
    /// The numbers of the names that the program removes.
    Numbers,
    /// The presets that it spells.
    Presets,
}

/// The tree with all its parentheses, or the fault.
fn write_parsed(out: &mut Shown, alloc: Global, text: &[u8]) {
    match parse(alloc, text) {
        Ok(program) => write_program(out, &program),
        Err(fault) => out.put_form(fault),
    }
}

/// What is answered for a text that is to be unfolded.
pub(super) fn answer(alloc: Global, asked: &Asked, text: &str) -> Result<String, Fail> {
    let text = unfold(alloc, text)?;
    let (text, bytes) = (text.as_str(), text.as_str().as_bytes());
    let mut shown = Shown::new(alloc);
    match asked {
        Asked::Cut => write_cut(&mut shown, alloc, bytes),
        Asked::Last => write_last(&mut shown, alloc, bytes),
        Asked::Steps => write_steps(&mut shown, alloc, bytes),
        Asked::Front => write_front(&mut shown, alloc, bytes),
        Asked::Places => write_places(&mut shown, bytes),
        Asked::Tree => write_parsed(&mut shown, alloc, bytes),
        Asked::Numbers => write_numbers(&mut shown, alloc, bytes),
        Asked::Presets => write_read(&mut shown, alloc, text),
    }
    shown.told()
}

/// That what was found at some place is what is wanted there.
fn same(rt: &impl Abort, found: &str, wanted: &str, place: &str) {
    assert_eq!(rt; found, wanted, "at {place}");
}

/// That the answer at some place is the one that is wanted there.
pub(super) fn judged(
    rt: &impl Abort,
    answer: Result<String, Fail>,
    wanted: &str,
    place: &str,
) -> Result<(), Fail> {
    let found = answer?;
    same(rt, found.as_str(), wanted, place);
    Ok(())
}

/// That each text of a table has the answer beside it.
pub(super) fn judge_rows(
    rt: &impl Abort,
    alloc: Global,
    asked: &Asked,
    table: &[(&str, &str)],
) -> Result<(), Fail> {
    for (text, wanted) in table {
        judged(rt, answer(alloc, asked, text), wanted, text)?;
    }
    Ok(())
}

/// That the text of each line has the answer behind its arrow. A line with no arrow has the answer of nothing.
///
/// One text of many lines is proved much sooner than a table of as many rows.
pub(super) fn judge_lines(
    rt: &impl Abort,
    alloc: Global,
    asked: &Asked,
    lines: &str,
) -> Result<(), Fail> {
    for line in lines.lines() {
        let (text, wanted) = line.split_once(" => ").unwrap_or((line, ""));
        judged(rt, answer(alloc, asked, text), wanted, text)?;
    }
    Ok(())
}

/// The number before the first blank, and what stands behind that.
fn split_count(folded: &[u8]) -> (usize, &[u8]) {
    let mut count = 0usize;
    for (at, byte) in folded.iter().enumerate() {
        if *byte == b' ' {
            return (count, &folded[at + 1..]);
        }
        count = count
            .saturating_mul(10)
            .saturating_add((*byte & 0xf) as usize);
    }
    (count, b"")
}

/// A text in which `{199 +1}` stands for `+1` 199 times.
pub(super) fn unfold(alloc: Global, text: &str) -> Result<String, Fail> {
    let mut shown = Shown::new(alloc);
    let mut folded = false;
    for part in text.as_bytes().split(|byte| *byte == b'{' || *byte == b'}') {
        let (times, part) = if folded { split_count(part) } else { (1, part) };
        for _ in 0..times {
            shown.put_bytes(part);
        }
        folded = !folded;
    }
    shown.told()
}
