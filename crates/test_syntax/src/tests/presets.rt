//! Texts of presets with what they spell, worked out by hand from their productions.

use super::answers::{Asked, answer, judged, unfold};
use super::shown::Shown;
use super::tree_text::write_text;
use ctd_syntax::{PresetValue, Presets};
use std::alloc::Global;
use std::process::Abort;
use std::test::Fail;

/// A number, or a string between quotes.
fn write_literal(out: &mut Shown, literal: &PresetValue) {
    match literal {
        PresetValue::Int(n) => out.put_form(format_args!("{n}")),
        PresetValue::Text(bytes) => write_text(out, bytes.as_slice()),
    }
}

/// Each preset with its indices, each between brackets, and its value, and blanks between the presets.
fn write_presets(out: &mut Shown, presets: &Presets) {
    let mut before = "";
    for preset in presets.pins() {
        out.put(before);
        out.put_bytes(preset.name.as_slice());
        for index in preset.indices.as_slice() {
            out.put("[");
            write_literal(out, index);
            out.put("]");
        }
        out.put("=");
        write_literal(out, &preset.value);
        before = " ";
    }
}

/// What `read` answers for a text, as the rows below write it: the presets or the fault.
pub(super) fn write_read(out: &mut Shown, alloc: Global, text: &str) {
    match Presets::read(alloc, text) {
        Ok(presets) => write_presets(out, &presets),
        Err(fault) => out.put_form(format_args!("{fault:?}")),
    }
}

// In both columns `{3 ab}` stands for `ababab`. The table of the built checker has more of the short texts, and what they spell.
const TEXTS: [(&str, &str); 15] = [
    ("s=\"a,b\",n=-3,n=4", "s=\"a,b\" n=-3 n=4"),
    // Presets of elements.
    ("a[1,\"x\"]=5,a[-0]=\"b\"", "a[1][\"x\"]=5 a[0]=\"b\""),
    (
        "a[\"]=1,\"]=2,a[-3,0]=\"[]\"",
        "a[\"]=1,\"]=2 a[-3][0]=\"[]\"",
    ),
    ("a[]=1", "BadPreset"),
    ("a[i]=1", "BadPreset"),
    ("a[1]", "BadPreset"),
    ("a[1]= 5", "BadPreset"),
    ("a[1+1]=5", "BadPreset"),
    ("n=4,n=-3,n=4", "n=4 n=-3 n=4"),
    ("s=\"\",t=\"\",n=1", "s=\"\" t=\"\" n=1"),
    ("n=5,", "BadPreset"),
    // Texts of about a megabyte, more than a command line takes.
    ("{174762 a1=\"\",}n=7", "{174762 a1=\"\" }n=7"),
    ("s=\"{1000000 ,}\"", "s=\"{1000000 ,}\""),
    ("n={1000000 9}", "BadPreset"),
    ("a[{299999 7,}7]=1", "a[{299999 7][}7]=1"),
];

/// Judges what a text spells, where what is wanted is to be unfolded.
fn judge_presets(rt: &impl Abort, alloc: Global, text: &str, wanted: &str) -> Result<(), Fail> {
    let wanted = unfold(alloc, wanted)?;
    let found = answer(alloc, &Asked::Presets, text);
    judged(rt, found, wanted.as_str(), text)
}

#[test]
fn texts_of_presets(rt: HostRuntime) -> Result<(), Fail> {
    for (text, wanted) in &TEXTS {
        judge_presets(&rt, rt.alloc(), text, wanted)?;
    }
    assert!(rt; Presets::none(rt.alloc()).pins().is_empty());
    Ok(())
}
