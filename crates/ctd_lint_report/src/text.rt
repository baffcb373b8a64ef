//! What is written as text: lines as compilers have them, so that editors find their places.

ghost use Rattle.std.specs.Prelude.{◌≡◌, ◌++◌, decimal, OnOk};
ghost use Rattle.ctd_lint_report.specs.calls.Json.{less_known_text};
ghost use Rattle.ctd_lint_report.specs.calls.Text.{about_text, error_lines, error_place_text, finding_line, less_known_line, place_text, remark_text, trap_line, unclosed_line, verdict_line};

use crate::kind::{rank_text, trap_name, trap_text};
use ctd_findings::{Finding, Remark};
use ctd_token::{Bytes, Place};
use ctd_traps::Trap;
use itoa::Buffer;
use std::alloc::AllocError;

/// Appends the name that a finding is about, or the reason of a trap, if there is one.
fn write_about(about: &Option<Bytes>, text: &mut Vec<u8>) -> Result<(), AllocError>
    ensures { OnOk result (text.new.items ≡ text.old.items ++ about_text about.now) }
{
    let Some(about) = about else {
        return Ok(());
    };
    text.extend_from_slice(b": ")?;
    text.extend_from_slice(about.as_slice())
}

/// Appends what a remark says, with the name of its kind.
fn write_remark(remark: &Remark, text: &mut Vec<u8>) -> Result<(), AllocError>
    ensures { OnOk result (text.new.items ≡ text.old.items ++ remark_text remark.now) }
{
    text.extend_from_slice(rank_text(remark.kind.rank()).as_bytes())?;
    text.extend_from_slice(b": ")?;
    text.extend_from_slice(remark.kind.text().as_bytes())?;
    write_about(&remark.name, text)?;
    text.extend_from_slice(b" [")?;
    text.extend_from_slice(remark.kind.name().as_bytes())?;
    text.extend_from_slice(b"]\n")
}

/// Appends a number.
pub(crate) fn write_number(number: u32, text: &mut Vec<u8>) -> Result<(), AllocError>
    ensures { OnOk result (text.new.items ≡ text.old.items ++ decimal number) }
{
    text.extend_from_slice(Buffer::new().format(number).as_bytes())
}

/// Appends a place behind the name of a file.
fn write_place(place: Place, text: &mut Vec<u8>) -> Result<(), AllocError>
    ensures { OnOk result (text.new.items ≡ text.old.items ++ place_text place) }
{
    text.push(b':')?;
    write_number(place.line, text)?;
    text.push(b':')?;
    write_number(place.column, text)?;
    Ok(())
}

/// Appends the line of a finding in a file.
pub(crate) fn write_finding_line(
    file: &[u8],
    finding: &Finding,
    text: &mut Vec<u8>,
) -> Result<(), AllocError>
    ensures { OnOk result (text.new.items ≡ text.old.items ++ finding_line file.now finding.now) }
{
    text.extend_from_slice(file)?;
    write_place(finding.place, text)?;
    text.extend_from_slice(b": ")?;
    write_remark(&finding.remark, text)
}

/// Appends the line of a trap in a file, with its reason.
pub(crate) fn write_trap_line(
    file: &[u8],
    trap: &Trap,
    reason: &Option<Bytes>,
    text: &mut Vec<u8>,
) -> Result<(), AllocError>
    ensures { OnOk result (text.new.items ≡ text.old.items ++ trap_line file.now reason.now trap.now) }
{
    text.extend_from_slice(file)?;
    write_place(trap.place, text)?;
    text.extend_from_slice(b": risk: ")?;
    text.extend_from_slice(trap_text(trap.kind).as_bytes())?;
    write_about(reason, text)?;
    text.extend_from_slice(b" [")?;
    text.extend_from_slice(trap_name(trap.kind).as_bytes())?;
    text.extend_from_slice(b"]\n")
}

/// What is said of the command from which on less is known.
pub(crate) fn less_known_text() -> &'static str
    ensures { result.now ≡ less_known_text }
{
    "less is known from here on, since the program takes long to analyse"
}

/// Appends the line of the command from which on less is known.
pub(crate) fn write_less_known_line(
    file: &[u8],
    place: Place,
    text: &mut Vec<u8>,
) -> Result<(), AllocError>
    ensures { OnOk result (text.new.items ≡ text.old.items ++ less_known_line file.now place) }
{
    text.extend_from_slice(file)?;
    write_place(place, text)?;
    text.extend_from_slice(b": note: ")?;
    text.extend_from_slice(less_known_text().as_bytes())?;
    text.extend_from_slice(b"\n")
}

/// Appends the line of what is said of verdicts.
pub(crate) fn write_verdict_line(
    file: &[u8],
    said: &[u8],
    text: &mut Vec<u8>,
) -> Result<(), AllocError>
    ensures { OnOk result (text.new.items ≡ text.old.items ++ verdict_line file.now said.now) }
{
    text.extend_from_slice(file)?;
    text.extend_from_slice(b": ")?;
    text.extend_from_slice(said)?;
    text.extend_from_slice(b"\n")
}

/// Appends the place of an error, where it has one.
fn write_error_place(place: Option<Place>, text: &mut Vec<u8>) -> Result<(), AllocError>
    ensures { OnOk result (text.new.items ≡ text.old.items ++ error_place_text place) }
{
    match place {
        Some(place) => write_place(place, text),
        None => Ok(()),
    }
}

/// Appends the line of the command that has no END, if one is found.
fn write_unclosed(
    file: &[u8],
    unclosed: Option<Place>,
    text: &mut Vec<u8>,
) -> Result<(), AllocError>
    ensures { OnOk result (text.new.items ≡ text.old.items ++ unclosed_line file.now unclosed) }
{
    let Some(place) = unclosed else {
        return Ok(());
    };
    text.extend_from_slice(file)?;
    write_place(place, text)?;
    text.extend_from_slice(b": note: this command has no END\n")
}

/// Appends the lines of why a program is not read.
pub(crate) fn write_error_lines(
    file: &[u8],
    place: Option<Place>,
    said: &[u8],
    unclosed: Option<Place>,
    text: &mut Vec<u8>,
) -> Result<(), AllocError>
    ensures { OnOk result (text.new.items ≡ text.old.items ++ error_lines file.now place said.now unclosed) }
{
    text.extend_from_slice(file)?;
    write_error_place(place, text)?;
    text.extend_from_slice(b": error: ")?;
    text.extend_from_slice(said)?;
    text.push(b'\n')?;
    write_unclosed(file, unclosed, text)
}
