//! What is written as JSON: an object a line. A string has the bytes as they are, each by its own number.

ghost use Rattle.std.specs.Prelude.{◌≡◌, ◌<◌, ◌++◌, decimal, flat_map, OnOk, Some};
ghost use Rattle.std.specs.Char.{digit_char};
ghost use Rattle.ctd_lint_report.specs.calls.Json.{byte_text, code_text, error_object, event_name, finding_object, head_text, is_printable, is_quoted, less_known_object, member, never_object, numbers_text, optional_member, said_text, string_text, trap_object, unclosed_member, verdict_object};

use crate::kind::{rank_text, trap_name, trap_text};
use crate::text::{less_known_text, write_number};
use ctd_findings::Finding;
use ctd_token::{Bytes, Place};
use ctd_traps::{EventKind, Note, Trap};
use std::alloc::AllocError;

/// Whether a byte has a backslash before it in a string: a quotation mark or a backslash.
pub(crate) fn is_quoted(byte: u8) -> bool
    ensures { result ≡ is_quoted byte }
{
    byte == b'"' || byte == b'\\'
}

/// Whether a byte is printable ASCII.
pub(crate) fn is_printable(byte: u8) -> bool
    ensures { result ≡ is_printable byte }
{
    b' ' <= byte && byte <= b'~'
}

/// A hexadecimal digit.
pub(crate) fn hex_digit(number: u8) -> u8
    requires { number < 16 }
    ensures { result ≡ digit_char number }
{
    if number < 10 {
        b'0' + number
    } else {
        b'a' - 10 + number
    }
}

/// Appends a byte by its number.
fn write_code(byte: u8, text: &mut Vec<u8>) -> Result<(), AllocError>
    ensures { OnOk result (text.new.items ≡ text.old.items ++ code_text byte) }
{
    text.extend_from_slice(b"\\u00")?;
    text.push(hex_digit(byte / 16))?;
    text.push(hex_digit(byte % 16))?;
    Ok(())
}

/// Appends a byte of a string.
fn write_byte(byte: u8, text: &mut Vec<u8>) -> Result<(), AllocError>
    ensures { OnOk result (text.new.items ≡ text.old.items ++ byte_text byte) }
{
    if is_quoted(byte) {
        text.push(b'\\')?;
        text.push(byte)?;
        Ok(())
    } else if is_printable(byte) {
        text.push(byte)?;
        Ok(())
    } else {
        write_code(byte, text)
    }
}

/// Appends the bytes of a string.
fn write_bytes(bytes: &[u8], text: &mut Vec<u8>) -> Result<(), AllocError>
    ensures { OnOk result (text.new.items ≡ text.old.items ++ flat_map byte_text bytes.now) }
{
    for byte in bytes {
        write_byte(*byte, text)?;
    }
    Ok(())
}

/// Appends a string.
pub(crate) fn write_string(bytes: &[u8], text: &mut Vec<u8>) -> Result<(), AllocError>
    ensures { OnOk result (text.new.items ≡ text.old.items ++ string_text bytes.now) }
{
    text.extend_from_slice(b"\"")?;
    write_bytes(bytes, text)?;
    text.extend_from_slice(b"\"")
}

/// Appends the members for a place.
fn write_numbers(place: Place, text: &mut Vec<u8>) -> Result<(), AllocError>
    ensures { OnOk result (text.new.items ≡ text.old.items ++ numbers_text place) }
{
    text.extend_from_slice(b"\"line\":")?;
    write_number(place.line, text)?;
    text.extend_from_slice(b",\"column\":")?;
    write_number(place.column, text)
}

/// Appends a member with a string, behind others.
pub(crate) fn write_member(key: &str, value: &[u8], text: &mut Vec<u8>) -> Result<(), AllocError>
    ensures { OnOk result (text.new.items ≡ text.old.items ++ member key.now value.now) }
{
    text.extend_from_slice(b",\"")?;
    text.extend_from_slice(key.as_bytes())?;
    text.extend_from_slice(b"\":")?;
    write_string(value, text)
}

/// Appends a member, if there is a string for it.
fn write_optional(key: &str, value: &Option<Bytes>, text: &mut Vec<u8>) -> Result<(), AllocError>
    ensures { OnOk result (text.new.items ≡ text.old.items ++ optional_member key.now value.now) }
{
    match value {
        Some(value) => write_member(key, value.as_slice(), text),
        None => Ok(()),
    }
}

/// Begins an object, which is about a file, and a place in it, if there is one.
pub(crate) fn write_head(
    file: &[u8],
    place: Option<Place>,
    text: &mut Vec<u8>,
) -> Result<(), AllocError>
    ensures { OnOk result (text.new.items ≡ text.old.items ++ head_text file.now place) }
{
    text.extend_from_slice(b"{\"file\":")?;
    write_string(file, text)?;
    let Some(place) = place else {
        return Ok(());
    };
    text.extend_from_slice(b",")?;
    write_numbers(place, text)
}

/// Begins the object of a finding or a trap: all but the last member.
fn write_said(
    file: &[u8],
    place: Place,
    rank: &str,
    kind: &str,
    said: &str,
    text: &mut Vec<u8>,
) -> Result<(), AllocError>
    ensures { OnOk result (text.new.items ≡ text.old.items ++ said_text file.now place rank.now kind.now said.now) }
{
    write_head(file, Some(place), text)?;
    write_member("rank", rank.as_bytes(), text)?;
    write_member("kind", kind.as_bytes(), text)?;
    write_member("text", said.as_bytes(), text)
}

/// Appends the object of a finding in a file.
pub(crate) fn write_finding_object(
    file: &[u8],
    finding: &Finding,
    text: &mut Vec<u8>,
) -> Result<(), AllocError>
    ensures { OnOk result (text.new.items ≡ text.old.items ++ finding_object file.now finding.now) }
{
    let kind = finding.remark.kind;
    write_said(
        file,
        finding.place,
        rank_text(kind.rank()),
        kind.name(),
        kind.text(),
        text,
    )?;
    write_optional("name", &finding.remark.name, text)?;
    text.extend_from_slice(b"}\n")
}

/// Appends the object of a trap in a file, with its reason.
pub(crate) fn write_trap_object(
    file: &[u8],
    trap: &Trap,
    reason: &Option<Bytes>,
    text: &mut Vec<u8>,
) -> Result<(), AllocError>
    ensures { OnOk result (text.new.items ≡ text.old.items ++ trap_object file.now reason.now trap.now) }
{
    write_said(
        file,
        trap.place,
        "risk",
        trap_name(trap.kind),
        trap_text(trap.kind),
        text,
    )?;
    write_optional("reason", reason, text)?;
    text.extend_from_slice(b"}\n")
}

/// Appends the object of the command from which on less is known.
pub(crate) fn write_less_known_object(
    file: &[u8],
    place: Place,
    text: &mut Vec<u8>,
) -> Result<(), AllocError>
    ensures { OnOk result (text.new.items ≡ text.old.items ++ less_known_object file.now place) }
{
    write_head(file, Some(place), text)?;
    write_member("rank", b"note", text)?;
    write_member("text", less_known_text().as_bytes(), text)?;
    text.extend_from_slice(b"}\n")
}

/// The name of what may happen at a command.
fn event_name(kind: EventKind) -> &'static str
    ensures { result.now ≡ event_name kind }
{
    match kind {
        EventKind::Begins => "begins",
        EventKind::GoesOn => "goes-on",
        EventKind::IsTrue => "is-true",
        EventKind::IsFalse => "is-false",
    }
}

/// Appends the object of what never happens at a command.
fn write_never_object(file: &[u8], note: &Note, text: &mut Vec<u8>) -> Result<(), AllocError>
    ensures { OnOk result (text.new.items ≡ text.old.items ++ never_object file.now note.now) }
{
    write_head(file, Some(note.place), text)?;
    write_member("rank", b"never", text)?;
    write_member("kind", event_name(note.kind).as_bytes(), text)?;
    text.extend_from_slice(b"}\n")
}

/// Appends an object for each of these, which never happen.
pub(crate) fn write_never_objects(
    file: &[u8],
    notes: &[Note],
    text: &mut Vec<u8>,
) -> Result<(), AllocError>
    ensures { OnOk result (text.new.items ≡ text.old.items ++ flat_map (never_object file.now) notes.now) }
{
    for note in notes {
        write_never_object(file, note, text)?;
    }
    Ok(())
}

/// Appends the object of what is said of verdicts.
pub(crate) fn write_verdict_object(
    file: &[u8],
    said: &[u8],
    text: &mut Vec<u8>,
) -> Result<(), AllocError>
    ensures { OnOk result (text.new.items ≡ text.old.items ++ verdict_object file.now said.now) }
{
    write_head(file, None, text)?;
    write_member("rank", b"verdict", text)?;
    write_member("text", said, text)?;
    text.extend_from_slice(b"}\n")
}

/// Appends the place of the command that has no END, if one is found.
fn write_unclosed_member(unclosed: Option<Place>, text: &mut Vec<u8>) -> Result<(), AllocError>
    ensures { OnOk result (text.new.items ≡ text.old.items ++ unclosed_member unclosed) }
{
    let Some(place) = unclosed else {
        return Ok(());
    };
    text.extend_from_slice(b",\"unclosed\":{")?;
    write_numbers(place, text)?;
    text.extend_from_slice(b"}")
}

/// Appends the object of why a program is not read.
pub(crate) fn write_error_object(
    file: &[u8],
    place: Option<Place>,
    said: &[u8],
    unclosed: Option<Place>,
    text: &mut Vec<u8>,
) -> Result<(), AllocError>
    ensures { OnOk result (text.new.items ≡ text.old.items ++ error_object file.now place said.now unclosed) }
{
    write_head(file, place, text)?;
    write_member("rank", b"error", text)?;
    write_member("text", said, text)?;
    write_unclosed_member(unclosed, text)?;
    text.extend_from_slice(b"}\n")
}
