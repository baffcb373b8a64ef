//! Expressions, as the language writes them: sums, indices, and elements of arrays. A name is given by its index in a list of names.

ghost use Rattle.std.specs.Prelude.{◌≡◌, ◌++◌, decimal, IfOk, OnOk, pos, ◌-ℤ◌, if◌then◌else◌, nat_eq, int_lt, [], codes, flat_map};
ghost use Rattle.ctd_lint_report.specs.calls.Expressions.{elements_text, index_text, interval_text, literal_byte, literal_text, name_text, octal_text, offset_text, second_text, side_text, sum_text, term_text};

use crate::json::{hex_digit, is_printable, is_quoted};
use crate::number::write_integer;
use crate::reason::name_at;
use crate::setup::Form;
use ctd_elements::{Bound, Filling, Index, Side, Term};
use itoa::Buffer;
use std::alloc::AllocError;

/// Appends a name, if there is one.
pub(crate) fn write_name(
    names: &[&[u8]],
    index: usize,
    text: &mut Vec<u8>,
) -> Result<(), AllocError>
    ensures { OnOk result (text.new.items ≡ text.old.items ++ name_text names.now index) }
{
    match name_at(names, index) {
        Some(name) => text.extend_from_slice(name),
        None => Ok(()),
    }
}

/// Appends how many times a name is taken, if not once.
fn write_times(times: u32, text: &mut Vec<u8>) -> Result<(), AllocError>
    ensures { OnOk result (text.new.items ≡ text.old.items ++ (if nat_eq times 1 then [] else (decimal times ++ codes "*"))) }
{
    if times == 1 {
        return Ok(());
    }
    text.extend_from_slice(Buffer::new().format(times).as_bytes())?;
    text.extend_from_slice(b"*")
}

/// Appends a multiple of a name.
fn write_term(names: &[&[u8]], term: Term, text: &mut Vec<u8>) -> Result<(), AllocError>
    ensures { OnOk result (text.new.items ≡ text.old.items ++ term_text names.now term) }
{
    write_times(term.times, text)?;
    write_name(names, term.name, text)
}

/// Appends a plus sign before a number, which has its own if it is negative.
fn write_plus(number: i128, text: &mut Vec<u8>) -> Result<(), AllocError>
    ensures { OnOk result (text.new.items ≡ text.old.items ++ (if int_lt number (pos 0) then [] else codes "+")) }
{
    if number < 0 {
        return Ok(());
    }
    text.extend_from_slice(b"+")
}

/// Appends a number that is added to what stands before.
fn write_offset(form: Form, number: i128, text: &mut Vec<u8>) -> Result<(), AllocError>
    ensures { OnOk result (text.new.items ≡ text.old.items ++ offset_text form number) }
{
    if number == 0 {
        return Ok(());
    }
    write_plus(number, text)?;
    write_integer(form, number, text)
}

/// Appends a multiple of a name, if there is one, with a number added.
pub(crate) fn write_sum(
    form: Form,
    names: &[&[u8]],
    term: Option<Term>,
    number: i128,
    text: &mut Vec<u8>,
) -> Result<(), AllocError>
    ensures { OnOk result (text.new.items ≡ text.old.items ++ sum_text form names.now term number) }
{
    let Some(term) = term else {
        return write_integer(form, number, text);
    };
    write_term(names, term, text)?;
    write_offset(form, number, text)
}

/// The name at an index, or no bytes.
fn bytes_at<'n>(names: &[&'n [u8]], index: usize) -> &'n [u8]
    ensures { result.now ≡ name_text names.now index }
{
    match name_at(names, index) {
        Some(name) => name,
        None => &[],
    }
}

/// Appends a bound.
fn write_bound(
    form: Form,
    names: &[&[u8]],
    bound: Bound,
    text: &mut Vec<u8>,
) -> Result<(), AllocError>
    ensures { OnOk result (text.new.items ≡ text.old.items ++ sum_text form names.now bound.term bound.add) }
{
    write_sum(form, names, bound.term, i128::from(bound.add), text)
}

/// Appends the greatest number below a bound.
fn write_below(
    form: Form,
    names: &[&[u8]],
    bound: Bound,
    text: &mut Vec<u8>,
) -> Result<(), AllocError>
    ensures { OnOk result (text.new.items ≡ text.old.items ++ sum_text form names.now bound.term (bound.add -ℤ pos 1)) }
{
    write_sum(form, names, bound.term, i128::from(bound.add) - 1, text)
}

/// Appends a byte by its number.
fn write_octal(byte: u8, text: &mut Vec<u8>) -> Result<(), AllocError>
    ensures { OnOk result (text.new.items ≡ text.old.items ++ octal_text byte) }
{
    text.extend_from_slice(b"\\")?;
    text.push(hex_digit(byte / 64))?;
    text.push(hex_digit(byte / 8 % 8))?;
    text.push(hex_digit(byte % 8))?;
    Ok(())
}

/// Appends a byte of a literal.
fn write_literal_byte(byte: u8, text: &mut Vec<u8>) -> Result<(), AllocError>
    ensures { OnOk result (text.new.items ≡ text.old.items ++ literal_byte byte) }
{
    if is_quoted(byte) {
        text.push(b'\\')?;
        text.push(byte)?;
        Ok(())
    } else if is_printable(byte) {
        text.push(byte)?;
        Ok(())
    } else {
        write_octal(byte, text)
    }
}

/// Appends the bytes of a literal.
fn write_literal_bytes(bytes: &[u8], text: &mut Vec<u8>) -> Result<(), AllocError>
    ensures { OnOk result (text.new.items ≡ text.old.items ++ flat_map literal_byte bytes.now) }
{
    for byte in bytes {
        write_literal_byte(*byte, text)?;
    }
    Ok(())
}

/// Appends a literal.
fn write_literal(bytes: &[u8], text: &mut Vec<u8>) -> Result<(), AllocError>
    ensures { OnOk result (text.new.items ≡ text.old.items ++ literal_text bytes.now) }
{
    text.extend_from_slice(b"\"")?;
    write_literal_bytes(bytes, text)?;
    text.extend_from_slice(b"\"")
}

/// Appends an index.
fn write_index(
    form: Form,
    names: &[&[u8]],
    index: Index,
    text: &mut Vec<u8>,
) -> Result<(), AllocError>
    ensures { OnOk result (text.new.items ≡ text.old.items ++ index_text form names.now index) }
{
    match index {
        Index::Number(bound) => write_bound(form, names, bound, text),
        Index::Value(i) => write_name(names, i, text),
        Index::Text(i) => write_literal(bytes_at(names, i), text),
    }
}

/// Appends an interval, from the first to the last number.
fn write_interval(
    form: Form,
    names: &[&[u8]],
    low: Bound,
    high: Bound,
    text: &mut Vec<u8>,
) -> Result<(), AllocError>
    ensures { OnOk result (text.new.items ≡ text.old.items ++ interval_text form names.now low high) }
{
    write_bound(form, names, low, text)?;
    text.extend_from_slice(b"..")?;
    write_below(form, names, high, text)
}

/// Appends a side of a block.
fn write_side(form: Form, names: &[&[u8]], side: Side, text: &mut Vec<u8>) -> Result<(), AllocError>
    ensures { OnOk result (text.new.items ≡ text.old.items ++ side_text form names.now side) }
{
    match side {
        Side::At(index) => write_index(form, names, index, text),
        Side::Between(interval) => write_interval(form, names, interval.low, interval.high, text),
    }
}

/// Appends the second side of a block, if there is one.
fn write_second(
    form: Form,
    names: &[&[u8]],
    side: Option<Side>,
    text: &mut Vec<u8>,
) -> Result<(), AllocError>
    ensures { OnOk result (text.new.items ≡ text.old.items ++ second_text form names.now side) }
{
    let Some(side) = side else {
        return Ok(());
    };
    text.extend_from_slice(b",")?;
    write_side(form, names, side, text)
}

/// Appends the elements of an array: in a block, if there is one, else those that have a value.
pub(crate) fn write_elements(
    form: Form,
    names: &[&[u8]],
    array: usize,
    filling: Option<Filling>,
    text: &mut Vec<u8>,
) -> Result<(), AllocError>
    ensures { OnOk result (text.new.items ≡ text.old.items ++ elements_text form names.now array filling) }
{
    write_name(names, array, text)?;
    let Some(filling) = filling else {
        return text.extend_from_slice(b"[..]");
    };
    text.extend_from_slice(b"[")?;
    write_side(form, names, filling.block.first, text)?;
    write_second(form, names, filling.block.second, text)?;
    text.extend_from_slice(b"]")
}
