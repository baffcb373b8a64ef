//! Why a trap is one: the variable that is to blame, and the numbers that it may be.

ghost use Rattle.std.specs.Prelude.{◌≡◌, ◌++◌, IfOk, OnOk, option_map};
ghost use Rattle.ctd_lint_report.specs.calls.Reasons.{between_text, bounds_text, least_text, most_text, name_at, operand_text, reason_of, same_text};

use crate::number::write_digits;
use ctd_states::Operand;
use ctd_token::Bytes;
use ctd_traps::Trap;
use std::alloc::{AllocError, Global};

/// Appends that a number is this one.
fn write_same(number: i128, text: &mut Vec<u8>) -> Result<(), AllocError>
    ensures { OnOk result (text.new.items ≡ text.old.items ++ same_text number) }
{
    text.extend_from_slice(b" is ")?;
    write_digits(number, text)
}

/// Appends that a number is at least this one.
fn write_least(least: i128, text: &mut Vec<u8>) -> Result<(), AllocError>
    ensures { OnOk result (text.new.items ≡ text.old.items ++ least_text least) }
{
    text.extend_from_slice(b" is only known to be at least ")?;
    write_digits(least, text)
}

/// Appends that a number is at most this one.
fn write_most(most: i128, text: &mut Vec<u8>) -> Result<(), AllocError>
    ensures { OnOk result (text.new.items ≡ text.old.items ++ most_text most) }
{
    text.extend_from_slice(b" is only known to be at most ")?;
    write_digits(most, text)
}

/// Appends that a number is from one to another.
fn write_between(least: i128, most: i128, text: &mut Vec<u8>) -> Result<(), AllocError>
    ensures { OnOk result (text.new.items ≡ text.old.items ++ between_text least most) }
{
    text.extend_from_slice(b" is only known to be from ")?;
    write_digits(least, text)?;
    text.extend_from_slice(b" to ")?;
    write_digits(most, text)
}

/// Appends what is known of a number by its least and its greatest value, if it has these.
fn write_bounds(
    least: Option<i128>,
    most: Option<i128>,
    text: &mut Vec<u8>,
) -> Result<(), AllocError>
    ensures { OnOk result (text.new.items ≡ text.old.items ++ bounds_text least most) }
{
    match (least, most) {
        (None, None) => Ok(()),
        (Some(least), None) => write_least(least, text),
        (None, Some(most)) => write_most(most, text),
        (Some(least), Some(most)) => {
            if least == most {
                write_same(least, text)
            } else {
                write_between(least, most, text)
            }
        }
    }
}

/// The name of a variable by its index, if there is one.
pub(crate) fn name_at<'n>(names: &[&'n [u8]], index: usize) -> Option<&'n [u8]>
    ensures { option_map (λ name. name.now) result ≡ name_at names.now index }
{
    names.get(index).copied()
}

/// Appends a name, or that of an array with the sign of an element.
fn write_operand(
    name: Option<&[u8]>,
    operand: Operand,
    text: &mut Vec<u8>,
) -> Result<(), AllocError>
    ensures { OnOk result (text.new.items ≡ text.old.items ++ operand_text (option_map (λ n. n.now) name.entry) operand) }
{
    let Some(name) = name else {
        return Ok(());
    };
    text.extend_from_slice(name)?;
    if operand.is_element {
        text.extend_from_slice(b"[..]")?;
    }
    Ok(())
}

/// The reason of a trap, if a variable is to blame: by its index in these names.
pub(crate) fn reason_of(
    alloc: Global,
    names: &[&[u8]],
    trap: &Trap,
) -> Result<Option<Bytes>, AllocError>
    ensures { IfOk result (λ reason. reason ≡ reason_of names.now trap.now) }
{
    let Some(operand) = trap.operand else {
        return Ok(None);
    };
    let mut text = Vec::new(alloc);
    write_operand(name_at(names, operand.name), operand, &mut text)?;
    write_bounds(operand.least, operand.most, &mut text)?;
    Ok(Some(Bytes::copy(alloc, text.as_slice())?))
}
