//! Numbers as people write them: `10^9`, `2^31-1`.

ghost use Rattle.std.specs.Prelude.{◌≡◌, ◌++◌, ◌≤◌, ◌^◌, decimal, OnOk, codes};
ghost use Rattle.std.specs.Fmt.{signed_decimal};
ghost use Rattle.ctd_lint_report.specs.calls.Numbers.{exponent_below, integer_entry, integer_text, natural_text};

use crate::setup::Form;
use itoa::Buffer;
use std::alloc::AllocError;

/// The exponent with which a base gives a number, no less than a least one.
fn exponent_of(least: u32, base: u128, number: u128) -> Option<u32>
    requires { 2 ≤ base }
    ensures { result ≡ exponent_below 128 least base number }
{
    let exponent = number.checked_ilog(base)?;
    if least <= exponent && base.pow(exponent) == number {
        Some(exponent)
    } else {
        None
    }
}

/// Appends a power, with what stands behind it.
fn write_power(
    base: u128,
    exponent: u32,
    behind: &str,
    text: &mut Vec<u8>,
) -> Result<(), AllocError>
    ensures { OnOk result (text.new.items ≡ text.old.items ++ (decimal base ++ codes "^" ++ decimal exponent ++ behind.now)) }
{
    text.extend_from_slice(Buffer::new().format(base).as_bytes())?;
    text.extend_from_slice(b"^")?;
    text.extend_from_slice(Buffer::new().format(exponent).as_bytes())?;
    text.extend_from_slice(behind.as_bytes())
}

/// Appends a number: as a power where it is one, or its successor is one, behind which this text then stands.
fn write_natural(number: u128, less: &str, text: &mut Vec<u8>) -> Result<(), AllocError>
    requires { number ≤ 2 ^ 127 }
    ensures { OnOk result (text.new.items ≡ text.old.items ++ natural_text less.now number) }
{
    if let Some(exponent) = exponent_of(6, 10, number) {
        return write_power(10, exponent, "", text);
    }
    if let Some(exponent) = exponent_of(20, 2, number) {
        return write_power(2, exponent, "", text);
    }
    if let Some(exponent) = exponent_of(6, 10, number + 1) {
        return write_power(10, exponent, less, text);
    }
    if let Some(exponent) = exponent_of(20, 2, number + 1) {
        return write_power(2, exponent, less, text);
    }
    text.extend_from_slice(Buffer::new().format(number).as_bytes())
}

/// Appends a number that may be negative.
fn write_integer_text(number: i128, text: &mut Vec<u8>) -> Result<(), AllocError>
    ensures { OnOk result (text.new.items ≡ text.old.items ++ integer_text number) }
{
    if number < 0 {
        text.extend_from_slice(b"-")?;
        return write_natural(number.unsigned_abs(), "+1", text);
    }
    write_natural(number.unsigned_abs(), "-1", text)
}

/// Appends the digits of a number.
pub(crate) fn write_digits(number: i128, text: &mut Vec<u8>) -> Result<(), AllocError>
    ensures { OnOk result (text.new.items ≡ text.old.items ++ signed_decimal number) }
{
    text.extend_from_slice(Buffer::new().format(number).as_bytes())
}

/// Appends what is written of a number.
pub(crate) fn write_integer(form: Form, number: i128, text: &mut Vec<u8>) -> Result<(), AllocError>
    ensures { OnOk result (text.new.items ≡ text.old.items ++ integer_entry form number) }
{
    match form {
        Form::Text => write_integer_text(number, text),
        Form::Json => write_digits(number, text),
    }
}
