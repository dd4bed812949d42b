//! Bytes and numbers at the end of what is written.

ghost use Rattle.std.specs.Prelude.{◌≡◌, ◌++◌, ◌∷◌, OnOk};

use itoa::{Buffer, Integer};
use std::alloc::AllocError;

/// Some bytes.
#[inline]
pub(crate) fn write_bytes(text: &mut Vec<u8>, bytes: &[u8]) -> Result<(), AllocError>
    ensures { OnOk result (text.new.items ≡ text.old.items ++ bytes.now) }
{
    text.extend_from_slice(bytes)
}

/// A number, in decimal digits.
#[inline]
pub(crate) fn write_number<I: Integer>(text: &mut Vec<u8>, number: I) -> Result<(), AllocError>
    ensures { OnOk result (text.new.items ≡ text.old.items ++ I.text number) }
{
    let mut digits = Buffer::new();
    text.extend_from_slice(digits.format(number).as_bytes())
}

/// The name of a member of an object, with all that stands before its value, and then a number.
#[inline]
pub(crate) fn write_member<I: Integer>(
    text: &mut Vec<u8>,
    name: &[u8],
    number: I,
) -> Result<(), AllocError>
    ensures { OnOk result (text.new.items ≡ text.old.items ++ (name.now ++ I.text number)) }
{
    write_bytes(text, name)?;
    write_number(text, number)
}

/// Two members of an object.
#[inline]
pub(crate) fn write_two<I: Integer>(
    text: &mut Vec<u8>,
    name: &[u8],
    number: I,
    other_name: &[u8],
    other: I,
) -> Result<(), AllocError>
    ensures { OnOk result (text.new.items ≡ text.old.items
        ++ (name.now ++ I.text number ++ other_name.now ++ I.text other)) }
{
    write_member(text, name, number)?;
    write_member(text, other_name, other)?;
    Ok(())
}
