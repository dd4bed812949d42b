//! Characters that are written by their numbers, as in `U+0041,U+0301`.

ghost use Rattle.std.specs.Prelude.{◌≡◌, ◌++◌, ◌<◌, Some, None, IfOk, OnOk, IsErrOf, IfErr, string_bytes, option_to_list, flat_map, replicate};
ghost use Rattle.shape_options.specs.CodePoints.{numbers_in, step, with_digit, ended, hexadecimal_digit, is_delimiter};
ghost use Rattle.shape_options.specs.CodePoints.{code_points_text, code_point_text, encoded_len, replacement};

use std::alloc::{AllocError, AllocFailed, Global};
use thiserror::Error;

/// Why a text is no list of characters.
#[derive(Clone, Copy, PartialEq, Eq, Debug, Error)]
pub enum CodePointsError {
    /// A byte is no digit and parts no numbers, or a number has more than 64 bits.
    #[error("not a list of hexadecimal numbers")]
    Number = 1,
    /// There is no memory.
    #[error("out of memory")]
    Memory = 2,
}

impl<T: Drop> From<AllocFailed<T>> for CodePointsError {
    ghost use Rattle.std.specs.Prelude.{◌≡◌};
    ghost use Rattle.shape_options.specs.declared.code_points.CodePointsError.TheVariants.{Memory};

    ghost from_gives = { λ _ e. e ≡ Memory };

    fn from(_error: AllocFailed<T>) -> CodePointsError {
        CodePointsError::Memory
    }
}

/// What was read of a number.
#[derive(Clone, Copy, PartialEq, Eq)]
enum Reading {
    /// Nothing: the next byte may begin a number.
    Between,
    /// `0` alone.
    Zero,
    /// `0x`.
    ZeroX,
    /// Digits that make this number.
    Number(u64),
}

/// What parts numbers.
const DELIMITERS: &[u8] = b"<+-|>{},;&#xXuUnNiI \t\n\x0b\x0c\r\\";

/// The numbers in a text, in hexadecimal digits, modulo 2^32, as HarfBuzz's `hb-shape --unicodes` reads them. Spaces,
/// commas, the letters of `U+`, `\u`, `&#x`, `uni` and the like part them, and `0x` before a number belongs to it.
///
/// `Err(CodePointsError::Number)` where a byte is neither a digit nor one of those, or where a number has more than 64
/// bits.
pub fn code_points(alloc: Global, text: &str) -> Result<Vec<u32>, CodePointsError>
    ensures numbers { IfOk result (λ numbers. numbers_in text.now ≡ Some numbers.items) }
    ensures refused { IsErrOf result CodePointsError.Number → numbers_in text.now ≡ None }
{
    let mut numbers = Vec::new(alloc);
    let mut reading = Reading::Between;
    let mut rest = text.as_bytes();
    while let Some((byte, others)) = rest.split_first() {
        let (number, next) = step(reading, *byte).ok_or(CodePointsError::Number)?;
        push_number(&mut numbers, number)?;
        reading = next;
        rest = others;
    }
    push_number(&mut numbers, ended(reading))?;
    Ok(numbers)
}

/// Adds the number that ended, if one did.
fn push_number(numbers: &mut Vec<u32>, number: Option<u32>) -> Result<(), CodePointsError>
    ensures ok { OnOk result (numbers.new.items ≡ numbers.old.items ++ option_to_list number) }
    ensures err { IfErr result (λ e. e ≡ CodePointsError.Memory) }
{
    if let Some(number) = number {
        numbers.push(number)?;
    }
    Ok(())
}

/// What a byte makes of a reading, and the number that it ends. `None` where it may not stand there.
#[tactic(auto, unfolding(crate::specs::CodePoints::step))]
fn step(reading: Reading, byte: u8) -> Option<(Option<u32>, Reading)>
    ensures { result ≡ step reading byte }
{
    if let Some(digit) = digit_value(byte) {
        return Some((None, with_digit(reading, digit)?));
    }
    if matches!(reading, Reading::Zero) && (byte == b'x' || byte == b'X') {
        return Some((None, Reading::ZeroX));
    }
    if DELIMITERS.contains(&byte) {
        return Some((ended(reading), Reading::Between));
    }
    None
}

/// The reading after one more digit.
fn with_digit(reading: Reading, digit: u32) -> Option<Reading>
    requires { digit < 16 }
    ensures { result ≡ with_digit reading digit }
{
    match reading {
        Reading::Between if digit == 0 => Some(Reading::Zero),
        Reading::Between | Reading::Zero | Reading::ZeroX => Some(Reading::Number(u64::from(
            digit,
        ))),
        Reading::Number(number) => {
            let number = number.checked_mul(16)?.checked_add(u64::from(digit))?;
            Some(Reading::Number(number))
        }
    }
}

/// The number that ends here, if one does.
fn ended(reading: Reading) -> Option<u32>
    ensures { result ≡ ended reading }
{
    match reading {
        Reading::Between => None,
        Reading::Zero | Reading::ZeroX => Some(0),
        Reading::Number(number) => Some((number % 0x1_0000_0000) as u32),
    }
}

/// The value of a hexadecimal digit.
fn digit_value(byte: u8) -> Option<u32>
    ensures { result ≡ hexadecimal_digit byte }
{
    char::from(byte).to_digit(16)
}

/// The text of these characters. A number that is no character is as many replacement characters as its UTF-8 form
/// would have bytes, as in HarfBuzz.
pub fn text_of_code_points(alloc: Global, numbers: &[u32]) -> Result<String, AllocError>
    ensures { IfOk result (λ text. string_bytes text ≡ code_points_text numbers.now) }
{
    let mut text = String::new(alloc);
    for number in numbers {
        push_code_point(&mut text, *number)?;
    }
    Ok(text)
}

fn push_code_point(text: &mut String, number: u32) -> Result<(), AllocError>
    ensures { OnOk result (string_bytes text.new ≡ string_bytes text.old ++ code_point_text number) }
{
    match char::from_u32(number) {
        Some(character) => text.push(character),
        None => text.push_str(replacements(number)),
    }
}

/// As many replacement characters as a number that is no character would have bytes in UTF-8.
fn replacements(number: u32) -> &'static str
    ensures { result.now ≡ flat_map (λ c. c) (replicate (encoded_len number) replacement) }
{
    match number {
        0..=0xFFFF => "\u{FFFD}\u{FFFD}\u{FFFD}",
        0x1_0000..=0x1F_FFFF => "\u{FFFD}\u{FFFD}\u{FFFD}\u{FFFD}",
        0x20_0000..=0x3FF_FFFF => "\u{FFFD}\u{FFFD}\u{FFFD}\u{FFFD}\u{FFFD}",
        _ => "\u{FFFD}\u{FFFD}\u{FFFD}\u{FFFD}\u{FFFD}\u{FFFD}",
    }
}
