//! Bytes that are spelled by letters and escapes.
ghost use Rattle.std.specs.Prelude.{◌<◌, IfSome};

use crate::block::Text;
use std::alloc::{AllocError, Global};

/// What is before the next letter.
#[derive(Clone, Copy)]
enum Before {
    Nothing,
    Backslash,
    /// A backslash and `x`.
    Hex,
    /// They and the first of two digits, times 16.
    HexDigit(u8),
}

/// Returns the value of a hexadecimal digit.
fn hex(letter: u8) -> Option<u8>
    ensures { IfSome result (λ value. value < 16) }
{
    match letter {
        b'0'..=b'9' => Some(letter - b'0'),
        b'a'..=b'f' => Some(letter - b'a' + 10),
        b'A'..=b'F' => Some(letter - b'A' + 10),
        _ => None,
    }
}

/// Appends the byte of an escape to the text, and answers whether there is such an escape.
fn push_escaped(text: &mut Vec<u8>, letter: u8, number: u32) -> Result<bool, AllocError> {
    match letter {
        b'n' => text.push(b'\n')?,
        b'r' => text.push(b'\r')?,
        b't' => text.push(b'\t')?,
        b'\\' => text.push(b'\\')?,
        b'i' => {
            let shown = number.to_string(*text.allocator())?;
            text.extend_from_slice(shown.as_bytes())?;
        }
        _ => return Ok(false),
    }
    Ok(true)
}

/// Appends to the text what these letters spell, and answers whether they spell something.
fn spell(text: &mut Vec<u8>, letters: &str, number: u32) -> Result<bool, AllocError> {
    let mut before = Before::Nothing;
    for letter in letters.as_bytes() {
        before = match before {
            Before::Nothing if *letter == b'\\' => Before::Backslash,
            Before::Nothing => {
                text.push(*letter)?;
                Before::Nothing
            }
            Before::Backslash if *letter == b'x' => Before::Hex,
            Before::Backslash => {
                if !push_escaped(text, *letter, number)? {
                    return Ok(false);
                }
                Before::Nothing
            }
            Before::Hex => match hex(*letter) {
                Some(value) => Before::HexDigit(value * 16),
                None => return Ok(false),
            },
            Before::HexDigit(high) => match hex(*letter) {
                Some(value) => {
                    text.push(high | value)?;
                    Before::Nothing
                }
                None => return Ok(false),
            },
        };
    }
    Ok(matches!(before, Before::Nothing))
}

/// Returns how often a line is to be spelled, and its letters.
fn times(line: &str) -> (u32, &str) {
    if let Some((count, letters)) = line.split_once(" * ") {
        if let Ok(count) = count.parse::<u32>() {
            return (count, letters);
        }
    }
    (1, line)
}

/// Appends to the text what a line spells, and answers whether it spells something.
fn spell_line(text: &mut Vec<u8>, line: &str) -> Result<bool, AllocError> {
    let (count, letters) = times(line);
    for number in 0..count {
        if !spell(text, letters, number)? {
            return Ok(false);
        }
    }
    Ok(true)
}

/// Returns what the lines spell, without their ends.
pub fn spell_lines(alloc: Global, lines: &str) -> Result<Text, AllocError> {
    let mut text = Vec::new(alloc);
    for line in lines.lines() {
        if !spell_line(&mut text, line)? {
            return Ok(Text::Wrong("no such escape"));
        }
    }
    Ok(Text::Given(text))
}
