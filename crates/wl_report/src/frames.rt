//! The line of a frame.
ghost use Rattle.std.specs.Prelude.{◌≡◌, ◌<◌, ◌∷◌, ◌++◌, [], OnOk, false, codes};
ghost use Rattle.std.specs.List.{flat_map};
ghost use Rattle.std.specs.Fmt.{decimal, digit_glyph};
ghost use Rattle.wl_report.specs.Lines.{GrowsBy, bytes_word, hexadecimal, kind_word, way_word};
ghost use Rattle.wl_report.specs.Report.{content_text, frame_line, id_digits};

use itoa::Buffer;
use std::alloc::AllocError;
use wl_frame::frame::Frame;
use wl_node::Passed;

/// Returns whether a node sent a frame or received it.
fn way_word(sent: bool) -> &'static str
    ensures { result.now ≡ way_word sent }
{
    if sent { "sent" } else { "received" }
}

/// Returns whether a frame is a remote frame or a data frame.
fn kind_word(remote: bool) -> &'static str
    ensures { result.now ≡ kind_word remote }
{
    if remote { "remote" } else { "data" }
}

/// Returns the character of a hexadecimal digit, a lower-case letter from ten on.
fn digit_char(digit: u8) -> char
    requires { digit < 16 }
    ensures { result ≡ digit_glyph false digit }
{
    let from = if digit < 10 { b'0' } else { b'a' - 10 };
    (from + digit) as char
}

/// Adds a lower-case hexadecimal digit.
fn push_digit(text: &mut String, digit: u8) -> Result<(), AllocError>
    requires { digit < 16 }
    ensures { OnOk result (GrowsBy text.old text.new (digit_glyph false digit ∷ [])) }
{
    text.push(digit_char(digit))
}

/// Adds a byte as two lower-case hexadecimal digits.
fn push_byte(text: &mut String, byte: u8) -> Result<(), AllocError>
    ensures { OnOk result (GrowsBy text.old text.new (hexadecimal 2 byte)) }
{
    push_digit(text, byte / 16)?;
    push_digit(text, byte % 16)
}

/// Adds bytes as two lower-case hexadecimal digits each.
fn push_each_byte(text: &mut String, bytes: &[u8]) -> Result<(), AllocError>
    ensures { OnOk result (GrowsBy text.old text.new (flat_map (hexadecimal 2) bytes.now)) }
{
    for byte in bytes {
        push_byte(text, *byte)?;
    }
    Ok(())
}

/// Adds the word of a frame's bytes.
fn push_bytes(text: &mut String, bytes: &[u8]) -> Result<(), AllocError>
    ensures { OnOk result (GrowsBy text.old text.new (bytes_word bytes.now)) }
{
    if bytes.is_empty() {
        text.push_str("-")
    } else {
        push_each_byte(text, bytes)
    }
}

/// Adds four lower-case hexadecimal digits.
#[tactic(auto, using(crate::proofs::Hexadecimal::four_digits))]
fn push_four(text: &mut String, number: u32) -> Result<(), AllocError>
    requires { number < 65536 }
    ensures { OnOk result (GrowsBy text.old text.new (hexadecimal 4 number)) }
{
    push_byte(text, (number / 256) as u8)?;
    push_byte(text, (number % 256) as u8)
}

/// Adds eight lower-case hexadecimal digits.
fn push_eight(text: &mut String, number: u32) -> Result<(), AllocError>
    ensures { OnOk result (GrowsBy text.old text.new (hexadecimal 8 number)) }
{
    push_four(text, number / 65_536)?;
    push_four(text, number % 65_536)
}

/// Adds three lower-case hexadecimal digits.
#[tactic(auto, using(crate::proofs::Hexadecimal::three_digits))]
fn push_three(text: &mut String, number: u32) -> Result<(), AllocError>
    requires { number < 4096 }
    ensures { OnOk result (GrowsBy text.old text.new (hexadecimal 3 number)) }
{
    push_digit(text, (number / 256) as u8)?;
    push_byte(text, (number % 256) as u8)
}

/// Adds an identifier: 3 lower-case hexadecimal digits, or 8 of an extended frame.
pub fn push_id(text: &mut String, frame: &Frame) -> Result<(), AllocError>
    ensures { OnOk result (GrowsBy text.old text.new (hexadecimal (id_digits frame.now.extended) frame.now.id)) }
{
    let id = frame.id();
    if frame.is_extended() {
        push_eight(text, id)
    } else {
        push_three(text, id)
    }
}

/// Adds a number in decimal digits.
#[tactic(auto, using(std::proofs::lemmas::Fmt::decimal_digit))]
fn push_number(text: &mut String, number: u64) -> Result<(), AllocError>
    ensures { OnOk result (GrowsBy text.old text.new (decimal number)) }
{
    if number < 10 {
        text.push((b'0' + number as u8) as char)
    } else {
        text.push_str(Buffer::new().format(number))
    }
}

/// Adds a number in decimal digits and a space.
fn push_field(text: &mut String, number: u64) -> Result<(), AllocError>
    ensures { OnOk result (GrowsBy text.old text.new (decimal number ++ codes " ")) }
{
    push_number(text, number)?;
    text.push(' ')
}

/// Adds a word and a space.
fn push_word(text: &mut String, word: &str) -> Result<(), AllocError>
    ensures { OnOk result (GrowsBy text.old text.new (word.now ++ codes " ")) }
{
    text.push_str(word)?;
    text.push(' ')
}

/// Adds what a frame carries: its identifier in lower-case hexadecimal digits, 3 or 8 of an extended frame, `data` or `remote`, its data
/// length code, and its bytes in two digits each or a dash. Refused out of memory alone.
pub fn push_content(text: &mut String, frame: &Frame) -> Result<(), AllocError>
    ensures { OnOk result (GrowsBy text.old text.new (content_text frame.now)) }
{
    let kind = kind_word(frame.remote());
    let dlc = frame.dlc();
    push_id(text, frame)?;
    text.push(' ')?;
    push_word(text, kind)?;
    push_field(text, u64::from(dlc))?;
    push_bytes(text, frame.bytes())
}

/// Adds the line of a frame that passed through a node.
pub(crate) fn push_frame(text: &mut String, node: usize, passed: &Passed) -> Result<(), AllocError>
    ensures { OnOk result (GrowsBy text.old text.new (frame_line node passed.now)) }
{
    text.push_str("frame ")?;
    push_field(text, node as u64)?;
    push_word(text, way_word(passed.sent))?;
    push_field(text, passed.quantum)?;
    push_content(text, &passed.frame)?;
    text.push_str("\n")
}
