//! Bytes that may be a text in UTF-8.

ghost use Rattle.std.specs.Prelude.{◌≡◌, ◌++◌, IfOk, MatchResult, OnOk};
ghost use Rattle.std.specs.Str.{IsValidUpTo};
ghost use Rattle.wat_report.specs.WrongBytes.{IsFirstWrongByte, IsWrongByte, begins_with_utf16_mark, hex_text, last_line, utf16_words, wrong_byte_text};

use crate::caret::add_open;
use crate::diagnostic::Diagnostic;
use crate::kind::Kind;
use crate::lines::{line_start, position_of_char};
use crate::write::add;
use std::alloc::{AllocError, Global};
use wat_lexer::string::hex_digit;
use wat_tokens::Fault;

/// Adds a byte as two hexadecimal digits.
pub(crate) fn add_hex(out: &mut Vec<u8>, byte: u8) -> Result<(), AllocError>
    ensures { OnOk result (out.new.items ≡ out.old.items ++ hex_text byte) }
{
    out.push(hex_digit(byte / 16))?;
    out.push(hex_digit(byte % 16))?;
    Ok(())
}

/// Returns whether the bytes begin with the byte order mark of UTF-16.
fn begins_with_utf16_mark(bytes: &[u8]) -> bool
    ensures { result ≡ begins_with_utf16_mark bytes.now }
{
    bytes.len() >= 2
        && (bytes[0] == 0xff && bytes[1] == 0xfe || bytes[0] == 0xfe && bytes[1] == 0xff)
}

/// Returns the message for a wrong byte.
fn message_of(alloc: Global, byte: u8) -> Result<Vec<u8>, AllocError>
    ensures { IfOk result (λ said. said.items ≡ wrong_byte_text byte) }
{
    let mut message = Vec::new(alloc);
    add(&mut message, "this isn't valid UTF-8: the byte 0x")?;
    add_hex(&mut message, byte)?;
    Ok(message)
}

/// Returns the last line of the text, up to a wrong byte after it, and below it the caret.
fn shown_of(alloc: Global, front: &str) -> Result<Vec<u8>, AllocError>
    ensures { IfOk result (λ said. said.items ≡ last_line front.now) }
{
    let mut shown = Vec::new(alloc);
    add_open(&mut shown, front, line_start(front, front.len()))?;
    Ok(shown)
}

/// Returns the words of the hint for bytes that begin with the byte order mark of UTF-16, and no
/// words for other bytes.
fn hint_of(alloc: Global, bytes: &[u8]) -> Result<Vec<u8>, AllocError>
    ensures { IfOk result (λ said. said.items ≡ utf16_words bytes.now) }
{
    let mut hint = Vec::new(alloc);
    if begins_with_utf16_mark(bytes) {
        add(&mut hint, "this may be UTF-16; the text must be UTF-8")?;
    }
    Ok(hint)
}

/// Returns the diagnostic of a wrong byte after the front of the bytes.
fn wrong_byte(alloc: Global, bytes: &[u8], front: &str, byte: u8) -> Result<Diagnostic, AllocError>
    ensures { IfOk result (λ d. IsWrongByte bytes.now front.now byte d) }
{
    Ok(Diagnostic {
        offset: front.len(),
        length: 1,
        place: position_of_char(front, front.len()),
        kind: Kind::Parse(Fault::Utf8),
        message: message_of(alloc, byte)?,
        shown: shown_of(alloc, front)?,
        hint: hint_of(alloc, bytes)?,
        expected: Vec::new(alloc),
    })
}

/// Returns the diagnostic of the first wrong byte, which is after `valid` bytes.
fn first_wrong_byte(alloc: Global, bytes: &[u8], valid: usize) -> Result<Diagnostic, AllocError>
    requires { IsValidUpTo bytes.now valid }
    ensures { IfOk result (λ d. IsFirstWrongByte bytes.now d) }
{
    let front = str::from_utf8(&bytes[..valid]).unwrap();
    wrong_byte(alloc, bytes, front, bytes[valid])
}

/// Returns the bytes as a text, or the diagnostic of the first byte that isn't valid UTF-8.
///
/// The kind of that diagnostic is Utf8, and its line is shown up to the byte, with `..` for the
/// rest. The outer error is AllocError if memory runs out.
pub fn text_or_diagnostic<'a>(
    alloc: Global,
    bytes: &'a [u8],
) -> Result<Result<&'a str, Diagnostic>, AllocError>
    ensures { IfOk result (λ found. MatchResult found (λ text. text.now ≡ bytes.now)
        (λ d. IsFirstWrongByte bytes.now d)) }
{
    match str::from_utf8(bytes) {
        Ok(text) => Ok(Ok(text)),
        Err(error) => Ok(Err(first_wrong_byte(alloc, bytes, error.valid_up_to())?)),
    }
}
