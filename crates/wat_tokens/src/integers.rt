//! Integers of any value, and numbers of 8, 16, 32 and 64 bits (Text Format, "Integers").

ghost use Rattle.std.specs.Prelude.{List, ℕ, ℤ, IsTrue};
ghost use Rattle.wat_tokens.specs.Prelude.{integer, unsigned, signed, Reads, at_integer, plain};
ghost use Rattle.wat_lexer.specs.Integer.{text_of};
ghost use Rattle.wat_lexer.specs.Number.{is_width};

use crate::cursor::Cursor;
use crate::parser::Parser;
use crate::traits::{Parse, Peek};
use wat_lexer::fault::{Error, Fault};
use wat_lexer::number::Integer;

/// An integer of any value, as written in the text (Text Format, "Integers"). Returns Unexpected if
/// the next token isn't an integer.
impl<'a> Parse<'a> for Integer<'a> {
    ghost View = { List ℕ };

    ghost view = { plain text_of };

    ghost grammar = { integer };

    fn parse(parser: &mut Parser<'a>) -> Result<Self, Error> {
        parser.take_integer()
    }
}

/// Takes an integer and returns its value as an unsigned number of `bits` bits. Returns Unexpected
/// if the next token isn't an integer, and Range, at the integer, if its value is too large or it
/// has a `-`.
fn unsigned(parser: &mut Parser<'_>, bits: u32) -> Result<u64, Error>
    requires { IsTrue (is_width bits) }
    ensures reads { Reads (plain (λ n. n)) (unsigned bits) result parser.old parser.new }
{
    let integer = parser.take_integer()?;
    match integer.unsigned(bits) {
        Some(number) => Ok(number),
        None => Err(Error::at(Fault::Range, parser.prev_span())),
    }
}

/// An unsigned number of 8 bits (Text Format, "Integers", `u8`).
///
/// Returns Unexpected if the next token isn't an integer, and Range, at the integer, if it has a
/// `-` or is 2^8 or more.
impl<'a> Parse<'a> for u8 {
    ghost View = { ℕ };

    ghost view = { plain (λ n. n) };

    ghost grammar = { unsigned 8 };

    fn parse(parser: &mut Parser<'a>) -> Result<Self, Error> {
        Ok(unsigned(parser, 8)? as u8)
    }
}

/// Any integer, also an integer that is out of range.
impl Peek for u8 {
    ghost begins = { at_integer };

    fn peek(cursor: Cursor<'_>) -> bool {
        cursor.integer().is_some()
    }

    fn display() -> &'static str {
        "integer"
    }
}

/// An unsigned number of 16 bits (Text Format, "Integers", `u16`).
///
/// Returns Unexpected if the next token isn't an integer, and Range, at the integer, if it has a
/// `-` or is 2^16 or more.
impl<'a> Parse<'a> for u16 {
    ghost View = { ℕ };

    ghost view = { plain (λ n. n) };

    ghost grammar = { unsigned 16 };

    fn parse(parser: &mut Parser<'a>) -> Result<Self, Error> {
        Ok(unsigned(parser, 16)? as u16)
    }
}

/// Any integer, also an integer that is out of range.
impl Peek for u16 {
    ghost begins = { at_integer };

    fn peek(cursor: Cursor<'_>) -> bool {
        cursor.integer().is_some()
    }

    fn display() -> &'static str {
        "integer"
    }
}

/// An unsigned number of 32 bits (Text Format, "Integers", `u32`).
///
/// Returns Unexpected if the next token isn't an integer, and Range, at the integer, if it has a
/// `-` or is 2^32 or more.
impl<'a> Parse<'a> for u32 {
    ghost View = { ℕ };

    ghost view = { plain (λ n. n) };

    ghost grammar = { unsigned 32 };

    fn parse(parser: &mut Parser<'a>) -> Result<Self, Error> {
        Ok(unsigned(parser, 32)? as u32)
    }
}

/// Any integer, also an integer that is out of range.
impl Peek for u32 {
    ghost begins = { at_integer };

    fn peek(cursor: Cursor<'_>) -> bool {
        cursor.integer().is_some()
    }

    fn display() -> &'static str {
        "integer"
    }
}

/// An unsigned number of 64 bits (Text Format, "Integers", `u64`).
///
/// Returns Unexpected if the next token isn't an integer, and Range, at the integer, if it has a
/// `-` or is 2^64 or more.
impl<'a> Parse<'a> for u64 {
    ghost View = { ℕ };

    ghost view = { plain (λ n. n) };

    ghost grammar = { unsigned 64 };

    fn parse(parser: &mut Parser<'a>) -> Result<Self, Error> {
        unsigned(parser, 64)
    }
}

/// Any integer, also an integer that is out of range.
impl Peek for u64 {
    ghost begins = { at_integer };

    fn peek(cursor: Cursor<'_>) -> bool {
        cursor.integer().is_some()
    }

    fn display() -> &'static str {
        "integer"
    }
}

/// Takes an integer and returns its value as a signed number of `bits` bits. Returns Unexpected if
/// the next token isn't an integer, and Range, at the integer, if its value is out of range.
fn signed(parser: &mut Parser<'_>, bits: u32) -> Result<i64, Error>
    requires { IsTrue (is_width bits) }
    ensures reads { Reads (plain (λ n. n)) (signed bits) result parser.old parser.new }
{
    let integer = parser.take_integer()?;
    match integer.signed(bits) {
        Some(number) => Ok(number),
        None => Err(Error::at(Fault::Range, parser.prev_span())),
    }
}

/// A signed number of 8 bits (Text Format, "Integers", `i8`). A literal without a `-` may be up to
/// 2^8 - 1: from 2^7 on, it is the negative number with the same bits.
///
/// Returns Unexpected if the next token isn't an integer, and Range, at the integer, if it is 2^8
/// or more, or below -2^7.
impl<'a> Parse<'a> for i8 {
    ghost View = { ℤ };

    ghost view = { plain (λ n. n) };

    ghost grammar = { signed 8 };

    fn parse(parser: &mut Parser<'a>) -> Result<Self, Error> {
        Ok(signed(parser, 8)? as i8)
    }
}

/// Any integer, also an integer that is out of range.
impl Peek for i8 {
    ghost begins = { at_integer };

    fn peek(cursor: Cursor<'_>) -> bool {
        cursor.integer().is_some()
    }

    fn display() -> &'static str {
        "integer"
    }
}

/// A signed number of 16 bits (Text Format, "Integers", `i16`). A literal without a `-` may be up
/// to 2^16 - 1: from 2^15 on, it is the negative number with the same bits.
///
/// Returns Unexpected if the next token isn't an integer, and Range, at the integer, if it is 2^16
/// or more, or below -2^15.
impl<'a> Parse<'a> for i16 {
    ghost View = { ℤ };

    ghost view = { plain (λ n. n) };

    ghost grammar = { signed 16 };

    fn parse(parser: &mut Parser<'a>) -> Result<Self, Error> {
        Ok(signed(parser, 16)? as i16)
    }
}

/// Any integer, also an integer that is out of range.
impl Peek for i16 {
    ghost begins = { at_integer };

    fn peek(cursor: Cursor<'_>) -> bool {
        cursor.integer().is_some()
    }

    fn display() -> &'static str {
        "integer"
    }
}

/// A signed number of 32 bits (Text Format, "Integers", `i32`). A literal without a `-` may be up
/// to 2^32 - 1: from 2^31 on, it is the negative number with the same bits.
///
/// Returns Unexpected if the next token isn't an integer, and Range, at the integer, if it is 2^32
/// or more, or below -2^31.
impl<'a> Parse<'a> for i32 {
    ghost View = { ℤ };

    ghost view = { plain (λ n. n) };

    ghost grammar = { signed 32 };

    fn parse(parser: &mut Parser<'a>) -> Result<Self, Error> {
        Ok(signed(parser, 32)? as i32)
    }
}

/// Any integer, also an integer that is out of range.
impl Peek for i32 {
    ghost begins = { at_integer };

    fn peek(cursor: Cursor<'_>) -> bool {
        cursor.integer().is_some()
    }

    fn display() -> &'static str {
        "integer"
    }
}

/// A signed number of 64 bits (Text Format, "Integers", `i64`). A literal without a `-` may be up
/// to 2^64 - 1: from 2^63 on, it is the negative number with the same bits.
///
/// Returns Unexpected if the next token isn't an integer, and Range, at the integer, if it is 2^64
/// or more, or below -2^63.
impl<'a> Parse<'a> for i64 {
    ghost View = { ℤ };

    ghost view = { plain (λ n. n) };

    ghost grammar = { signed 64 };

    fn parse(parser: &mut Parser<'a>) -> Result<Self, Error> {
        signed(parser, 64)
    }
}

/// Any integer, also an integer that is out of range.
impl Peek for i64 {
    ghost begins = { at_integer };

    fn peek(cursor: Cursor<'_>) -> bool {
        cursor.integer().is_some()
    }

    fn display() -> &'static str {
        "integer"
    }
}
