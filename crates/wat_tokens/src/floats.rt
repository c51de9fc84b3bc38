//! Floating-point literals, which this parser doesn't read.

ghost use Rattle.std.specs.Prelude.{◌≢◌, ℕ};
ghost use Rattle.wat_tokens.specs.Prelude.{Memory, none, plain};

use crate::cursor::Cursor;
use crate::parser::Parser;
use crate::traits::Parse;
use wat_lexer::fault::{Error, Fault};

/// A floating-point number of 32 bits (Text Format, "Floating-Point"), by its bits. No parse
/// returns an `F32`.
#[derive(Clone, Copy, Debug)]
pub struct F32 {
    /// The bits.
    pub bits: u32,
}

/// A floating-point number of 64 bits (Text Format, "Floating-Point"), by its bits. No parse
/// returns an `F64`.
#[derive(Clone, Copy, Debug)]
pub struct F64 {
    /// The bits.
    pub bits: u64,
}

/// Returns whether the next token can be a number literal: an integer, a keyword or a reserved
/// token.
fn may_be_literal(cursor: Cursor<'_>) -> bool {
    let other = cursor.lparen().is_some()
        || cursor.rparen().is_some()
        || cursor.id().is_some()
        || cursor.annotation().is_some()
        || cursor.string().is_some();
    !other && cursor.any().is_some()
}

/// Returns the error of a missing literal, at the next token or at the end of the text:
/// FloatLiteral if the token can be a number literal, else Unexpected.
fn refused(parser: &Parser<'_>) -> Error
    ensures { result.fault ≢ Memory }
{
    if may_be_literal(parser.cursor()) {
        Error::at(Fault::FloatLiteral, parser.cur_span())
    } else {
        parser.unexpected()
    }
}

/// Always fails. The error is FloatLiteral if the next token is an integer, a keyword or a reserved
/// token, else Unexpected. Its offset is that of the next token, or of the end of the text.
impl<'a> Parse<'a> for F32 {
    ghost View = { ℕ };

    ghost view = { plain (λ x. x.bits) };

    ghost grammar = { none };

    fn parse(parser: &mut Parser<'a>) -> Result<F32, Error> {
        Err(refused(parser))
    }
}

/// Always fails, as the parse of [`F32`] does.
impl<'a> Parse<'a> for F64 {
    ghost View = { ℕ };

    ghost view = { plain (λ x. x.bits) };

    ghost grammar = { none };

    fn parse(parser: &mut Parser<'a>) -> Result<F64, Error> {
        Err(refused(parser))
    }
}
