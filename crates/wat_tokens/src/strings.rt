//! Strings of bytes, and strings of UTF-8 (Text Format, "Strings" and "Names").

ghost use Rattle.std.specs.Prelude.{◌≡◌, List, ℕ};
ghost use Rattle.wat_tokens.specs.Prelude.{in_front, string, text, plain};
ghost use Rattle.wat_tokens.specs.Test.{at_string};
ghost use Rattle.wat_tokens.specs.Tests.{begins_string};

use crate::cursor::Cursor;
use crate::parser::Parser;
use crate::traits::{Parse, Peek};
use wat_lexer::fault::{Error, Fault};

/// A string, as its decoded bytes (Text Format, "Strings"). Returns Unexpected if the next token
/// isn't a string.
impl<'a> Parse<'a> for &'a [u8] {
    ghost View = { List ℕ };

    ghost view = { plain (λ s. s.now) };

    ghost grammar = { string };

    fn parse(parser: &mut Parser<'a>) -> Result<Self, Error> {
        parser.take_string()
    }
}

/// Any string.
impl<'p> Peek for &'p [u8] {
    ghost begins = { at_string };

    fn peek(cursor: Cursor<'_>) -> bool
        ensures { result ≡ begins_string (in_front cursor.entry) }
    {
        cursor.string().is_some()
    }

    fn display() -> &'static str {
        "string"
    }
}

/// A string whose decoded bytes are UTF-8 (Text Format, "Names"). Returns Unexpected if the next
/// token isn't a string, and Utf8, at the string, if the decoded bytes aren't UTF-8.
impl<'a> Parse<'a> for &'a str {
    ghost View = { List ℕ };

    ghost view = { plain (λ s. s.now) };

    ghost grammar = { text };

    #[tactic(auto, using(crate::proofs::Texts::is_text, wat_lexer::specs::Laws::Bytes::not_utf8))]
    fn parse(parser: &mut Parser<'a>) -> Result<Self, Error> {
        let bytes = parser.take_string()?;
        match str::from_utf8(bytes) {
            Ok(text) => Ok(text),
            Err(_) => Err(Error::at(Fault::Utf8, parser.prev_span())),
        }
    }
}

/// Any string, also a string that isn't UTF-8.
impl<'p> Peek for &'p str {
    ghost begins = { at_string };

    fn peek(cursor: Cursor<'_>) -> bool
        ensures { result ≡ begins_string (in_front cursor.entry) }
    {
        cursor.string().is_some()
    }

    fn display() -> &'static str {
        "string"
    }
}
