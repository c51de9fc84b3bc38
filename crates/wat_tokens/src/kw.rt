//! Keywords, each as a type that keeps the keyword's position. A type has the name of its keyword.

ghost use Rattle.std.specs.Prelude.{◌≡◌, codes};
ghost use Rattle.wat_tokens.specs.Prelude.{word, offset_of, at_word, plain};

use crate::cursor::Cursor;
use crate::parser::Parser;
use crate::traits::{Parse, Peek};
use wat_lexer::fault::Error;
use wat_lexer::span::Span;

/// The keyword `func` (Text Format, "Functions"), with the offset in bytes at which it begins.
#[derive(Clone, Copy, Debug)]
pub struct func(pub Span);

/// The keyword at offset 0.
impl Default for func {
    ghost is_default = { λ w. offset_of w.0 ≡ 0 };

    fn default() -> Self {
        func(Span::from_offset(0))
    }
}

/// Returns Unexpected if the next token isn't the keyword `func`.
impl<'a> Parse<'a> for func {
    ghost View = { Unit {0} };

    ghost view = { plain (λ _. tt) };

    ghost grammar = { word (codes "func") };

    fn parse(parser: &mut Parser<'a>) -> Result<Self, Error> {
        Ok(func(parser.keyword("func")?))
    }
}

impl Peek for func {
    ghost begins = { at_word (codes "func") };

    fn peek(cursor: Cursor<'_>) -> bool {
        cursor.keyword_is("func")
    }

    fn display() -> &'static str {
        "func"
    }
}

/// The keyword `table` (Text Format, "Tables"), with the offset in bytes at which it begins.
#[derive(Clone, Copy, Debug)]
pub struct table(pub Span);

/// The keyword at offset 0.
impl Default for table {
    ghost is_default = { λ w. offset_of w.0 ≡ 0 };

    fn default() -> Self {
        table(Span::from_offset(0))
    }
}

/// Returns Unexpected if the next token isn't the keyword `table`.
impl<'a> Parse<'a> for table {
    ghost View = { Unit {0} };

    ghost view = { plain (λ _. tt) };

    ghost grammar = { word (codes "table") };

    fn parse(parser: &mut Parser<'a>) -> Result<Self, Error> {
        Ok(table(parser.keyword("table")?))
    }
}

impl Peek for table {
    ghost begins = { at_word (codes "table") };

    fn peek(cursor: Cursor<'_>) -> bool {
        cursor.keyword_is("table")
    }

    fn display() -> &'static str {
        "table"
    }
}

/// The keyword `memory` (Text Format, "Memories"), with the offset in bytes at which it begins.
#[derive(Clone, Copy, Debug)]
pub struct memory(pub Span);

/// The keyword at offset 0.
impl Default for memory {
    ghost is_default = { λ w. offset_of w.0 ≡ 0 };

    fn default() -> Self {
        memory(Span::from_offset(0))
    }
}

/// Returns Unexpected if the next token isn't the keyword `memory`.
impl<'a> Parse<'a> for memory {
    ghost View = { Unit {0} };

    ghost view = { plain (λ _. tt) };

    ghost grammar = { word (codes "memory") };

    fn parse(parser: &mut Parser<'a>) -> Result<Self, Error> {
        Ok(memory(parser.keyword("memory")?))
    }
}

impl Peek for memory {
    ghost begins = { at_word (codes "memory") };

    fn peek(cursor: Cursor<'_>) -> bool {
        cursor.keyword_is("memory")
    }

    fn display() -> &'static str {
        "memory"
    }
}

/// The keyword `global` (Text Format, "Globals"), with the offset in bytes at which it begins.
#[derive(Clone, Copy, Debug)]
pub struct global(pub Span);

/// The keyword at offset 0.
impl Default for global {
    ghost is_default = { λ w. offset_of w.0 ≡ 0 };

    fn default() -> Self {
        global(Span::from_offset(0))
    }
}

/// Returns Unexpected if the next token isn't the keyword `global`.
impl<'a> Parse<'a> for global {
    ghost View = { Unit {0} };

    ghost view = { plain (λ _. tt) };

    ghost grammar = { word (codes "global") };

    fn parse(parser: &mut Parser<'a>) -> Result<Self, Error> {
        Ok(global(parser.keyword("global")?))
    }
}

impl Peek for global {
    ghost begins = { at_word (codes "global") };

    fn peek(cursor: Cursor<'_>) -> bool {
        cursor.keyword_is("global")
    }

    fn display() -> &'static str {
        "global"
    }
}

/// The keyword `tag` (Text Format, "Tags"), with the offset in bytes at which it begins.
#[derive(Clone, Copy, Debug)]
pub struct tag(pub Span);

/// The keyword at offset 0.
impl Default for tag {
    ghost is_default = { λ w. offset_of w.0 ≡ 0 };

    fn default() -> Self {
        tag(Span::from_offset(0))
    }
}

/// Returns Unexpected if the next token isn't the keyword `tag`.
impl<'a> Parse<'a> for tag {
    ghost View = { Unit {0} };

    ghost view = { plain (λ _. tt) };

    ghost grammar = { word (codes "tag") };

    fn parse(parser: &mut Parser<'a>) -> Result<Self, Error> {
        Ok(tag(parser.keyword("tag")?))
    }
}

impl Peek for tag {
    ghost begins = { at_word (codes "tag") };

    fn peek(cursor: Cursor<'_>) -> bool {
        cursor.keyword_is("tag")
    }

    fn display() -> &'static str {
        "tag"
    }
}
