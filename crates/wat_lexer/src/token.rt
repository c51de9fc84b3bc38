//! Tokens.

use crate::number::Integer;

/// A token of a text (WebAssembly Core Specification, Text Format, Lexical Format, Tokens). Names
/// and strings without escapes are slices of the text. Names and strings with escapes are decoded,
/// and are slices of the arena.
#[derive(Clone, Copy, Debug)]
pub enum Token<'a> {
    /// `(`
    LParen,
    /// `)`
    RParen,
    /// A keyword: a word that begins with a lowercase letter.
    Keyword(&'a str),
    /// The name of an identifier, without the `$`. A name that is written as a string is decoded.
    Id(&'a str),
    /// The name of an annotation, without the `@`, directly after a `(`. A name that is written as
    /// a string is decoded.
    Annotation(&'a str),
    /// An integer literal.
    Integer(Integer<'a>),
    /// The bytes of a string, decoded.
    String(&'a [u8]),
    /// Any other run of characters: a reserved token, which is valid nowhere.
    Reserved(&'a str),
}
