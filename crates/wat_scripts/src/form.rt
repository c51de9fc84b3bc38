//! Which groups `( module .. )` are modules (README of the reference interpreter, "Scripts").

ghost use Rattle.std.specs.Prelude.{◌≡◌};
ghost use Rattle.wat_tokens.specs.Prelude.{in_front, second};
ghost use Rattle.wat_scripts.specs.Scripts.{after_id, after_word, after_head, is_module, names_definition};

use wat_tokens::{Cursor, Parser};

/// Returns the position after an identifier, if one is next.
fn after_id(cursor: Cursor<'_>) -> Cursor<'_>
    ensures { in_front result ≡ after_id (in_front cursor.entry) }
{
    match cursor.id() {
        Some((_, rest)) => rest,
        None => cursor,
    }
}

/// Returns the position after the keyword `word`, if it is next.
fn after_word<'p>(cursor: Cursor<'p>, word: &str) -> Cursor<'p>
    ensures { in_front result ≡ after_word word.now (in_front cursor.entry) }
{
    if !cursor.keyword_is(word) {
        return cursor;
    }
    match cursor.any() {
        Some(rest) => rest,
        None => cursor,
    }
}

/// Returns the position after `definition id?` or `id? definition?`.
fn after_head(cursor: Cursor<'_>) -> Cursor<'_>
    ensures { in_front result ≡ after_head (in_front cursor.entry) }
{
    if cursor.keyword_is("definition") {
        after_id(after_word(cursor, "definition"))
    } else {
        after_word(after_id(cursor), "definition")
    }
}

/// Returns whether a group `( module .. )` is a module, by the tokens after the word `module`.
fn is_module_at(cursor: Cursor<'_>) -> bool
    ensures { result ≡ is_module (in_front cursor.entry) }
{
    !after_head(cursor).keyword_is("quote") && !after_id(cursor).keyword_is("instance")
}

/// Returns whether a group `( module .. )` is a module, where the word `module` is next. Returns
/// false if no token is next.
pub(crate) fn is_module(parser: &Parser<'_>) -> bool
    ensures { result ≡ second is_module parser.now.left }
{
    match parser.cursor().any() {
        Some(rest) => is_module_at(rest),
        None => false,
    }
}

/// Returns whether an identifier and the word `definition` follow the next token.
pub(crate) fn names_definition(parser: &Parser<'_>) -> bool
    ensures { result ≡ second names_definition parser.now.left }
{
    match parser.cursor().any() {
        Some(rest) => match rest.id() {
            Some((_, rest)) => rest.keyword_is("definition"),
            None => false,
        },
        None => false,
    }
}
