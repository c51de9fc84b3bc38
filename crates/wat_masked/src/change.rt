//! Changes of tokens.

ghost use Rattle.std.specs.Prelude.{◌≡◌, ◌<◌, drop, length};
ghost use Rattle.wat_lexer.specs.Laws.Prelude.{get_or, view, entry_tokens, no_entry};
ghost use Rattle.wat_masked.specs.Tokens.{begins_literal, bytes_of, change_of, is_changed, is_float_word, is_literal, is_type, takes_floats};

use crate::float::is_float;
use wat_lexer::token::Token;
use wat_lexer::tokens::Tokens;

/// The change of a token.
#[derive(Clone, Copy)]
pub(crate) enum Change {
    /// The token stays.
    Keep,
    /// The first letter becomes `i`.
    Word,
    /// A literal of this many bytes becomes `0` and spaces.
    Literal(usize),
}

/// The text of a keyword, an integer or a reserved run.
fn bytes_of<'a>(token: Token<'a>) -> &'a str
    ensures { result.now ≡ bytes_of (view token.entry) }
{
    match token {
        Token::Keyword(word) => word,
        Token::Integer(integer) => integer.text(),
        Token::Reserved(run) => run,
        _ => "",
    }
}

/// Whether float literals can follow a word.
#[tactic(auto, unfolding(crate::specs::Tokens::takes_floats))]
fn takes_floats(word: &str) -> bool
    ensures { result ≡ takes_floats word.now }
{
    word == "f32.const" || word == "f64.const" || word == "f32x4" || word == "f64x2"
}

/// Whether float literals can follow a word if a `(` is directly before the word.
#[tactic(auto, unfolding(crate::specs::Tokens::is_type))]
fn is_type(word: &str) -> bool
    ensures { result ≡ is_type word.now }
{
    word == "f32" || word == "f64"
}

fn is_float_word(token: Token, opened: bool) -> bool
    ensures { result ≡ is_float_word opened (view token.entry) }
{
    match token {
        Token::Keyword(word) => takes_floats(word) || opened && is_type(word),
        _ => false,
    }
}

fn is_literal(token: Token) -> bool
    ensures { result ≡ is_literal (view token.entry) }
{
    is_float(bytes_of(token).as_bytes())
}

/// Whether a float literal is at index `at`.
fn is_literal_at(tokens: &Tokens, at: usize) -> bool
    ensures { result ≡ begins_literal (entry_tokens (drop at tokens.now)) }
{
    at < tokens.len() && is_literal(tokens.token(at))
}

/// The change of the visible token at index `at`. The next visible token is at index `next`.
/// `opened` is true if a `(` is directly before the token. `row` is true if the visible token
/// before it was changed.
pub(crate) fn change_of(tokens: &Tokens, at: usize, next: usize, opened: bool, row: bool) -> Change
    requires { at < length tokens.now }
    ensures { result ≡ change_of opened row (begins_literal (entry_tokens (drop next tokens.now)))
        ((get_or tokens.now at no_entry).token) }
{
    let token = tokens.token(at);
    if row && is_literal(token) {
        Change::Literal(bytes_of(token).len())
    } else if is_float_word(token, opened) && is_literal_at(tokens, next) {
        Change::Word
    } else {
        Change::Keep
    }
}

pub(crate) fn is_changed(change: Change) -> bool
    ensures { result ≡ is_changed change }
{
    !matches!(change, Change::Keep)
}
