//! The class of a run.

ghost use Rattle.std.specs.Prelude.{◌≡◌, ◌+◌, ◌-◌, ◌≤◌, ◌<◌, true, false, option_map, Some, length, drop, take, slice_range, slice_index};
ghost use Rattle.wat_lexer.specs.Scan.{all_idchars, string_of, class, text_name};
ghost use Rattle.wat_lexer.specs.Token.{Annotation};
ghost use Rattle.wat_lexer.specs.View.{view, tok_at, Readable, Word, is_paren};

use crate::lexeme::Kind;
use crate::number::Integer;
use crate::token::Token;

/// The part of a text from `from` to `end`. Its first and its last byte are ASCII.
#[inline(always)]
pub(crate) fn part(text: &str, from: usize, end: usize) -> &str
    requires order { from < end }
    requires within { end ≤ length text.now }
    requires first { slice_index text.now from < 128 }
    requires last { slice_index text.now (end - 1) < 128 }
    ensures { result.now ≡ slice_range text.now from end }
{
    &text[from..end]
}

/// The kind of a run of idchars. The caller puts an annotation into the side table.
#[tactic(auto, using(crate::proofs::Plain::plain_kinds))]
pub(crate) fn plain_kind(text: &str, from: usize, end: usize, behind: bool) -> Kind
    requires order { from < end }
    requires within { end ≤ length text.now }
    requires all { all_idchars (slice_range text.now from end) ≡ true }
    ensures class { tok_at result text.now from end (Annotation
        (slice_range text.now (from + 1) end)) ≡ class behind (slice_range text.now from end) }
    ensures fits { Readable result text.now from end (Word 1 text.now from end) (Annotation
        (slice_range text.now (from + 1) end)) }
{
    let first = text.as_bytes()[from];
    if first == b'$' {
        if from + 1 < end {
            Kind::Id
        } else {
            Kind::Reserved
        }
    } else if behind && first == b'@' {
        if from + 1 < end {
            Kind::Annotation
        } else {
            Kind::Reserved
        }
    } else if first.is_ascii_lowercase() {
        Kind::Keyword
    } else {
        match Integer::of(part(text, from, end)) {
            Some(_) => Kind::Integer,
            None => Kind::Reserved,
        }
    }
}

/// The name that a string spells, or `None` if the content is empty or isn't UTF-8.
#[tactic(auto, using(crate::proofs::Whole::name_steps))]
fn text_name(content: &[u8]) -> Option<&str>
    ensures { option_map (λ n. n.now) result ≡ text_name (Some content.now) }
{
    if content.is_empty() {
        return None;
    }
    match str::from_utf8(content) {
        Ok(name) => Some(name),
        Err(_) => None,
    }
}

/// The token of a run that ends with its only string. `quote` is the offset of the opening quote in
/// the run.
#[tactic(auto, using(crate::proofs::Whole::token_steps))]
pub(crate) fn string_token<'a>(
    run: &'a str,
    quote: usize,
    behind: bool,
    content: &'a [u8],
) -> Token<'a>
    requires within { quote < length run.now }
    requires prefix { all_idchars (take quote run.now) ≡ true }
    requires a_string { string_of (drop quote run.now) ≡ Some content.now }
    ensures class { view result ≡ class behind run.now }
    ensures no_paren { is_paren (view result) ≡ false }
{
    if quote == 0 {
        return Token::String(content);
    }
    if quote > 1 {
        return Token::Reserved(run);
    }
    let first = run.as_bytes()[0];
    if first == b'$' {
        match text_name(content) {
            Some(name) => Token::Id(name),
            None => Token::Reserved(run),
        }
    } else if behind && first == b'@' {
        match text_name(content) {
            Some(name) => Token::Annotation(name),
            None => Token::Reserved(run),
        }
    } else {
        Token::Reserved(run)
    }
}
