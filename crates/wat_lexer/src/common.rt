//! Fast recognition of common tokens, by their first byte and the end of their bytes.

ghost use Rattle.std.specs.Prelude.{◌≡◌, ◌+◌, ◌-◌, ◌≤◌, ◌<◌, IfSome, IsTrue, Bool, List, Some, true, false, length, drop, slice_range, slice_index};
ghost use Rattle.wat_lexer.specs.Bytes.{is_idchar, between};
ghost use Rattle.wat_lexer.specs.Cut.{begins, in_no_run};
ghost use Rattle.wat_lexer.specs.Number.{is_integer};
ghost use Rattle.wat_lexer.specs.Scan.{front, behind_run, string_at, IsWholeWord, Between, Ends, Raw};
ghost use Rattle.wat_lexer.specs.Token.{Placed};
ghost use Rattle.wat_lexer.specs.View.{PieceIs, HasRoom, is_word, near_limit, word_limit};

use crate::byte_table::{DIGITS, HEX_DIGITS, marked_end};
use crate::lexeme::{Kind, NEAR_LIMIT, WORD_LIMIT};
use crate::scan::{is_idchar, plain_end};
use crate::string::raw_end;

/// Whether the byte at offset `at` is `b`.
#[inline(always)]
#[tactic(auto, using(crate::specs::Laws::Bytes::begins_at))]
fn is_at(text: &[u8], at: usize, b: u8) -> bool
    ensures { result ≡ begins b (drop at text.now) }
{
    at < text.len() && text[at] == b
}

/// Whether a run ends at `at`: the text ends, or the byte at `at` is neither an idchar nor a quote.
#[inline(always)]
fn ends_run(text: &[u8], at: usize) -> bool
    ensures ends { IsTrue result → at < length text.now
        → in_no_run (slice_index text.now at) ≡ true }
    ensures goes_on { result ≡ false → (at < length text.now)
        × (in_no_run (slice_index text.now at) ≡ false) }
{
    if at >= text.len() {
        return true;
    }
    let b = text[at];
    b != b'"' && !is_idchar(b)
}

/// The end of the run of idchars that begins at `at`, or `None` if the run has a string.
#[inline(always)]
fn word_end(text: &[u8], at: usize) -> Option<usize>
    requires place { at < length text.now }
    requires first { is_idchar (slice_index text.now at) ≡ true }
    ensures { IfSome result (λ end. IsWholeWord text.now at end) }
{
    let end = plain_end(text, at + 1);
    if is_at(text, end, b'"') {
        return None;
    }
    Some(end)
}

/// The end of the integer at `at` if the run has only decimal digits, otherwise `None`.
#[inline(always)]
fn decimal_end(text: &[u8], at: usize) -> Option<usize>
    requires place { at < length text.now }
    requires first { between 48 57 (slice_index text.now at) ≡ true }
    ensures word { IfSome result (λ end. IsWholeWord text.now at end) }
    ensures integer { IfSome result (λ end. is_integer (slice_range text.now at end) ≡ true) }
{
    let end = marked_end(&DIGITS, text, at + 1);
    if !ends_run(text, end) {
        return None;
    }
    Some(end)
}

/// The end of the integer at `at` if the run has only `0x` and hexadecimal digits, otherwise
/// `None`. There must be at least one digit.
#[inline(always)]
fn hex_end(text: &[u8], at: usize) -> Option<usize>
    requires place { at + 1 < length text.now }
    requires zero { slice_index text.now at ≡ 48 }
    requires mark { slice_index text.now (at + 1) ≡ 120 }
    ensures word { IfSome result (λ end. IsWholeWord text.now at end) }
    ensures integer { IfSome result (λ end. is_integer (slice_range text.now at end) ≡ true) }
{
    let end = marked_end(&HEX_DIGITS, text, at + 2);
    if end == at + 2 {
        return None;
    }
    if !ends_run(text, end) {
        return None;
    }
    Some(end)
}

/// The end of the integer at `at` if the run has only decimal digits, or `0x` and hexadecimal
/// digits, otherwise `None`.
#[inline(always)]
fn integer_end(text: &[u8], at: usize) -> Option<usize>
    requires place { at < length text.now }
    requires first { between 48 57 (slice_index text.now at) ≡ true }
    ensures word { IfSome result (λ end. IsWholeWord text.now at end) }
    ensures integer { IfSome result (λ end. is_integer (slice_range text.now at end) ≡ true) }
{
    if text[at] == b'0' && at + 1 < text.len() && text[at + 1] == b'x' {
        return hex_end(text, at);
    }
    decimal_end(text, at)
}

/// The end of the string at `at` if the run is one string without escapes, otherwise `None`.
#[inline(always)]
fn plain_string_end(text: &[u8], at: usize) -> Option<usize>
    requires place { at < length text.now }
    requires quote { slice_index text.now at ≡ 34 }
    ensures within { IfSome result (λ end. (at + 1 < end) × (end ≤ length text.now)) }
    ensures content { IfSome result (λ end. string_at Raw (drop (at + 1) text.now) ≡ Some
        (slice_range text.now (at + 1) (end - 1), drop end text.now)) }
    ensures run { IfSome result (λ end. behind_run Between (drop at text.now) ≡ Ends
        (drop end text.now)) }
{
    let quote = raw_end(text, at + 1);
    if !is_at(text, quote, b'"') {
        return None;
    }
    if !ends_run(text, quote + 1) {
        return None;
    }
    Some(quote + 1)
}

/// The end of a word with fewer than 65,536 bytes. Returns `None` for a longer word, which doesn't
/// fit in a `Lexeme`.
#[inline(always)]
fn short(at: usize, end: usize) -> Option<usize>
    requires { at < end }
    ensures { IfSome result (λ same. (same ≡ end) × (end < at + word_limit)) }
{
    if end - at >= WORD_LIMIT {
        return None;
    }
    Some(end)
}

/// The kind and the end of the token at `at`, if it is a paren, a keyword, an identifier, an
/// integer without a sign and without `_`, or a string without escapes. Returns `None` for other
/// tokens, for words of 65,536 bytes or more, and in texts of 4 GiB or more. After `None` nothing
/// is known about the text at `at`.
#[inline(always)]
pub(crate) fn common_token(text: &[u8], at: usize) -> Option<(Kind, usize)>
    requires { at < length text.now }
    ensures within { IfSome result (λ f. (at < f.1) × (f.1 ≤ length text.now)) }
    ensures near { IfSome result (λ f. f.1 < near_limit) }
    ensures room { IfSome result (λ f. is_word f.0 ≡ true → HasRoom at f.1) }
    ensures value { IfSome result (λ f. (behind : Bool) (lie : List Placed)
        → PieceIs text.now lie lie at (record { kind = Some f.0; end = f.1 })
        (front behind (drop at text.now))) }
{
    if text.len() >= NEAR_LIMIT {
        return None;
    }
    let b = text[at];
    if b.is_ascii_lowercase() {
        let end = short(at, word_end(text, at)?)?;
        Some((Kind::Keyword, end))
    } else if b == b'$' {
        let end = short(at, word_end(text, at)?)?;
        if end == at + 1 {
            return None;
        }
        Some((Kind::Id, end))
    } else if b == b'(' {
        if is_at(text, at + 1, b';') {
            return None;
        }
        Some((Kind::LParen, at + 1))
    } else if b == b')' {
        Some((Kind::RParen, at + 1))
    } else if b.is_ascii_digit() {
        let end = short(at, integer_end(text, at)?)?;
        Some((Kind::Integer, end))
    } else if b == b'"' {
        let end = short(at, plain_string_end(text, at)?)?;
        Some((Kind::String, end))
    } else {
        None
    }
}
