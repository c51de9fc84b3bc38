//! The token at an offset, as a message names it.

ghost use Rattle.std.specs.Prelude.{◌≡◌, ◌+◌, ◌++◌, ◌≤◌, ◌<◌, OnOk, length};
ghost use Rattle.std.specs.Str.{IsCharBoundary};
ghost use Rattle.wat_report.specs.Found.{char_end, found_text, is_word_at, marked_len, marked_text, quoted_to, shown_end, token_end, word_at, word_end, word_text};

use crate::lines::char_start;
use crate::write::add;
use std::alloc::AllocError;
use wat_lexer::scan::{plain_end, run_end};

/// The greatest number of bytes of a word that a message shows.
const SHOWN: usize = 64;

/// Returns whether a lower-case letter is at the offset.
pub(crate) fn is_word_at(text: &str, at: usize) -> bool
    ensures { result ≡ is_word_at text.now at }
{
    let bytes = text.as_bytes();
    at < bytes.len() && b'a' <= bytes[at] && bytes[at] <= b'z'
}

/// Returns the end of the idchars at the offset.
#[tactic(auto, using(crate::proofs::Words::plain_word))]
pub(crate) fn word_end(bytes: &[u8], at: usize) -> usize
    requires { at ≤ length bytes.now }
    ensures value { result ≡ word_end bytes.now at }
    ensures order { at ≤ result }
    ensures within { result ≤ length bytes.now }
{
    plain_end(bytes, at)
}

/// Returns the idchars at the offset.
#[tactic(auto, using(crate::proofs::Words::word_boundary))]
pub(crate) fn word_at(text: &str, at: usize) -> &str
    requires within { at ≤ length text.now }
    requires boundary { IsCharBoundary text.now at }
    ensures { result.now ≡ word_at text.now at }
{
    let end = word_end(text.as_bytes(), at);
    &text[at..end]
}

/// Returns the offset where the character at an offset ends.
#[tactic(auto, unfolding(crate::specs::Found::char_end))]
fn char_end(bytes: &[u8], at: usize) -> usize
    requires { at < length bytes.now }
    ensures order { at ≤ result }
    ensures within { result ≤ length bytes.now }
    ensures value { result ≡ char_end bytes.now at }
{
    let mut end = at + 1;
    while end < bytes.len() && 128 <= bytes[end] && bytes[end] <= 191 {
        end += 1;
    }
    end
}

/// Returns the end of the run of idchars and strings at the offset. If the run has an invalid string,
/// returns the offset of its opening quote.
#[tactic(auto, using(crate::proofs::Runs::run_ends))]
fn token_end(bytes: &[u8], at: usize) -> usize
    requires { at ≤ length bytes.now }
    ensures value { result ≡ token_end bytes.now at }
    ensures within { result ≤ length bytes.now }
{
    match run_end(bytes, at) {
        Ok(end) => end,
        Err(quote) => quote,
    }
}

/// Returns the number of bytes to underline at an offset: the word, identifier, number or string
/// there, or else the one character; 0 at the end of the text.
pub(crate) fn marked_len(text: &str, at: usize) -> usize
    requires { at ≤ length text.now }
    ensures value { result ≡ marked_len text.now at }
    ensures within { at + result ≤ length text.now }
{
    let bytes = text.as_bytes();
    if at >= bytes.len() {
        return 0;
    }
    let end = token_end(bytes, at);
    if at < end {
        return end - at;
    }
    char_end(bytes, at) - at
}

/// Adds the word at the offset between backquotes, with `..` at its end if the word goes on.
fn add_word(out: &mut Vec<u8>, text: &str, at: usize) -> Result<(), AllocError>
    requires { at ≤ length text.now }
    ensures { OnOk result (out.new.items ≡ out.old.items ++ word_text text.now at) }
{
    let bytes = text.as_bytes();
    let end = word_end(bytes, at);
    let stop = end.min(at + SHOWN);
    let goes_on = stop < end || end < bytes.len() && bytes[end] == b'"';
    add(out, "`")?;
    out.extend_from_slice(&bytes[at..stop])?;
    add(out, if goes_on { "..`" } else { "`" })
}

/// Returns the end of the first 64 of the bytes from the offset up to their end, at a character.
#[tactic(auto, using(crate::proofs::Cuts::char_start_behind))]
fn shown_end(text: &str, at: usize, end: usize) -> usize
    requires order { at ≤ end }
    requires within { end ≤ length text.now }
    requires boundary { IsCharBoundary text.now at }
    ensures value { result ≡ shown_end text.now at end }
    ensures order { at ≤ result }
    ensures within { result ≤ length text.now }
{
    if end - at > SHOWN {
        return char_start(text, at + SHOWN);
    }
    end
}

/// Adds the bytes from the offset up to `stop` between backquotes, with `..` if `end` is after that.
fn add_quoted_to(
    out: &mut Vec<u8>,
    text: &str,
    at: usize,
    stop: usize,
    end: usize,
) -> Result<(), AllocError>
    requires order { at ≤ stop }
    requires within { stop ≤ length text.now }
    ensures { OnOk result (out.new.items ≡ out.old.items ++ quoted_to text.now at stop end) }
{
    add(out, "`")?;
    out.extend_from_slice(&text.as_bytes()[at..stop])?;
    add(out, if stop < end { "..`" } else { "`" })
}

/// Adds the underlined bytes at the offset, between backquotes.
#[tactic(auto, unfolding(crate::specs::Found::marked_text))]
pub(crate) fn add_marked_text(out: &mut Vec<u8>, text: &str, at: usize) -> Result<(), AllocError>
    requires within { at ≤ length text.now }
    requires boundary { IsCharBoundary text.now at }
    ensures { OnOk result (out.new.items ≡ out.old.items ++ marked_text text.now at) }
{
    let end = at + marked_len(text, at);
    let stop = shown_end(text, at, end);
    add_quoted_to(out, text, at, stop, end)
}

/// Adds the name of the token at the offset for a message.
pub(crate) fn add_found(out: &mut Vec<u8>, text: &str, at: usize) -> Result<(), AllocError>
    ensures { OnOk result (out.new.items ≡ out.old.items ++ found_text text.now at) }
{
    let bytes = text.as_bytes();
    if at >= bytes.len() {
        return add(out, "the end of the text");
    }
    match bytes[at] {
        b'"' => add(out, "a string"),
        b'(' => add(out, "`(`"),
        b')' => add(out, "`)`"),
        _ => add_word(out, text, at),
    }
}
