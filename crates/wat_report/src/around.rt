//! Words and groups around an offset.

ghost use Rattle.std.specs.Prelude.{◌≡◌, ◌≤◌, length};
ghost use Rattle.wat_report.specs.Around.{past_word, blank_end, list_start, opened_word};

use crate::found::{word_at, word_end};
use wat_lexer::scan::is_space;

/// Returns the offset directly after the last parenthesis before an offset, or 0 if there is none.
#[tactic(auto, unfolding(crate::specs::Around::list_start), using(crate::proofs::UpTo::last_steps))]
pub(crate) fn list_start(text: &str, at: usize) -> usize
    requires { at ≤ length text.now }
    ensures within { result ≤ at }
    ensures value { result ≡ list_start text.now at }
{
    let bytes = text.as_bytes();
    let mut start = at;
    while start > 0 && bytes[start - 1] != b'(' && bytes[start - 1] != b')' {
        start -= 1;
    }
    start
}

/// Returns the offset of the first byte from an offset on that isn't white space.
#[tactic(auto, unfolding(crate::specs::Around::blank_end))]
fn blank_end(text: &str, at: usize) -> usize
    requires { at ≤ length text.now }
    ensures within { result ≤ length text.now }
    ensures value { result ≡ blank_end text.now at }
{
    let bytes = text.as_bytes();
    let mut end = at;
    while end < bytes.len() && is_space(bytes[end]) {
        end += 1;
    }
    end
}

/// Returns the end of the word at an offset and of the white space after it.
pub(crate) fn past_word(text: &str, at: usize) -> usize
    requires { at ≤ length text.now }
    ensures within { result ≤ length text.now }
    ensures value { result ≡ past_word text.now at }
{
    blank_end(text, word_end(text.as_bytes(), at))
}

/// Returns the word at an offset if it is directly after a `(`, else the empty word.
#[tactic(auto, unfolding(crate::specs::Around::opened_word), using(crate::proofs::Cuts::at_paren))]
pub(crate) fn opened_word(text: &str, at: usize) -> &str
    requires { at ≤ length text.now }
    ensures { result.now ≡ opened_word text.now at }
{
    if at > 0 && text.as_bytes()[at - 1] == b'(' {
        return word_at(text, at);
    }
    ""
}
