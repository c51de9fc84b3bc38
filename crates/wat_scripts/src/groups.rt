//! Steps over the tokens of a script.

ghost use Rattle.std.specs.Prelude.{◌≡◌, ◌≢◌, ◌≤◌, ◌<◌, ◌+◌, ℕ, [], drop, length, IfOk, IfErr, OnOk, Some, None};
ghost use Rattle.wat_tokens.specs.Error.{Unexpected};
ghost use Rattle.wat_tokens.specs.Visible.{closing};
ghost use Rattle.wat_scripts.specs.Scripts.{offset_if};
ghost use Rattle.wat_scripts.specs.Steps.{IsReady, front};

use wat_tokens::{Error, Parser};

/// Passes over the next token.
pub(crate) fn pass_token(parser: &mut Parser<'_>)
    requires { IsReady usize.MAX parser.old }
    ensures front { front parser.new ≡ drop 1 (front parser.old) }
    ensures ready { IsReady usize.MAX parser.new }
    ensures fewer { length parser.new.rest ≤ length parser.old.rest }
    ensures less { front parser.old ≢ [] → length parser.new.rest < length parser.old.rest }
{
    parser.pass_token();
}

/// Passes over the next token, and then over all tokens up to and including the `)` that closes the
/// group. Returns the offset after this `)`. Returns Unexpected, at the end of the text, if the
/// group isn't closed.
pub(crate) fn pass_to_end(parser: &mut Parser<'_>) -> Result<usize, Error>
    requires { IsReady usize.MAX parser.old }
    ensures closed { IfOk result (λ end. (to : ℕ) × (end ≡ to + 1)
        × (closing 0 (drop 1 (front parser.old)) ≡ Some (to, front parser.new))) }
    ensures unclosed { IfErr result (λ e. (e.fault ≡ Unexpected)
        × (closing 0 (drop 1 (front parser.old)) ≡ None)) }
    ensures ready { OnOk result (IsReady usize.MAX parser.new) }
    ensures less { OnOk result (length parser.new.rest < length parser.old.rest) }
{
    match parser.pass_group() {
        Some(close) => {
            let end = close.offset() + 1;
            Ok(end)
        }
        None => Err(parser.unexpected()),
    }
}

/// Returns the offset of the next token, if it is the keyword `word`.
pub(crate) fn offset_if(parser: &Parser<'_>, word: &str) -> Option<usize>
    requires { IsReady usize.MAX parser.now }
    ensures { result ≡ offset_if word.now (front parser.now) }
{
    if parser.next_is(word) {
        Some(parser.cur_span().offset())
    } else {
        None
    }
}
