//! The ends of annotation groups.

ghost use Rattle.std.specs.Prelude.{◌≡◌, ◌+◌, ◌-◌, ◌≤◌, ◌<◌, Bool, true, false, IfOk, MatchOption, length, drop};
ghost use Rattle.wat_lexer.specs.Cut.{Closed, FirstUnclosed};
ghost use Rattle.wat_lexer.specs.Sight.{begins_hidden_group, hidden_count};
ghost use Rattle.wat_lexer.specs.Token.{tokens_of};
ghost use Rattle.wat_lexer.specs.View.{entry_tokens, placed, AreSkips};

use crate::hidden::{begins_hidden_group, hidden_count};
use crate::lexeme::Skips;
use crate::tokens::Tokens;
use std::alloc::{AllocError, Global};

/// Stores the skips of the annotation group from index `at` to index `end`.
fn tell_skip(tokens: &mut Tokens, at: usize, end: usize)
    requires begins { begins_hidden_group false (entry_tokens (drop at tokens.old)) ≡ true }
    requires order { at < end }
    requires within { end ≤ length tokens.old }
    requires skips { AreSkips (drop (at + 1) tokens.old) }
    requires counts { (known : Bool) → begins_hidden_group known (entry_tokens (drop at tokens.old)) ≡ true
        → hidden_count known (entry_tokens (drop at tokens.old)) ≡ (end - at) + hidden_count known (entry_tokens
        (drop end tokens.old)) }
    ensures same { placed tokens.new ≡ placed tokens.old }
    ensures skips { AreSkips (drop at tokens.new) }
{
    let all = end - at + hidden_count(tokens, end, false);
    let unknown = end - at + hidden_count(tokens, end, true);
    tokens.set_skips(at + 1, Skips { all, unknown });
}

/// Stores the skips of all annotation groups. Returns the offset, in bytes, of the first annotation
/// group that isn't closed, or `None` if all are closed.
pub(crate) fn tell_skips(alloc: Global, tokens: &mut Tokens) -> Result<Option<usize>, AllocError>
    ensures same { placed tokens.new ≡ placed tokens.old }
    ensures skips { IfOk result (λ o. AreSkips tokens.new) }
    ensures first { IfOk result (λ o. MatchOption o (Closed (tokens_of (placed tokens.old)))
        (FirstUnclosed (placed tokens.old))) }
{
    let mut ends = Vec::new(alloc);
    let mut first = None;
    let mut i = tokens.len();
    while i > 0 {
        i -= 1;
        if tokens.closes(i) {
            ends.push(i + 1)?;
            continue;
        }
        if !tokens.opens(i) {
            continue;
        }
        let end = ends.pop();
        if !begins_hidden_group(tokens, i, false) {
            continue;
        }
        match end {
            Some(end) => tell_skip(tokens, i, end),
            None => {
                first = Some(tokens.offset(i));
                let end = tokens.len();
                tell_skip(tokens, i, end);
            }
        }
    }
    Ok(first)
}
