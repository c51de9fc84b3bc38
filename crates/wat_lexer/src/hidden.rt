//! Visible tokens. A group is hidden if it begins with an annotation that isn't known.

ghost use Rattle.std.specs.Prelude.{◌≡◌, ◌≤◌, ◌+◌, length, drop};
ghost use Rattle.wat_lexer.specs.Sight.{begins_hidden_group, hidden_count, visible_tokens};
ghost use Rattle.wat_lexer.specs.View.{entry_tokens, skip_in_front, AreSkips, VisibleFrom, IsNextVisible, most_items};

use crate::tokens::Tokens;

/// Whether a hidden group begins at index `at`.
#[tactic(auto, using(crate::specs::Laws::Hidden::begins_hidden_steps))]
#[inline(always)]
pub(crate) fn begins_hidden_group(tokens: &Tokens, at: usize, known: bool) -> bool
    requires { at ≤ length tokens.now }
    ensures value { result ≡ begins_hidden_group known (entry_tokens (drop at tokens.now)) }
    ensures small { length tokens.now ≤ most_items }
{
    let count = tokens.len();
    at + 1 < count && tokens.opens(at) && tokens.hides(at + 1, known)
}

/// The skip stored with the token after index `at`, or 0 if no token follows. A skip is the number
/// of tokens that lookups skip from the `(` on.
fn skip_in_front(tokens: &Tokens, at: usize, known: bool) -> usize
    requires { at ≤ length tokens.now }
    ensures { result ≡ skip_in_front known (drop at tokens.now) }
{
    let count = tokens.len();
    if at + 1 < count {
        tokens.skip(at + 1, known)
    } else {
        0
    }
}

/// The number of hidden tokens from index `at` up to the first visible token. The time doesn't
/// depend on this number.
#[tactic(auto, using(crate::specs::Laws::Hidden::hidden_count_none))]
#[inline(always)]
pub(crate) fn hidden_count(tokens: &Tokens, at: usize, known: bool) -> usize
    requires within { at ≤ length tokens.now }
    requires skips { AreSkips (drop at tokens.now) }
    ensures value { result ≡ hidden_count known (entry_tokens (drop at tokens.now)) }
    ensures within { at + result ≤ length tokens.now }
    ensures small { length tokens.now ≤ most_items }
    ensures first { VisibleFrom known (drop result (drop at tokens.now)) (visible_tokens known (entry_tokens
        (drop at tokens.now))) }
    ensures same { visible_tokens known (entry_tokens (drop result (drop at tokens.now))) ≡ visible_tokens
        known (entry_tokens (drop at tokens.now)) }
    ensures stops { hidden_count known (entry_tokens (drop result (drop at tokens.now))) ≡ 0 }
{
    if begins_hidden_group(tokens, at, known) {
        skip_in_front(tokens, at, known)
    } else {
        0
    }
}

/// Returns the index of the first visible token from an index on, or the number of tokens if no
/// visible token follows. An annotation group is hidden unless its annotation is known. If `known`
/// is true, the five standard annotations are known, otherwise no annotation is known. The time
/// doesn't depend on the number of hidden tokens. WebAssembly Core Specification, Text Format,
/// Lexical Format, Annotations.
#[inline(always)]
#[tactic(auto, using(crate::proofs::Skips::skips_drop))]
pub fn next_visible(tokens: &Tokens, at: usize, known: bool) -> usize
    requires within { at ≤ length tokens.now }
    requires skips { AreSkips tokens.now }
    ensures { IsNextVisible known at tokens.now result }
{
    at + hidden_count(tokens, at, known)
}
