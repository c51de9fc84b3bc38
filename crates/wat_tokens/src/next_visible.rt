//! The index of the next visible token.

ghost use Rattle.std.specs.Prelude.{◌≤◌, length};
ghost use Rattle.wat_lexer.specs.View.{AreSkips, IsNextVisible};

use wat_lexer::hidden;
use wat_lexer::tokens::Tokens;

/// Returns the index of the first visible token from the index `at` on, or the number of all
/// tokens if none follows. The index is `at` unless the token at `at + 1` is an annotation.
#[inline(always)]
#[tactic(auto, using(crate::proofs::Steps::sight_steps))]
pub(crate) fn next_visible(tokens: &Tokens, at: usize, known: bool) -> usize
    requires within { at ≤ length tokens.now }
    requires skips { AreSkips tokens.now }
    ensures { IsNextVisible known at tokens.now result }
{
    let count = tokens.len();
    if at + 1 < count && tokens.annotates(at + 1) {
        behind_hidden(tokens, at, known)
    } else {
        at
    }
}

/// Returns the same index as [`next_visible`], without the test for an annotation at `at + 1`.
// Few groups begin with an annotation. If this call were inlined, every step would lose registers.
#[inline(never)]
fn behind_hidden(tokens: &Tokens, at: usize, known: bool) -> usize
    requires within { at ≤ length tokens.now }
    requires skips { AreSkips tokens.now }
    ensures { IsNextVisible known at tokens.now result }
{
    hidden::next_visible(tokens, at, known)
}
