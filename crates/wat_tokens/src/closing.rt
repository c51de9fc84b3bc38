//! The end of a group of tokens.

ghost use Rattle.std.specs.Prelude.{◌≡◌, ◌≤◌, ◌<◌, ◌+◌, MatchOption, IfSome, None, Some, length, drop};
ghost use Rattle.std.proofs.Math.ListN.{get_or};
ghost use Rattle.wat_lexer.specs.View.{placed, no_entry};
ghost use Rattle.wat_tokens.specs.Visible.{closing};

use wat_lexer::tokens::Tokens;

/// Returns the index of the `)` that closes the group around an index; None if no `)` closes it.
#[tactic(auto, using(crate::proofs::GroupEnds::closing_steps))]
pub(crate) fn closing(tokens: &Tokens, from: usize) -> Option<usize>
    requires { from ≤ length tokens.now }
    ensures value { MatchOption result (closing 0 (drop from (placed tokens.now)) ≡ None)
        (λ i. closing 0 (drop from (placed tokens.now))
        ≡ Some ((get_or tokens.now i no_entry).offset, drop (i + 1) (placed tokens.now))) }
    ensures within { IfSome result (λ i. (from ≤ i) × (i < length tokens.now)
        × (i < usize.MAX)) }
{
    let mut depth: usize = 0;
    for i in from..tokens.len() {
        if tokens.closes(i) {
            if depth == 0 {
                return Some(i);
            }
            depth -= 1;
        } else if tokens.opens(i) {
            depth += 1;
        }
    }
    None
}
