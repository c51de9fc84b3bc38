//! The groups before an offset of a text.

ghost use Rattle.std.specs.Prelude.{◌≡◌, ◌≤◌, length, take};
ghost use Rattle.wat_mnemonics.specs.Prelude.{tokens_of, placed};
ghost use Rattle.wat_report.specs.Front.{count_before, groups_before, groups_in, is_before_groups, is_behind_group, is_in_group, is_in_two};

use wat_lexer::tokens::Tokens;

/// The number of groups that begin and end before an offset.
#[derive(Clone, Copy, Debug, PartialEq, Eq)]
pub(crate) struct Groups {
    /// The number of tokens `(`.
    pub begun: usize,
    /// The number of tokens `)`.
    pub ended: usize,
}

/// Returns the number of tokens that begin before the offset, in bytes.
#[tactic(auto, using(crate::proofs::Groups::before_steps))]
fn count_before(tokens: &Tokens, at: usize) -> usize
    ensures within { result ≤ length tokens.now }
    ensures value { result ≡ count_before at (placed tokens.now) }
{
    let mut count = 0;
    while count < tokens.len() && tokens.offset(count) < at {
        count += 1;
    }
    count
}

/// Returns the number of groups that begin and end among the first tokens.
#[tactic(auto, unfolding(crate::specs::Front::groups_in))]
fn groups_in(tokens: &Tokens, count: usize) -> Groups
    requires { count ≤ length tokens.now }
    ensures { result ≡ groups_in (take count (tokens_of (placed tokens.now))) }
{
    let mut groups = Groups { begun: 0, ended: 0 };
    for at in 0..count {
        if tokens.opens(at) {
            groups.begun += 1;
        } else if tokens.closes(at) {
            groups.ended += 1;
        }
    }
    groups
}

/// Returns the number of groups that begin and end before an offset in bytes.
pub(crate) fn groups_before(tokens: &Tokens, at: usize) -> Groups
    ensures { result ≡ groups_before at (placed tokens.now) }
{
    groups_in(tokens, count_before(tokens, at))
}

/// Returns whether a group ended, and none is open.
pub(crate) fn is_behind_group(groups: Option<Groups>) -> bool
    ensures { result ≡ is_behind_group groups }
{
    match groups {
        None => false,
        Some(groups) => groups.begun == groups.ended && groups.ended > 0,
    }
}

/// Returns whether no group begins before the offset, and none ends.
pub(crate) fn is_before_groups(groups: Option<Groups>) -> bool
    ensures { result ≡ is_before_groups groups }
{
    match groups {
        None => false,
        Some(groups) => groups.begun == 0 && groups.ended == 0,
    }
}

/// Returns whether a group is open.
pub(crate) fn is_in_group(groups: Option<Groups>) -> bool
    ensures { result ≡ is_in_group groups }
{
    match groups {
        None => false,
        Some(groups) => groups.ended < groups.begun,
    }
}

/// Returns whether exactly two groups are open.
pub(crate) fn is_in_two(groups: Option<Groups>) -> bool
    ensures { result ≡ is_in_two groups }
{
    match groups {
        None => false,
        Some(groups) => groups.begun >= 2 && groups.begun - 2 == groups.ended,
    }
}
