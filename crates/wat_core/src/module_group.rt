//! The groups of a text, each from its `(` to its `)`.

ghost use Rattle.std.specs.Prelude.{◌≡◌, ◌<◌, MatchOption, true, false, length};
ghost use Rattle.wat_fields.specs.Prelude.{begins_lparen};
ghost use Rattle.wat_tokens.specs.Visible.{seen};
ghost use Rattle.wat_core.specs.ModuleGroups.{IsNext, IsPart, IsWithin};

use wat_tokens::parser::Parser;

/// The part of a text that is one group, in bytes from the start of the text.
///
/// The type is public only for the contracts of [`field_faults`](crate::field_faults) and
/// [`module_faults`](crate::module_faults). No public function takes or returns a `Group`.
#[derive(Clone, Copy, Debug)]
pub struct Group {
    /// The offset of the group's `(`.
    pub from: usize,
    /// The offset after the group's `)`, or the length of the text if the group isn't closed.
    pub end: usize,
}

/// Passes over the next group, and returns it; None if the next token isn't `(`. A group that isn't
/// closed goes to the end of the text.
pub(crate) fn next_group(parser: &mut Parser<'_>, text: &str) -> Option<Group>
    requires { IsWithin text.now parser.old }
    ensures next { MatchOption result ((begins_lparen (seen true parser.old.rest) ≡ false)
        × (parser.new ≡ parser.old))
        (λ g. IsNext (length text.now) parser.old.rest g parser.new.rest
        × IsPart text.now g × (length parser.new.rest < length parser.old.rest)) }
    ensures within { IsWithin text.now parser.new }
{
    if !parser.opens() {
        return None;
    }
    let from = parser.cur_span().offset();
    match parser.pass_group() {
        Some(close) => {
            let end = close.offset() + 1;
            Some(Group { from, end })
        }
        None => {
            let end = text.len();
            Some(Group { from, end })
        }
    }
}
