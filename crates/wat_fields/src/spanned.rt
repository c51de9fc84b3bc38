//! Parses values up to the end of their group, with a guarantee about the spans of each value.
//!
//! The contracts of [`wat_tokens::repeat`] don't describe spans: the tokens don't determine whether
//! a value keeps its spans.

ghost use Rattle.std.specs.Prelude.{◌≤◌, map, Bool, All, IfOk};
ghost use Rattle.wat_links.specs.Prelude.{Cost, many_reads, Production, Call, ReadsAt, more, ViewOf, owning, no_items};

use wat_tokens::{Parser, Result};

/// How each value of a sequence is parsed, as a `V`.
pub(crate) trait Spanned<'a, V> {
    /// The type of a value's view in contracts.
    ghost View: { Type 0 };

    /// The view of a value, and whether the value owns heap memory.
    ghost view: { ViewOf V View };

    /// The counts that can rise while a value is parsed.
    ghost cost: { Cost };

    /// The production: the tokens that spell a value, and how a value is read.
    ghost grammar: { Production View };

    /// The guarantee about a value's spans, by whether the parser tracks spans.
    ghost keeps: { Bool → V → Type 0 };

    /// Takes the next value, or refuses as [`wat_tokens::Parse::parse`] does.
    fn take(parser: &mut Parser<'a>) -> Result<V>
        ensures reads { ReadsAt cost view grammar result parser.old parser.new }
        ensures spans { IfOk result (λ v. keeps parser.old.tracks v) };
}

/// Parses values up to the end of the group, as a list.
pub(crate) fn all_spanned<'a, V: Drop, S: Spanned<'a, V>>(parser: &mut Parser<'a>) -> Result<Vec<V>>
    requires { 1 ≤ S.grammar.least }
    ensures reads { Call S.cost (owning (λ v. map S.view.of v.items) no_items)
        (many_reads more S.grammar parser.old.left) result parser.old parser.new }
    ensures spans { IfOk result (λ v. All (S.keeps parser.old.tracks) v.items) }
{
    let mut found = Vec::new(parser.alloc());
    'values: while !parser.is_empty() {
        found.push(S::take(parser)?)?;
    }
    found.shrink_to_fit();
    Ok(found)
}
