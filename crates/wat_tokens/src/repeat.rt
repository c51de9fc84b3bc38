//! Lists of values, and lists of the parts of groups.

ghost use Rattle.std.specs.Prelude.{◌≡◌, ◌≤◌, [], map, List, Bool};
ghost use Rattle.wat_tokens.specs.Prelude.{Token, Cost, tokens_alone, joined_behind, after_front, Extends, many_reads, Production, Call, ReadsAt, run, more, ViewOf, owning, no_items};

use crate::ownership::push_into;
use crate::parser::Parser;
use crate::traits::{Parse, Peek};
use wat_lexer::fault::Error;

/// How to read a list of parts, each part as a `V`, and where the list ends.
pub trait Part<'a, V> {
    /// The type of a part's view, which contracts see.
    ghost View: { Type 0 };

    /// The view of each part, and whether parts own heap memory.
    ghost view: { ViewOf V View };

    /// The counters that a call may change besides `taken`.
    ghost cost: { Cost } = { tokens_alone };

    /// Which tokens spell a part, and how a call reads them.
    ghost grammar: { Production View };

    /// Whether the next tokens mean that one more part has to follow.
    ghost follows: { List Token → Bool };

    /// Returns whether one more part has to follow.
    fn follows(parser: &Parser<'a>) -> bool
        ensures { result ≡ follows parser.now.left };

    /// Takes the next part. Fails as [`Parse::parse`] does.
    fn take(parser: &mut Parser<'a>) -> Result<V, Error>
        ensures reads { ReadsAt cost view grammar result parser.old parser.new };
}

/// Takes parts as long as one more has to follow, and appends each part to `out`. If a part fails,
/// returns its error. The items that `out` had before the call stay, also on an error.
pub fn parts<'a, V: Drop, P: Part<'a, V>>(
    parser: &mut Parser<'a>,
    out: &mut Vec<V>,
) -> Result<(), Error>
    requires { 1 ≤ P.grammar.least }
    ensures reads { Call P.cost (owning (λ _. map P.view.of out.new.items) no_items)
        (after_front (map P.view.of out.old.items) (many_reads P.follows P.grammar parser.old.left))
        result parser.old parser.new }
    ensures kept { Extends out.old.items out.new.items }
{
    'parts: while P::follows(parser) {
        push_into(out, P::take(parser)?)?;
    }
    Ok(())
}

/// How to read groups that each hold any number of parts, each part as a `V`, and where the groups
/// end.
pub trait Group<'a, V> {
    /// The type of a part's view, which contracts see.
    ghost View: { Type 0 };

    /// The view of each part, and whether parts own heap memory.
    ghost view: { ViewOf V View };

    /// The counters that a call may change besides `taken`.
    ghost cost: { Cost } = { tokens_alone };

    /// Which tokens spell a group, as the list of its parts, and how a call reads them.
    ghost grammar: { Production (List View) };

    /// Whether the next tokens mean that one more group has to follow.
    ghost follows: { List Token → Bool };

    /// Returns whether one more group has to follow.
    fn follows(parser: &Parser<'a>) -> bool
        ensures { result ≡ follows parser.now.left };

    /// Takes the next group, and appends each of its parts to `out`. Fails as [`Parse::parse`]
    /// does. The items that `out` had before the call stay, also on an error.
    fn take(parser: &mut Parser<'a>, out: &mut Vec<V>) -> Result<(), Error>
        ensures reads { Call cost (owning (λ _. map view.of out.new.items) no_items)
            (after_front (map view.of out.old.items) (grammar.reads parser.old.left)) result
            parser.old parser.new }
        ensures kept { Extends out.old.items out.new.items };
}

/// Takes groups as long as one more has to follow, and appends their parts to `out`. If a group
/// fails, returns its error. The items that `out` had before the call stay, also on an error.
pub fn groups<'a, V: Drop, G: Group<'a, V>>(
    parser: &mut Parser<'a>,
    out: &mut Vec<V>,
) -> Result<(), Error>
    requires { 1 ≤ G.grammar.least }
    ensures reads { Call G.cost (owning (λ _. map G.view.of out.new.items) no_items)
        (joined_behind (map G.view.of out.old.items) (many_reads G.follows G.grammar
        parser.old.left)) result parser.old parser.new }
    ensures kept { Extends out.old.items out.new.items }
{
    'groups: while G::follows(parser) {
        G::take(parser, out)?;
    }
    Ok(())
}

/// Values up to the end of the group or of the text.
struct ToEnd;

impl<'a, T: Parse<'a>> Part<'a, T> for ToEnd {
    ghost View = { T.View };

    ghost view = { T.view };

    ghost cost = { T.cost };

    ghost grammar = { T.grammar };

    ghost follows = { more };

    fn follows(parser: &Parser<'a>) -> bool {
        !parser.is_empty()
    }

    fn take(parser: &mut Parser<'a>) -> Result<T, Error> {
        T::parse(parser)
    }
}

/// Values as long as the next tokens begin a value.
struct WhileBegun;

impl<'a, T: Parse<'a> + Peek> Part<'a, T> for WhileBegun {
    ghost View = { T.View };

    ghost view = { T.view };

    ghost cost = { T.cost };

    ghost grammar = { T.grammar };

    ghost follows = { λ r. run T.begins r };

    fn follows(parser: &Parser<'a>) -> bool {
        parser.peek::<T>()
    }

    fn take(parser: &mut Parser<'a>) -> Result<T, Error> {
        T::parse(parser)
    }
}

/// Takes values up to the end of the group or of the text, and appends each to `out`. If a value
/// fails, returns its error. The items that `out` had before the call stay, also on an error.
pub fn rest_of_group<'a, T: Parse<'a> + Drop>(
    parser: &mut Parser<'a>,
    out: &mut Vec<T>,
) -> Result<(), Error>
    requires { 1 ≤ T.grammar.least }
    ensures reads { Call T.cost (owning (λ _. map T.view.of out.new.items) no_items)
        (after_front (map T.view.of out.old.items) (many_reads more T.grammar parser.old.left))
        result parser.old parser.new }
    ensures kept { Extends out.old.items out.new.items }
{
    parts::<T, ToEnd>(parser, out)
}

/// Takes values as long as the next tokens begin a value, and appends each to `out`. If a value
/// fails, returns its error. The items that `out` had before the call stay, also on an error.
pub fn while_begun<'a, T: Parse<'a> + Peek + Drop>(
    parser: &mut Parser<'a>,
    out: &mut Vec<T>,
) -> Result<(), Error>
    requires { 1 ≤ T.grammar.least }
    ensures reads { Call T.cost (owning (λ _. map T.view.of out.new.items) no_items)
        (after_front (map T.view.of out.old.items) (many_reads (λ r. run T.begins r) T.grammar
        parser.old.left)) result parser.old parser.new }
    ensures kept { Extends out.old.items out.new.items }
{
    parts::<T, WhileBegun>(parser, out)
}

/// Takes parts as [`parts`] does, and returns them as a new list.
pub fn all_parts<'a, V: Drop, P: Part<'a, V>>(parser: &mut Parser<'a>) -> Result<Vec<V>, Error>
    requires { 1 ≤ P.grammar.least }
    ensures reads { Call P.cost (owning (λ v. map P.view.of v.items) no_items)
        (many_reads P.follows P.grammar parser.old.left) result parser.old parser.new }
{
    let mut found = Vec::new(parser.alloc());
    parts::<V, P>(parser, &mut found)?;
    found.shrink_to_fit();
    Ok(found)
}

/// Takes groups as [`groups`] does, and returns their parts as a new list.
pub fn all_groups<'a, V: Drop, G: Group<'a, V>>(parser: &mut Parser<'a>) -> Result<Vec<V>, Error>
    requires { 1 ≤ G.grammar.least }
    ensures reads { Call G.cost (owning (λ v. map G.view.of v.items) no_items)
        (joined_behind [] (many_reads G.follows G.grammar parser.old.left)) result parser.old
        parser.new }
{
    let mut found = Vec::new(parser.alloc());
    groups::<V, G>(parser, &mut found)?;
    found.shrink_to_fit();
    Ok(found)
}

/// Takes values as [`rest_of_group`] does, and returns them as a new list.
pub fn all_to_end<'a, T: Parse<'a> + Drop>(parser: &mut Parser<'a>) -> Result<Vec<T>, Error>
    requires { 1 ≤ T.grammar.least }
    ensures reads { Call T.cost (owning (λ v. map T.view.of v.items) no_items)
        (many_reads more T.grammar parser.old.left) result parser.old parser.new }
{
    let mut found = Vec::new(parser.alloc());
    rest_of_group::<T>(parser, &mut found)?;
    found.shrink_to_fit();
    Ok(found)
}
