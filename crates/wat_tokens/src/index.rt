//! Identifiers and indices (Text Format, "Identifiers" and "Indices").

ghost use Rattle.std.specs.Prelude.{◌≡◌, ◌↔◌, List, ℕ, IsTrue};
ghost use Rattle.std.specs.Cmp.{partial_equiv_from_equiv, on_equiv, decided};
ghost use Rattle.std.proofs.Common.{ap};
ghost use Rattle.std.specs.Cmp.Lexicographic.{nat_list_eq_equiv, bytes_decides};
ghost use Rattle.std.specs.Str.{bytes_eq};
ghost use Rattle.wat_tokens.specs.Index.{name_of, span_of, identifier, IndexModel, index_view, index, at_index, begins_index, same_index, index_writes};
ghost use Rattle.wat_tokens.specs.Laws.Index.{same_index_decides};
ghost use Rattle.wat_tokens.specs.Lookup.{in_front};
ghost use Rattle.wat_tokens.specs.Test.{at_id};
ghost use Rattle.wat_tokens.specs.Tests.{begins_id};
ghost use Rattle.wat_tokens.specs.Views.{plain};
ghost use Rattle.std.specs.Hash as fed;

use crate::cursor::Cursor;
use crate::parser::Parser;
use crate::traits::{Parse, Peek};
use std::hash::{Hash, Hasher};
use wat_lexer::fault::Error;
use wat_lexer::span::Span;

/// An identifier (Text Format, "Identifiers"): its name and its position. Equality and hashes use
/// only the name.
#[derive(Clone, Copy, Debug)]
pub struct Id<'a> {
    name: &'a str,
    span: Span,
}

impl<'a> Id<'a> {
    /// Returns the identifier with the name `name`, given without its `$`, and the position `span`.
    pub fn new(name: &'a str, span: Span) -> Id<'a>
        ensures name { name_of result ≡ name.now }
        ensures place { span_of result ≡ span }
    {
        Id { name, span }
    }

    /// Returns the name, without the `$`.
    pub fn name(&self) -> &'a str
        ensures { result.now ≡ name_of self.now }
    {
        self.name
    }

    /// Returns the offset in bytes of the identifier's `$`.
    pub fn span(&self) -> Span
        ensures { result ≡ span_of self.now }
    {
        self.span
    }
}

impl PartialEq for Id<'_> {
    ghost eq = { λ a b. bytes_eq (name_of a) (name_of b) };

    ghost laws = { partial_equiv_from_equiv (on_equiv name_of nat_list_eq_equiv) };

    fn eq(&self, other: &Self) -> bool
        ensures value { result ≡ bytes_eq (name_of self.now) (name_of other.now) }
        ensures alike { IsTrue result ↔ (name_of self.now ≡ name_of other.now) }
    {
        self.name == other.name
    }
}

impl Eq for Id<'_> {
    ghost laws = { on_equiv name_of nat_list_eq_equiv };
}

impl Hash for Id<'_> {
    ghost hash_input = { λ i. fed.str (name_of i) };

    ghost respects_eq = { λ a b e. ap fed.str ((bytes_decides (name_of a) (name_of b)).0 e) };

    fn hash<H: Hasher>(&self, state: &mut H) {
        self.name.hash(state);
    }
}

/// An index: a number or an identifier (Text Format, "Indices"). Equality and hashes use only the
/// number or the name, and not the position. A number is never equal to an identifier.
#[derive(Clone, Copy, Debug)]
pub enum Index<'a> {
    /// A number, and the offset in bytes at which it begins.
    Num(u32, Span),
    /// An identifier.
    Id(Id<'a>),
}

impl Index<'_> {
    ghost use Rattle.wat_lexer.specs.declared.span.Span as spans;
    ghost use Rattle.wat_tokens.specs.declared.index.Id as ids;
    ghost use Rattle.wat_tokens.specs.declared.index.Index.TheVariants as code;

    /// Returns the offset in bytes at which the index begins.
    pub fn span(&self) -> Span
        ensures number { (n : ℕ) (s : spans.Span) → self.now ≡ code.Num n s → result ≡ s }
        ensures name { (i : ids.Id) → self.now ≡ code.Id i → result ≡ span_of i }
    {
        match self {
            Index::Num(_, span) => *span,
            Index::Id(id) => id.span(),
        }
    }
}

impl PartialEq for Index<'_> {
    ghost eq = { λ a b. same_index (index_view a) (index_view b) };

    ghost laws = { partial_equiv_from_equiv (on_equiv index_view
        (decided same_index same_index_decides)) };

    fn eq(&self, other: &Self) -> bool
        ensures value { result ≡ same_index (index_view self.now) (index_view other.now) }
        ensures alike { IsTrue result ↔ (index_view self.now ≡ index_view other.now) }
    {
        match (self, other) {
            (Index::Num(a, _), Index::Num(b, _)) => a == b,
            (Index::Id(a), Index::Id(b)) => a == b,
            _ => false,
        }
    }
}

impl Eq for Index<'_> {
    ghost laws = { on_equiv index_view (decided same_index same_index_decides) };
}

impl Hash for Index<'_> {
    ghost hash_input = { λ i. index_writes (index_view i) };

    ghost respects_eq = { λ a b e. ap index_writes ((same_index_decides (index_view a)
        (index_view b)).0 e) };

    fn hash<H: Hasher>(&self, state: &mut H) {
        match self {
            Index::Num(number, _) => {
                state.write_u8(0);
                number.hash(state);
            }
            Index::Id(id) => {
                state.write_u8(1);
                id.hash(state);
            }
        }
    }
}

/// Returns Unexpected if the next token isn't an identifier.
impl<'a> Parse<'a> for Id<'a> {
    ghost View = { List ℕ };

    ghost view = { plain name_of };

    ghost grammar = { identifier };

    fn parse(parser: &mut Parser<'a>) -> Result<Self, Error> {
        let span = parser.cur_span();
        let name = parser.take_id()?;
        Ok(Id::new(name, span))
    }
}

/// Any identifier.
impl<'p> Peek for Id<'p> {
    ghost begins = { at_id };

    fn peek(cursor: Cursor<'_>) -> bool
        ensures { result ≡ begins_id (in_front cursor.entry) }
    {
        cursor.id().is_some()
    }

    fn display() -> &'static str {
        "identifier"
    }
}

/// A number is a `u32`: without a `-`, and below 2^32. Returns Range, at the number, if it has a
/// `-` or is 2^32 or more. Returns Unexpected if the next token is neither an integer nor an
/// identifier.
impl<'a> Parse<'a> for Index<'a> {
    ghost View = { IndexModel };

    ghost view = { plain index_view };

    ghost grammar = { index };

    fn parse(parser: &mut Parser<'a>) -> Result<Self, Error> {
        let span = parser.cur_span();
        if let Ok(name) = parser.take_id() {
            return Ok(Index::Id(Id::new(name, span)));
        }
        let number = u32::parse(parser)?;
        Ok(Index::Num(number, span))
    }
}

/// An identifier, or an integer of any value.
impl<'p> Peek for Index<'p> {
    ghost begins = { at_index };

    fn peek(cursor: Cursor<'_>) -> bool
        ensures { result ≡ begins_index (in_front cursor.entry) }
    {
        cursor.id().is_some() || cursor.integer().is_some()
    }

    fn display() -> &'static str {
        "index"
    }
}
