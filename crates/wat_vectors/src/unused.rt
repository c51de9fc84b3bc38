//! A type of a user's own, whose values begin with one token of a certain content.

ghost use Rattle.std.specs.Prelude.{◌≡◌, List, ℕ};
ghost use Rattle.wat_core.specs.Index.{identifier, name_of};
ghost use Rattle.wat_core.specs.Lookup.{in_front};
ghost use Rattle.wat_core.specs.Parts.{made_where};
ghost use Rattle.wat_core.specs.Test.{run};
ghost use Rattle.wat_core.specs.Views.{plain};
ghost use Rattle.wat_vectors.specs.Unused.{at_unused, is_unused};

use bumpalo::Bump;
use std::test::Fail;
use wat_core::repeat::while_begun;
use wat_core::{Cursor, Error, Fault, Id, Parse, Parser, Peek, Result, TypeUse};

/// An identifier that begins with `_`.
#[derive(Debug, Drop)]
pub struct Unused<'a>(pub Id<'a>);

/// Returns Unexpected, at the next token, if that isn't an identifier that begins with `_`.
impl<'a> Parse<'a> for Unused<'a> {
    ghost View = { List ℕ };

    ghost view = { plain (λ u. name_of u.0) };

    ghost grammar = { made_where is_unused (λ name. name) identifier };

    fn parse(parser: &mut Parser<'a>) -> Result<Self> {
        let id = Id::parse(parser)?;
        if id.name().starts_with("_") {
            Ok(Unused(id))
        } else {
            Err(Error::at(Fault::Unexpected, id.span()))
        }
    }
}

impl Peek for Unused<'_> {
    ghost begins = { at_unused };

    fn peek(cursor: Cursor<'_>) -> bool
        ensures { result ≡ run at_unused (in_front cursor.entry) }
    {
        match cursor.id() {
            Some((name, _)) => name.starts_with("_"),
            None => false,
        }
    }

    fn display() -> &'static str {
        "unused identifier"
    }
}

#[test]
fn an_unused_identifier_is_optional(rt: HostRuntime) -> std::result::Result<(), Fail> {
    let arena = Bump::new(rt.alloc());
    let mut parser = Parser::new(rt.alloc(), "$_x $x", &arena)?;
    let first = parser.parse::<Option<Unused>>()?;
    assert_eq!(rt; first.map(|unused| unused.0.name()), Some("_x"));
    assert!(rt; parser.parse::<Option<Unused>>()?.is_none());
    assert_eq!(rt; parser.parse::<Id>()?.name(), "x");
    assert!(rt; parser.at_end());
    Ok(())
}

#[test]
fn an_unused_identifier_is_in_a_type_use(rt: HostRuntime) -> std::result::Result<(), Fail> {
    let arena = Bump::new(rt.alloc());
    let mut parser = Parser::new(rt.alloc(), "(type 0) $_x (type 0) $x", &arena)?;
    let first = parser.parse::<TypeUse<Unused>>()?;
    assert!(rt; first.index.is_some());
    assert_eq!(rt; first.inline.map(|unused| unused.0.name()), Some("_x"));
    let second = parser.parse::<TypeUse<Unused>>()?;
    assert!(rt; second.index.is_some());
    assert!(rt; second.inline.is_none());
    assert_eq!(rt; parser.parse::<Id>()?.name(), "x");
    Ok(())
}

#[test]
fn unused_identifiers_are_listed(rt: HostRuntime) -> std::result::Result<(), Fail> {
    let arena = Bump::new(rt.alloc());
    let mut parser = Parser::new(rt.alloc(), "$_ $_x $x $_y", &arena)?;
    let mut found = Vec::new(rt.alloc());
    while_begun::<Unused>(&mut parser, &mut found)?;
    assert_eq!(rt; found.len(), 2);
    assert_eq!(rt; found[1].0.name(), "_x");
    assert!(rt; !parser.peek::<Unused>());
    assert!(rt; parser.peek2::<Unused>());
    match parser.parse::<Unused>() {
        Ok(_) => panic!(rt; "another identifier was read"),
        Err(error) => assert_eq!(rt; (error.fault, error.span.offset()), (Fault::Unexpected, 7)),
    }
    Ok(())
}
