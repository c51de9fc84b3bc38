//! A type of a user's own that is a list, read as long as one more part begins.

ghost use Rattle.std.specs.Prelude.{ℕ, List, map, codes};
ghost use Rattle.std.proofs.Common.{lit≤};
ghost use Rattle.wat_print_module.specs.Prelude.{group, identifier, name_of, many, at_id, owning, no_items};

use bumpalo::Bump;
use std::test::Fail;
use wat_core::repeat::while_begun;
use wat_core::{Fault, Id, Parse, Parser, Result, Span};

/// A path of names: `( path id* )`.
#[derive(Debug, Drop)]
pub struct Path<'a>(Vec<Id<'a>>);

impl<'a> Parse<'a> for Path<'a> {
    ghost View = { List (List ℕ) };

    ghost view = { owning (λ p. map name_of p.0.items) no_items };

    ghost grammar = { group (codes "path") (many at_id identifier (lit≤ tt)) };

    fn parse(parser: &mut Parser<'a>) -> Result<Self> {
        parser.open()?;
        parser.keyword("path")?;
        let mut names = Vec::new(parser.alloc());
        while_begun::<Id>(parser, &mut names)?;
        parser.close()?;
        Ok(Path(names))
    }
}

#[test]
fn a_path_is_read(rt: HostRuntime) -> std::result::Result<(), Fail> {
    let arena = Bump::new(rt.alloc());
    let mut parser = Parser::new(rt.alloc(), "(path $a $b) (path) (path 1)", &arena)?;
    let nowhere = Span::from_offset(0);
    let names = [Id::new("a", nowhere), Id::new("b", nowhere)];
    assert_eq!(rt; parser.parse::<Path>()?.0.as_slice(), names.as_slice());
    assert!(rt; parser.parse::<Path>()?.0.is_empty());
    match parser.parse::<Path>() {
        Ok(_) => panic!(rt; "a path with a number was read"),
        Err(error) => assert_eq!(rt; error.fault, Fault::Unexpected),
    }
    Ok(())
}
