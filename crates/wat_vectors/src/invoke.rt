//! A type of a user's own that tokens spell: the call of an exported function, as a script has it.

ghost use Rattle.std.specs.Prelude.{ℕ, List, Option, codes};
ghost use Rattle.wat_print_module.specs.Prelude.{group, name_of, identifier, opt, seq, text, at_id};
ghost use Rattle.wat_core.specs.Views.{plain, option_view};

use bumpalo::Bump;
use std::test::Fail;
use wat_core::enclosed::{Grouped, after_word, in_parens, in_word_group};
use wat_core::{Fault, Id, Parse, Parser, Result};

/// A call of an exported function: the module, if it is named, and the function's name.
#[derive(Debug, Drop)]
pub struct Invoke<'a> {
    pub module: Option<Id<'a>>,
    pub name: &'a str,
}

impl<'a> Parse<'a> for Invoke<'a> {
    ghost View = { Option (List ℕ) × List ℕ };

    ghost view = { plain (λ i. (option_view name_of i.module, i.name.now)) };

    ghost grammar = { group (codes "invoke") (seq (opt at_id identifier) text) };

    fn parse(parser: &mut Parser<'a>) -> Result<Self> {
        parser.open()?;
        parser.keyword("invoke")?;
        let module = Option::<Id>::parse(parser)?;
        let name = <&str as Parse>::parse(parser)?;
        parser.close()?;
        Ok(Invoke { module, name })
    }
}

#[test]
fn an_invoke_is_read(rt: HostRuntime) -> std::result::Result<(), Fail> {
    let arena = Bump::new(rt.alloc());
    let mut parser = Parser::new(rt.alloc(), "(invoke $m \"f\") (invoke)", &arena)?;
    let call = parser.parse::<Invoke>()?;
    assert_eq!(rt; call.module.map(|id| id.name()), Some("m"));
    assert_eq!(rt; call.name, "f");
    match parser.parse::<Invoke>() {
        Ok(_) => panic!(rt; "a call without a name was read"),
        Err(error) => assert_eq!(rt; error.fault, Fault::Unexpected),
    }
    Ok(())
}

#[test]
fn an_enclosed_invoke_is_read(rt: HostRuntime) -> std::result::Result<(), Fail> {
    let arena = Bump::new(rt.alloc());
    let text = "((invoke \"a\")) w (invoke \"b\") (w (invoke \"c\")) ((invoke \"d\"))";
    let mut parser = Parser::new(rt.alloc(), text, &arena)?;
    assert_eq!(rt; in_parens::<Invoke>(&mut parser)?.name, "a");
    assert_eq!(rt; after_word::<Invoke>(&mut parser, "w")?.name, "b");
    assert_eq!(rt; in_word_group::<Invoke>(&mut parser, "w")?.name, "c");
    assert_eq!(rt; parser.parse::<Grouped<Invoke>>()?.0.name, "d");
    assert!(rt; parser.at_end());
    Ok(())
}

/// What a value is refused with, and where.
fn refusal<T: Drop>(outcome: Result<T>) -> Option<(Fault, usize)> {
    outcome
        .err()
        .map(|error| (error.fault, error.span.offset()))
}

#[test]
fn an_invoke_that_is_not_enclosed_is_refused(rt: HostRuntime) -> std::result::Result<(), Fail> {
    let arena = Bump::new(rt.alloc());
    let mut parser = Parser::new(rt.alloc(), "((invoke \"a\") 1)", &arena)?;
    let found = refusal(in_parens::<Invoke>(&mut parser));
    assert_eq!(rt; found, Some((Fault::Unexpected, 14)));
    let mut parser = Parser::new(rt.alloc(), "v (invoke \"b\")", &arena)?;
    let found = refusal(after_word::<Invoke>(&mut parser, "w"));
    assert_eq!(rt; found, Some((Fault::Unexpected, 0)));
    let mut parser = Parser::new(rt.alloc(), "(v (invoke \"c\"))", &arena)?;
    let found = refusal(in_word_group::<Invoke>(&mut parser, "w"));
    assert_eq!(rt; found, Some((Fault::Unexpected, 1)));
    let mut parser = Parser::new(rt.alloc(), "(invoke \"d\")", &arena)?;
    let found = refusal(parser.parse::<Grouped<Invoke>>());
    assert_eq!(rt; found, Some((Fault::Unexpected, 1)));
    Ok(())
}
