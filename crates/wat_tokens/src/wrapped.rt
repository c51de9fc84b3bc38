//! Optional and boxed values.

ghost use Rattle.std.specs.Prelude.{false, Option};
ghost use Rattle.wat_tokens.specs.Parts.{opt};
ghost use Rattle.wat_tokens.specs.Views.{owning, optional};

use crate::parser::Parser;
use crate::traits::{Parse, Peek};
use wat_lexer::fault::Error;

/// A `T` if the next tokens begin a `T`. Otherwise None, and the parse takes no token.
impl<'a, T: Parse<'a> + Peek> Parse<'a> for Option<T> {
    ghost View = { Option T.View };

    ghost view = { optional T.view };

    ghost cost = { T.cost };

    ghost grammar = { opt T.begins T.grammar };

    fn parse(parser: &mut Parser<'a>) -> Result<Self, Error> {
        if parser.peek::<T>() {
            Ok(Some(T::parse(parser)?))
        } else {
            Ok(None)
        }
    }
}

/// A `T`, in a box. Returns Memory if the box can't be allocated.
impl<'a, T: Parse<'a> + Drop> Parse<'a> for Box<T> {
    ghost View = { T.View };

    ghost view = { owning (λ b. T.view.of b.value) (λ _. false) };

    ghost cost = { T.cost };

    ghost grammar = { T.grammar };

    fn parse(parser: &mut Parser<'a>) -> Result<Self, Error> {
        let value = T::parse(parser)?;
        Ok(Box::new(parser.alloc(), value)?)
    }
}
