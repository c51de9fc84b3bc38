//! Values in parentheses, or after a keyword.
//!
//! These functions are generic to keep proofs fast. A body that holds a value of a large type
//! across a call that may fail has to drop the value if the call fails, and is slow to prove.

ghost use Rattle.wat_tokens.specs.Prelude.{group, paren, after_word, ReadsAt, holding};

use crate::parser::Parser;
use crate::traits::Parse;
use wat_lexer::fault::Error;

/// Reads `(`, a `T` and `)`.
///
/// Returns Unexpected if a parenthesis is missing, and the error of `T` if the `T` is invalid.
pub fn in_parens<'a, T: Parse<'a> + Drop>(parser: &mut Parser<'a>) -> Result<T, Error>
    ensures reads { ReadsAt T.cost T.view (paren T.grammar) result parser.old parser.new }
{
    parser.open()?;
    let found = T::parse(parser);
    if found.is_err() {
        return found;
    }
    parser.close()?;
    found
}

/// Reads the keyword `word`, and then a `T`.
///
/// Returns Unexpected if the keyword is missing, and the error of `T` if the `T` is invalid.
pub fn after_word<'a, T: Parse<'a>>(parser: &mut Parser<'a>, word: &str) -> Result<T, Error>
    ensures reads { ReadsAt T.cost T.view (after_word word.now T.grammar) result parser.old
        parser.new }
{
    parser.keyword(word)?;
    T::parse(parser)
}

/// Reads a group that begins with a keyword: `(`, `word`, a `T` and `)`.
///
/// Returns Unexpected if a parenthesis or the keyword is missing, and the error of `T` if the `T`
/// is invalid.
pub fn in_word_group<'a, T: Parse<'a> + Drop>(
    parser: &mut Parser<'a>,
    word: &str,
) -> Result<T, Error>
    ensures reads { ReadsAt T.cost T.view (group word.now T.grammar) result parser.old parser.new }
{
    parser.open()?;
    parser.keyword(word)?;
    let found = T::parse(parser);
    if found.is_err() {
        return found;
    }
    parser.close()?;
    found
}

/// A value in parentheses, as a type. [`in_parens`] reads the value.
#[derive(Drop)]
pub struct Grouped<T>(pub T);

/// `(` T `)`
impl<'a, T: Parse<'a> + Drop> Parse<'a> for Grouped<T> {
    ghost View = { T.View };

    ghost view = { holding T.view (λ g. T.view.of g.0) T.view.heapless };

    ghost cost = { T.cost };

    ghost grammar = { paren T.grammar };

    fn parse(parser: &mut Parser<'a>) -> Result<Self, Error> {
        Ok(Grouped(in_parens::<T>(parser)?))
    }
}
