//! The traits of types that can be read, and of types that can be recognized by lookahead.

ghost use Rattle.std.specs.Prelude.{◌≡◌, IfErr, true};
ghost use Rattle.wat_tokens.specs.Cost.{Cost, tokens_alone, Costs};
ghost use Rattle.wat_tokens.specs.Counts.{Counted, Turned, SameSettings};
ghost use Rattle.wat_tokens.specs.Error.{Memory};
ghost use Rattle.wat_tokens.specs.Lookup.{in_front};
ghost use Rattle.wat_tokens.specs.Outcome.{ReadsPrefix, TakesPrefix};
ghost use Rattle.wat_tokens.specs.Parses.{Gives};
ghost use Rattle.wat_tokens.specs.Production.{Production};
ghost use Rattle.wat_tokens.specs.Reads.{ReadsAt};
ghost use Rattle.wat_tokens.specs.Test.{Test, run};
ghost use Rattle.wat_tokens.specs.Tests.{second};
ghost use Rattle.wat_tokens.specs.Views.{ViewOf};

use crate::cursor::Cursor;
use crate::parser::Parser;
use wat_lexer::fault::Error;

/// A type whose values can be read from tokens.
pub trait Parse<'a>: Sized {
    /// The type of a value's view, which contracts see: without positions and references.
    ghost View: { Type 0 };

    /// The view of each value, and whether values own heap memory.
    ghost view: { ViewOf Self View };

    /// The counters that a parse may change besides `taken`.
    ghost cost: { Cost } = { tokens_alone };

    /// Which tokens spell a value, and how a parse reads them.
    ghost grammar: { Production View };

    /// Takes the tokens of the next value, and returns the value.
    ///
    /// If the next tokens spell no value, returns the first error that the parse meets. The parser
    /// then has some suffix of its tokens left.
    ///
    /// If the next tokens spell a value, returns Memory only if the value holds a box or a
    /// nonempty list. If they spell no value, returns Memory only if the type can hold a box or a
    /// list.
    fn parse(parser: &mut Parser<'a>) -> Result<Self, Error>
        ensures reads { ReadsAt cost view grammar result parser.old parser.new };
}

/// A type whose values are recognized by their first tokens.
pub trait Peek {
    /// Which tokens begin a value.
    ghost begins: { Test };

    /// Returns whether the tokens at the cursor begin a value.
    fn peek(cursor: Cursor<'_>) -> bool
        ensures { result ≡ run begins (in_front cursor.entry) };

    /// Returns whether the tokens after the cursor's next token begin a value. Returns false if no
    /// token is left.
    fn peek2(cursor: Cursor<'_>) -> bool
        ensures { result ≡ second (λ r. run begins r) (in_front cursor.entry) }
    {
        match cursor.any() {
            Some(rest) => Self::peek(rest),
            None => false,
        }
    }

    /// Returns the name that messages use for such a value.
    fn display() -> &'static str;
}

impl<'a> Parser<'a> {
    /// Takes the tokens of the next `T`, and returns the value.
    ///
    /// If the next tokens spell no value, returns the first error that the parse meets. The parser
    /// then has some suffix of its tokens left.
    pub fn parse<T: Parse<'a>>(&mut self) -> Result<T, Error>
        // The tokens that were taken spell the value. If the next tokens spell a value, the call
        // returns that value or Memory: `sound`, `accepts`, `refused`.
        ensures reads { ReadsPrefix T.view T.grammar result self.old self.new }
        // Only types that can hold a vector or a box return Memory.
        ensures memory { IfErr result (λ e. e.fault ≡ Memory → T.view.may_use_heap ≡ true) }
        // The tokens left are a suffix of the old ones, with the same offsets, also on an error.
        // The tokens taken are counted: `end`, `position`, `taken`, `within`, `peak`, `grows`.
        ensures takes { TakesPrefix self.old self.new }
        // `turns` rises at most as much as `taken`, or by one more on an error.
        ensures turned { Turned result self.old self.new }
        ensures exact { Gives T.view result (T.grammar.reads self.old.left) self.new.left }
        ensures counts { Counted result self.old self.new }
        ensures cost { Costs T.cost self.old self.new }
        ensures settings { SameSettings self.old self.new }
    {
        T::parse(self)
    }

    /// Returns whether the next tokens begin a `T`.
    #[inline(always)]
    pub fn peek<T: Peek>(&self) -> bool
        ensures { result ≡ run T.begins self.now.left }
    {
        T::peek(self.cursor())
    }

    /// Returns whether the tokens after the next token begin a `T`. Returns false if no token is
    /// left.
    #[inline(always)]
    pub fn peek2<T: Peek>(&self) -> bool
        ensures { result ≡ second (λ r. run T.begins r) self.now.left }
    {
        T::peek2(self.cursor())
    }
}
