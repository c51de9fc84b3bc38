//! Lookahead at the next tokens. A lookup takes no token.

ghost use Rattle.std.specs.Prelude.{◌≡◌, ◌≤◌, length, drop};
ghost use Rattle.wat_lexer.specs.Prelude.{hidden_count, visible_tokens, AreSkips, entry_tokens};

use crate::next_visible::next_visible;
use wat_lexer::number::Integer;
use wat_lexer::token::Token;
use wat_lexer::tokens::Tokens;

/// A position in the tokens of a text. A lookup reads the token at the position, and doesn't take
/// the token.
///
/// If the next token has the wanted kind, a lookup returns the position after that token, with the
/// token's content. Otherwise, and at the end of the text, the lookup returns None.
///
/// A lookup skips the group of an annotation that isn't known (Text Format, "Annotations"). The
/// lookup takes the same time for any number of such groups.
#[derive(Clone, Copy)]
pub struct Cursor<'p> {
    tokens: &'p Tokens<'p>,
    /// The index of the next visible token, or the number of all tokens if there is none.
    at: usize,
    known: bool,
    ghost within: { at ≤ length tokens.now },
    ghost skips: { AreSkips tokens.now },
    ghost shows: { hidden_count known (entry_tokens (drop at tokens.now)) ≡ 0 },
}

impl<'p> Cursor<'p> {
    ghost use Rattle.wat_lexer.specs.Integer.{text_of};
    ghost use Rattle.wat_tokens.specs.Lookup.{in_front, NextIs, GivesRest, GivesContent};
    ghost use Rattle.wat_tokens.specs.Tests.{as_any, as_lparen, as_rparen, as_keyword, as_id};
    ghost use Rattle.wat_tokens.specs.Tests.{as_annotation, as_integer, as_string};
    ghost use Rattle.wat_tokens.specs.Tests.{begins_word, begins_group, begins_annotation};

    /// Returns a cursor at the index `at`: the index of a visible token, or the number of all
    /// tokens. If `known` is true, the five standard annotations are known.
    #[inline(always)]
    pub(crate) fn new(tokens: &'p Tokens<'p>, at: usize, known: bool) -> Cursor<'p>
        requires within { at ≤ length tokens.now }
        requires skips { AreSkips tokens.now }
        requires shows { hidden_count known (entry_tokens (drop at tokens.now)) ≡ 0 }
        ensures { in_front result ≡ visible_tokens known (entry_tokens (drop at tokens.entry.now)) }
    {
        Cursor { tokens, at, known }
    }

    /// Returns a cursor at the first visible token from the index `place` on.
    #[inline(always)]
    fn moved_to(self, place: usize) -> Cursor<'p>
        requires { place ≤ length self.tokens.now }
        ensures { in_front result ≡ visible_tokens self.entry.known
            (entry_tokens (drop place self.entry.tokens.now)) }
    {
        let at = next_visible(self.tokens, place, self.known);
        Cursor::new(self.tokens, at, self.known)
    }

    /// Returns the next token and the position after it.
    #[inline(always)]
    #[tactic(auto, using(crate::proofs::Steps::front_steps))]
    fn next(self) -> Option<(Token<'p>, Cursor<'p>)>
        ensures { NextIs result (in_front self.entry) }
    {
        if self.at < self.tokens.len() {
            Some((self.tokens.token(self.at), self.moved_to(self.at + 1)))
        } else {
            None
        }
    }

    /// If the next token is a `(`, returns the position after it. Reads only the token's kind.
    #[inline(always)]
    #[tactic(auto, using(crate::proofs::Steps::paren_steps, crate::proofs::Steps::front_steps))]
    pub fn lparen(self) -> Option<Cursor<'p>>
        ensures { GivesRest as_lparen (in_front self.entry) result }
    {
        if self.at < self.tokens.len() && self.tokens.opens(self.at) {
            Some(self.moved_to(self.at + 1))
        } else {
            None
        }
    }

    /// If the next token is a `)`, returns the position after it. Reads only the token's kind.
    #[inline(always)]
    #[tactic(auto, using(crate::proofs::Steps::paren_steps, crate::proofs::Steps::front_steps))]
    pub fn rparen(self) -> Option<Cursor<'p>>
        ensures { GivesRest as_rparen (in_front self.entry) result }
    {
        if self.at < self.tokens.len() && self.tokens.closes(self.at) {
            Some(self.moved_to(self.at + 1))
        } else {
            None
        }
    }

    /// Returns the position after the next token, of any kind.
    #[inline(always)]
    #[tactic(auto, using(crate::proofs::Steps::front_steps))]
    pub fn any(self) -> Option<Cursor<'p>>
        ensures { GivesRest as_any (in_front self.entry) result }
    {
        if self.at < self.tokens.len() {
            Some(self.moved_to(self.at + 1))
        } else {
            None
        }
    }

    /// If the next token is a keyword (Text Format, "Tokens"), returns the keyword and the position
    /// after it.
    #[inline(always)]
    pub fn keyword(self) -> Option<(&'p str, Cursor<'p>)>
        ensures { GivesContent (λ w. w.now) as_keyword (in_front self.entry) result }
    {
        let (token, rest) = self.next()?;
        match token {
            Token::Keyword(content) => Some((content, rest)),
            _ => None,
        }
    }

    /// If the next token is an identifier (Text Format, "Identifiers"), returns its name without
    /// the `$`, and the position after it.
    #[inline(always)]
    pub fn id(self) -> Option<(&'p str, Cursor<'p>)>
        ensures { GivesContent (λ n. n.now) as_id (in_front self.entry) result }
    {
        let (token, rest) = self.next()?;
        match token {
            Token::Id(content) => Some((content, rest)),
            _ => None,
        }
    }

    /// If the next token is an annotation (Text Format, "Annotations"), returns its name without
    /// the `@`, and the position after it. For any other token, reads only the kind.
    #[tactic(auto, using(crate::proofs::Steps::annotation_none, crate::proofs::Steps::front_steps))]
    pub fn annotation(self) -> Option<(&'p str, Cursor<'p>)>
        ensures { GivesContent (λ n. n.now) as_annotation (in_front self.entry) result }
    {
        if self.at >= self.tokens.len() || !self.tokens.annotates(self.at) {
            return None;
        }
        match self.tokens.token(self.at) {
            Token::Annotation(content) => Some((content, self.moved_to(self.at + 1))),
            _ => None,
        }
    }

    /// If the next token is an integer (Text Format, "Integers"), returns the integer and the
    /// position after it.
    #[inline(always)]
    pub fn integer(self) -> Option<(Integer<'p>, Cursor<'p>)>
        ensures { GivesContent text_of as_integer (in_front self.entry) result }
    {
        let (token, rest) = self.next()?;
        match token {
            Token::Integer(content) => Some((content, rest)),
            _ => None,
        }
    }

    /// If the next token is a string (Text Format, "Strings"), returns its decoded bytes and the
    /// position after it.
    #[inline(always)]
    pub fn string(self) -> Option<(&'p [u8], Cursor<'p>)>
        ensures { GivesContent (λ s. s.now) as_string (in_front self.entry) result }
    {
        let (token, rest) = self.next()?;
        match token {
            Token::String(content) => Some((content, rest)),
            _ => None,
        }
    }

    /// Returns whether the next token is the keyword `word`.
    #[inline(always)]
    pub fn keyword_is(self, word: &str) -> bool
        ensures { result ≡ begins_word word.now (in_front self.entry) }
    {
        match self.keyword() {
            Some((text, _)) => text == word,
            None => false,
        }
    }

    /// Returns whether the next two tokens are a `(` and the keyword `word`.
    #[inline(always)]
    pub fn group_is(self, word: &str) -> bool
        ensures { result ≡ begins_group word.now (in_front self.entry) }
    {
        match self.lparen() {
            Some(inside) => inside.keyword_is(word),
            None => false,
        }
    }

    /// Returns whether the next two tokens are a `(` and the annotation `name`, which is given
    /// without its `@`.
    pub fn annotation_is(self, name: &str) -> bool
        ensures { result ≡ begins_annotation name.now (in_front self.entry) }
    {
        match self.lparen() {
            Some(inside) => match inside.annotation() {
                Some((text, _)) => text == name,
                None => false,
            },
            None => false,
        }
    }
}
