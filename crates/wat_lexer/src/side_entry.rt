//! The side table: tokens that aren't read from the text.

ghost use Rattle.std.specs.Prelude.{◌≡◌, ◌<◌, ◌∷◌, [], true, not};
ghost use Rattle.std.specs.Str.{IsUtf8};
ghost use Rattle.wat_lexer.specs.Sight.{is_standard, begins_hidden_group};
ghost use Rattle.wat_lexer.specs.Token.{LParen, is_annotation};
ghost use Rattle.wat_lexer.specs.View.{view, tok_of, text_limit};

use crate::lexeme::{Kind, Lexeme, split};
use crate::number::Integer;
use crate::token::Token;
use std::marker::Model;

/// A token that isn't read from the text, and its offset in bytes.
#[derive(Drop)]
pub struct SideEntry<'a> {
    /// The content of a string, the name of an identifier or an annotation, or the text of any
    /// other token.
    content: &'a [u8],
    /// The token's kind, and its offset in bytes.
    lexeme: Lexeme,
}

const _: () = prove!(size_of::<SideEntry>() == 24);

impl<'a> Model for SideEntry<'a> {
    ghost use Rattle.wat_lexer.specs.Token.{Placed};
    ghost use Rattle.wat_lexer.specs.View.{tok_of, wide, IsContent};

    ghost Value = { Placed };

    ghost view = { λ e. record {
      token = tok_of e.lexeme.kind e.content.now;
      offset = wide
          e.lexeme.low e.lexeme.size;
    } };

    ghost invariant = { λ e. IsContent e.lexeme.kind e.content.now };
}

/// Whether the name is one of the five standard names: `custom`, `producers`, `name`, `dylink.0`,
/// `metadata.code.branch_hint`.
fn is_standard(name: &[u8]) -> bool
    ensures { result ≡ is_standard name.now }
{
    name == "custom".as_bytes()
        || name == "producers".as_bytes()
        || name == "name".as_bytes()
        || name == "dylink.0".as_bytes()
        || name == "metadata.code.branch_hint".as_bytes()
}

/// Builds a token of a kind from its text or its name.
fn token_of(kind: Kind, text: &str) -> Token
    ensures { view result ≡ tok_of kind text.now }
{
    match kind {
        Kind::LParen => Token::LParen,
        Kind::RParen => Token::RParen,
        Kind::Keyword => Token::Keyword(text),
        Kind::Id => Token::Id(text),
        Kind::Annotation => Token::Annotation(text),
        Kind::Integer => Token::Integer(Integer::over(text)),
        Kind::String => Token::String(text.as_bytes()),
        Kind::Reserved | Kind::InSideTable => Token::Reserved(text),
    }
}

impl<'a> SideEntry<'a> {
    /// Builds the entry of a token at an offset in bytes, from its kind and its text or name.
    fn with_text(kind: Kind, text: &'a str, offset: usize) -> SideEntry<'a>
        requires { offset < text_limit }
        ensures { result ≡ record { token = tok_of kind text.now; offset = offset } }
    {
        SideEntry {
            content: text.as_bytes(),
            lexeme: split(kind, offset),
        }
    }

    /// Builds the entry of a token at an offset in bytes.
    pub(crate) fn of(token: Token<'a>, offset: usize) -> SideEntry<'a>
        requires { offset < text_limit }
        ensures { result ≡ record { token = view token.entry; offset = offset } }
    {
        match token {
            Token::LParen => SideEntry::with_text(Kind::LParen, "", offset),
            Token::RParen => SideEntry::with_text(Kind::RParen, "", offset),
            Token::Keyword(text) => SideEntry::with_text(Kind::Keyword, text, offset),
            Token::Id(name) => SideEntry::with_text(Kind::Id, name, offset),
            Token::Annotation(name) => SideEntry::with_text(Kind::Annotation, name, offset),
            Token::Integer(it) => SideEntry::with_text(Kind::Integer, it.text(), offset),
            Token::String(content) => SideEntry {
                content,
                lexeme: split(Kind::String, offset),
            },
            Token::Reserved(text) => SideEntry::with_text(Kind::Reserved, text, offset),
        }
    }

    /// The token.
    // Few tokens are in the side table, so this function isn't inlined.
    #[inline(never)]
    pub(crate) fn token(&self) -> Token<'a>
        ensures { view result ≡ self.now.token }
    {
        match self.lexeme.kind {
            Kind::String => Token::String(self.content),
            kind => token_of(kind, text(self.content)),
        }
    }

    /// Whether the entry of an annotation has a standard name.
    // Few groups begin with an annotation, so this function isn't inlined.
    #[inline(never)]
    pub(crate) fn is_known(&self) -> bool
        requires { is_annotation self.now.token ≡ true }
        ensures { begins_hidden_group true (LParen ∷ self.now.token ∷ []) ≡ not result }
    {
        is_standard(self.content)
    }

    /// The token's offset, in bytes from the start of the text.
    pub(crate) fn offset(&self) -> usize
        ensures { result ≡ self.now.offset }
    {
        self.lexeme.number()
    }

    /// Whether the token is an annotation.
    pub(crate) fn annotates(&self) -> bool
        ensures { result ≡ is_annotation self.now.token }
    {
        matches!(self.lexeme.kind, Kind::Annotation)
    }
}

/// The text of bytes that are UTF-8.
fn text(content: &[u8]) -> &str
    requires { IsUtf8 content.now }
    ensures { result.now ≡ content.now }
{
    match str::from_utf8(content) {
        Ok(text) => text,
        Err(_) => unreachable!(),
    }
}
