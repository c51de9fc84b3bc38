//! The tokens of a text.

ghost use Rattle.std.specs.Prelude.{◌≡◌, ◌≤◌, ◌<◌, ◌+◌, ◌∷◌, [], true, length, slice_range};
ghost use Rattle.std.proofs.Math.ListN.{get_or, set};
ghost use Rattle.wat_lexer.specs.Sight.{begins_hidden_group};
ghost use Rattle.wat_lexer.specs.Token.{LParen, is_open, is_close, is_annotation};
ghost use Rattle.wat_lexer.specs.View.{view, tok_at, lies, entries_of, Readable, Word, AllCanBeRead, AllApart, HasSkips, skipping, no_entry, skip, most_items};

use crate::class::part;
use crate::lexeme::{Kind, Lexeme, Skips};
use crate::number::Integer;
use crate::side_entry::SideEntry;
use crate::token::Token;
use std::marker::Model;

/// The tokens of a text with their offsets. Each token takes 8 bytes, and is read from the text
/// whenever it is requested. Tokens that aren't read from the text are in a side table. For each
/// annotation, the number of tokens that lookups skip at its group is stored too.
#[derive(Drop)]
pub struct Tokens<'a> {
    text: &'a str,
    lexemes: Vec<Lexeme>,
    side_table: Vec<SideEntry<'a>>,
    /// The skips of annotation groups, by the index of the annotation in the side table.
    skips: Vec<Skips>,
}

impl<'a> Model for Tokens<'a> {
    ghost use Rattle.std.specs.Prelude.{List, length, ◌≤◌};
    ghost use Rattle.wat_lexer.specs.Token.{Entry};
    ghost use Rattle.wat_lexer.specs.View.{entries_of, most_items, AllCanBeRead, AllApart, HasSkips};

    ghost Value = { List Entry };

    ghost view = { λ t. entries_of t.text.now t.side_table.items t.skips.items t.lexemes.items };

    ghost invariant = { λ t. AllCanBeRead t.text.now t.side_table.items t.lexemes.items
        × AllApart t.lexemes.items × HasSkips t.side_table.items t.skips.items
        × (length t.lexemes.items ≤ most_items) };
}

impl<'a> Tokens<'a> {
    /// Builds the tokens of a text from their stored parts.
    pub(crate) fn of(
        text: &'a str,
        lexemes: Vec<Lexeme>,
        side_table: Vec<SideEntry<'a>>,
        skips: Vec<Skips>,
    ) -> Tokens<'a>
        requires fit { AllCanBeRead text.now side_table.items lexemes.items }
        requires apart { AllApart lexemes.items }
        requires skips { HasSkips side_table.items skips.items }
        requires small { length lexemes.items ≤ most_items }
        ensures { result ≡ entries_of text.entry.now side_table.entry.items skips.items
            lexemes.items }
    {
        Tokens {
            text,
            lexemes,
            side_table,
            skips,
        }
    }

    /// Returns the number of tokens.
    pub fn len(&self) -> usize
        ensures value { result ≡ length self.now }
        ensures small { result ≤ most_items }
    {
        self.lexemes.len()
    }

    /// Returns whether the token at an index is `(`.
    pub fn opens(&self, at: usize) -> bool
        requires { at < length self.now }
        ensures { result ≡ is_open ((get_or self.now at no_entry).token) }
    {
        matches!(self.lexemes[at].kind, Kind::LParen)
    }

    /// Returns whether the token at an index is `)`.
    pub fn closes(&self, at: usize) -> bool
        requires { at < length self.now }
        ensures { result ≡ is_close ((get_or self.now at no_entry).token) }
    {
        matches!(self.lexemes[at].kind, Kind::RParen)
    }

    /// Returns whether the token at an index is an annotation.
    pub fn annotates(&self, at: usize) -> bool
        requires { at < length self.now }
        ensures { result ≡ is_annotation ((get_or self.now at no_entry).token) }
    {
        matches!(self.lexemes[at].kind, Kind::Annotation)
    }

    /// Whether the token at an index is an annotation that isn't known. If `known` is true, the five
    /// standard annotations are known, otherwise no annotation is known.
    #[inline(always)]
    pub(crate) fn hides(&self, at: usize, known: bool) -> bool
        requires { at < length self.now }
        ensures { result ≡ begins_hidden_group known (LParen ∷ (get_or self.now at no_entry).token ∷ []) }
    {
        let lexeme = self.lexemes[at];
        match lexeme.kind {
            Kind::Annotation => !(known && self.side_table[lexeme.number()].is_known()),
            _ => false,
        }
    }

    /// Returns the token at an index.
    // Inlining leaves out the kinds of tokens that the caller doesn't need.
    #[inline(always)]
    pub fn token(&self, at: usize) -> Token<'a>
        requires { at < length self.now }
        ensures { view result ≡ (get_or self.now at no_entry).token }
    {
        let lexeme = self.lexemes[at];
        read(
            self.text,
            lexeme.kind,
            lexeme.word_at(),
            lexeme.size(),
            &self.side_table,
            lexeme.number(),
        )
    }

    /// Returns the offset of the token at an index, in bytes from the start of the text.
    pub fn offset(&self, at: usize) -> usize
        requires { at < length self.now }
        ensures { result ≡ (get_or self.now at no_entry).offset }
    {
        let lexeme = self.lexemes[at];
        match lexeme.kind {
            Kind::Annotation | Kind::InSideTable => self.side_table[lexeme.number()].offset(),
            Kind::LParen | Kind::RParen => lexeme.number(),
            _ => lexeme.word_at(),
        }
    }

    /// The number of tokens that lookups skip from the `(` before the annotation at index `at` on.
    /// Returns 0 if the token at `at` isn't an annotation. If `known` is true, the five standard
    /// annotations are known, otherwise no annotation is known.
    pub(crate) fn skip(&self, at: usize, known: bool) -> usize
        requires { at < length self.now }
        ensures { result ≡ skip known (get_or self.now at no_entry).skips }
    {
        let lexeme = self.lexemes[at];
        match lexeme.kind {
            Kind::Annotation => self.skips[lexeme.number()].told(known),
            _ => 0,
        }
    }

    /// Stores how many tokens lookups skip from the `(` before the annotation at index `at` on.
    pub(crate) fn set_skips(&mut self, at: usize, skips: Skips)
        requires place { at < length self.old }
        requires annotates { is_annotation ((get_or self.old at no_entry).token) ≡ true }
        ensures { self.new ≡ set self.old at (skipping self.old at skips) }
    {
        let number = self.lexemes[at].number();
        self.skips[number] = skips;
    }
}

/// The run from `from` to `end`, without its first `front` bytes.
#[inline(always)]
#[tactic(auto, using(crate::proofs::Plain::plain_ascii))]
fn word<'a>(text: &'a str, from: usize, front: usize, end: usize) -> &'a str
    requires { Word front text.now from end }
    ensures { result.now ≡ slice_range text.now (from + front) end }
{
    part(text, from + front, end)
}

/// Reads the token of a kind. A word is read from the text: `size` bytes from `from` on. Any other
/// token except a paren is read from the side table, at index `place`.
#[inline(always)]
pub(crate) fn read<'a>(
    text: &'a str,
    kind: Kind,
    from: usize,
    size: usize,
    side_table: &[SideEntry<'a>],
    place: usize,
) -> Token<'a>
    requires { Readable kind text.now from (from + size) (place < length side_table.now)
        (lies side_table.now place) }
    ensures { view result ≡ tok_at kind text.now from (from + size) (lies side_table.now place) }
{
    match kind {
        Kind::LParen => Token::LParen,
        Kind::RParen => Token::RParen,
        Kind::Keyword => Token::Keyword(word(text, from, 0, from + size)),
        Kind::Id => Token::Id(word(text, from, 1, from + size)),
        Kind::Integer => Token::Integer(Integer::over(word(text, from, 0, from + size))),
        Kind::String => Token::String(&text.as_bytes()[from + 1..from + size - 1]),
        Kind::Reserved => Token::Reserved(word(text, from, 0, from + size)),
        Kind::Annotation | Kind::InSideTable => side_table[place].token(),
    }
}
