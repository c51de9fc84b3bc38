//! Stored tokens: their kinds and their places.

ghost use Rattle.std.specs.Prelude.{◌≡◌, ◌<◌, ◌≤◌, ◌+◌, List, ℕ, length, true, false, IsTrue, ◌↔◌};
ghost use Rattle.wat_lexer.specs.Token.{Placed, is_open};
ghost use Rattle.wat_lexer.specs.View.{found_tok, is_annotation_kind, is_word, wide, own_number, FoundFits, HasRoom, WasKept, near_limit, text_limit};

/// The kind of a stored token: how to read the token from the text, or that it is in the side
/// table.
///
/// This type is public because definitions of specs/View.antt name it.
#[derive(Clone, Copy, Debug)]
pub enum Kind {
    /// `)`
    RParen,
    /// The run is a keyword.
    Keyword,
    /// The run is a `$` and the identifier's name.
    Id,
    /// The run is an integer.
    Integer,
    /// The run is a string without escapes.
    String,
    /// The run has only idchars, and is a reserved token.
    Reserved,
    /// `(`
    LParen,
    /// The token is an annotation in the side table.
    Annotation,
    /// The token is in the side table and isn't an annotation.
    InSideTable,
}

/// The number of tokens that lookups skip from the `(` of an annotation's group on.
#[derive(Clone, Copy, Debug)]
pub struct Skips {
    /// The number if no annotation is known.
    pub all: usize,
    /// The number if the five standard annotations are known.
    pub unknown: usize,
}

impl Skips {
    ghost use Rattle.wat_lexer.specs.View.{skip};

    /// Returns `unknown` if the five standard annotations are known, otherwise `all`.
    pub(crate) fn told(self, known: bool) -> usize
        ensures { result ≡ skip known self }
    {
        if known { self.unknown } else { self.all }
    }
}

/// A stored token. The number of a token is its index in the side table, or, for a token that isn't
/// there, its offset in bytes.
///
/// This type is public because definitions of specs/View.antt name it, and a benchmark measures its
/// size.
#[derive(Clone, Copy, Debug)]
pub struct Lexeme {
    /// The number of a word, or the lower 32 bits of any other token's number.
    low: u32,
    /// The length of a word in bytes, or the upper 16 bits of any other token's number.
    size: u16,
    pub kind: Kind,
}

const _: () = prove!(size_of::<Lexeme>() == 8);

/// A word of this many bytes or more is put into the side table.
pub(crate) const WORD_LIMIT: usize = 0x1_0000;

/// Numbers below this fit in 32 bits. The upper part of a number counts multiples of this.
pub(crate) const NEAR_LIMIT: usize = 0x1_0000_0000;

/// A text of this many bytes or more is refused.
pub(crate) const TEXT_LIMIT: usize = 0x1_0000_0000_0000;

impl Lexeme {
    /// The offset of a word, in bytes. The token must be a word.
    pub(crate) fn word_at(self) -> usize
        ensures { result ≡ self.low }
    {
        self.low as usize
    }

    /// The length of a word, in bytes. The token must be a word.
    pub(crate) fn size(self) -> usize
        ensures { result ≡ self.size }
    {
        self.size as usize
    }

    /// The number of a token that isn't a word.
    pub(crate) fn number(self) -> usize
        ensures { result ≡ wide self.low self.size }
    {
        self.low as usize + NEAR_LIMIT * self.size as usize
    }
}

/// Whether tokens of this kind are `(`.
pub(crate) fn is_open(kind: Kind) -> bool
    ensures { (text : List ℕ) (side_table : List Placed) (at end : ℕ)
        → FoundFits text side_table at end kind
        → result ≡ is_open (found_tok text side_table at end kind) }
{
    matches!(kind, Kind::LParen)
}

/// Whether tokens of this kind are annotations.
pub(crate) fn is_annotation_kind(kind: Kind) -> bool
    ensures { result ≡ is_annotation_kind kind }
{
    matches!(kind, Kind::Annotation)
}

/// Whether tokens of this kind are words: they are read from the text and aren't parens.
pub(crate) fn is_word(kind: Kind) -> bool
    ensures { result ≡ is_word kind }
{
    !matches!(
        kind,
        Kind::LParen | Kind::RParen | Kind::Annotation | Kind::InSideTable
    )
}

/// Whether the word from `at` to `end` fits in a `Lexeme`.
pub(crate) fn has_room(at: usize, end: usize) -> bool
    requires { at < end }
    ensures { IsTrue result ↔ HasRoom at end }
{
    at < NEAR_LIMIT && end - at < WORD_LIMIT
}

/// Stores a kind and a number.
pub(crate) fn split(kind: Kind, number: usize) -> Lexeme
    requires { number < text_limit }
    ensures number { wide result.low result.size ≡ number }
    ensures kind { result.kind ≡ kind }
{
    Lexeme {
        low: (number % NEAR_LIMIT) as u32,
        size: (number / NEAR_LIMIT) as u16,
        kind,
    }
}

/// Stores a token that isn't a word, by its number.
fn numbered(kind: Kind, number: usize) -> Lexeme
    requires no_word { is_word kind ≡ false }
    requires fits { number < text_limit }
    ensures number { own_number result ≡ number }
    ensures kind { result.kind ≡ kind }
{
    split(kind, number)
}

/// Stores the word from `at` to `end`.
fn word(kind: Kind, at: usize, end: usize) -> Lexeme
    requires order { at < end }
    requires room { HasRoom at end }
    requires a_word { is_word kind ≡ true }
    ensures number { own_number result ≡ at }
    ensures end { own_number result + result.size ≡ end }
    ensures kind { result.kind ≡ kind }
{
    Lexeme {
        low: at as u32,
        size: (end - at) as u16,
        kind,
    }
}

/// Stores the token from `at` to `end`. The side table has `side_table` items. If the token is in
/// the side table, it is the last item.
pub(crate) fn kept(kind: Kind, at: usize, end: usize, side_table: usize) -> Lexeme
    requires order { at < end }
    requires room { is_word kind ≡ true → HasRoom at end }
    requires fits { at < text_limit }
    requires few { side_table ≤ text_limit }
    ensures { (text : List ℕ) (lie : List Placed) → length lie ≡ side_table
        → FoundFits text lie at end kind → WasKept text lie at end kind result }
{
    match kind {
        Kind::LParen | Kind::RParen => numbered(kind, at),
        Kind::Annotation | Kind::InSideTable => numbered(kind, side_table.saturating_sub(1)),
        _ => word(kind, at, end),
    }
}

/// Stores a paren in the first 4 GiB of a text.
fn near_paren(kind: Kind, at: usize) -> Lexeme
    requires near { at < near_limit }
    requires no_word { is_word kind ≡ false }
    ensures number { own_number result ≡ at }
    ensures kind { result.kind ≡ kind }
{
    let low = at as u32;
    Lexeme { low, size: 0, kind }
}

/// Stores the token from `at` to `end` in the first 4 GiB of a text. The number of a paren isn't
/// split.
#[inline(always)]
pub(crate) fn kept_near(kind: Kind, at: usize, end: usize, side_table: usize) -> Lexeme
    requires order { at < end }
    requires near { end < near_limit }
    requires room { is_word kind ≡ true → HasRoom at end }
    requires few { side_table ≤ text_limit }
    ensures { (text : List ℕ) (lie : List Placed) → length lie ≡ side_table
        → FoundFits text lie at end kind → WasKept text lie at end kind result }
{
    match kind {
        Kind::LParen | Kind::RParen => near_paren(kind, at),
        Kind::Annotation | Kind::InSideTable => kept(kind, at, end, side_table),
        _ => word(kind, at, end),
    }
}
