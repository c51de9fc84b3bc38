//! A short text for the beginning of a long field, after which the same tokens are possible.
//!
//! The tokens that are possible after the beginning of a field depend on the open groups and blocks,
//! and on the first and last items of these. So the beginning is shortened:
//!
//! - a long open group keeps only its first and last items;
//! - a long instruction in parentheses becomes `(nop)`;
//! - a long string becomes the empty string.
//!
//! It is not proved that the same tokens are possible after both texts. A caller first checks that
//! the short text begins a field.

use crate::words::INNER_WORDS;
use std::alloc::{AllocError, Global};
use wat_core::Token;
use wat_core::wat_lexer::scan::run_end;
use wat_core::wat_lexer::tokens::Tokens;
use wat_report::FIELD_WORDS;

/// The number of items that stay at the beginning and at the end of an open group.
const STAYING: usize = 16;

/// The number of items at which an open group is shortened.
const MOST_ITEMS: usize = 64;

/// The maximum number of tokens of a closed group that stays as it is.
const MOST_TOKENS: usize = 64;

/// The maximum length of a string that stays as it is, in bytes.
const LONGEST_STRING: usize = 64;

/// A piece of the short text.
#[derive(Clone, Copy)]
enum Piece {
    /// A token, by its index.
    Token(usize),
    /// The instruction `nop`.
    Nop,
}

/// The kind of the token that an item begins with.
#[derive(Clone, Copy, PartialEq, Eq)]
enum Kind {
    Group,
    Word,
    Identifier,
    Integer,
    String,
    Other,
}

/// An open group, or an open block. The word `end` closes a block.
#[derive(Clone, Copy)]
struct Level {
    /// The number of items before the items of the group or block.
    first: usize,
    is_block: bool,
}

/// The beginning of a field, shortened.
#[derive(Drop)]
struct Shortened {
    pieces: Vec<Piece>,
    /// The items of the open groups and blocks, the outermost first: each is the index of its first
    /// piece. An item is a token, a group or a block.
    items: Vec<usize>,
    levels: Vec<Level>,
}

/// Returns the word at an index, or `""` if the token there isn't a word.
pub(crate) fn word_at<'a>(tokens: &Tokens<'a>, index: usize) -> &'a str {
    if index >= tokens.len() {
        return "";
    }
    match tokens.token(index) {
        Token::Keyword(word) => word,
        _ => "",
    }
}

/// Returns whether the word is the mnemonic of an instruction.
fn is_mnemonic(word: &str) -> bool {
    !word.is_empty()
        && !FIELD_WORDS.iter().any(|field| field.word() == word)
        && !INNER_WORDS.iter().any(|inner| *inner == word)
}

/// Returns whether the word begins a block if it isn't directly after a `(`.
fn begins_block(word: &str) -> bool {
    matches!(word, "block" | "loop" | "if" | "try_table")
}

impl Shortened {
    /// Returns the kind of the item at an index.
    fn kind_at(&self, tokens: &Tokens, index: usize) -> Kind {
        let Some(first) = self.items.get(index) else {
            return Kind::Other;
        };
        match self.pieces.get(*first) {
            Some(Piece::Token(at)) if *at < tokens.len() => match tokens.token(*at) {
                Token::LParen => Kind::Group,
                Token::Keyword(_) => Kind::Word,
                Token::Id(_) => Kind::Identifier,
                Token::Integer(_) => Kind::Integer,
                Token::String(_) => Kind::String,
                _ => Kind::Other,
            },
            Some(Piece::Nop) => Kind::Word,
            _ => Kind::Other,
        }
    }

    /// Returns the index of the first item that is a word, from an index up to an end. Returns `from` if
    /// there is no such item.
    fn first_word(&self, tokens: &Tokens, from: usize, to: usize) -> usize {
        for index in from..to {
            if self.kind_at(tokens, index) == Kind::Word {
                return index;
            }
        }
        from
    }

    /// Returns the index of the last item before an end that has the kind of the item at an index.
    /// Returns `from` if there is no such item.
    fn last_alike(&self, tokens: &Tokens, from: usize, to: usize) -> usize {
        let kind = self.kind_at(tokens, from);
        for index in (from..to).rev() {
            if self.kind_at(tokens, index) == kind {
                return index;
            }
        }
        from
    }

    /// Removes the items from an index up to another.
    fn remove(&mut self, from: usize, to: usize) -> Result<(), AllocError> {
        let alloc = *self.items.allocator();
        let (Some(first), Some(end)) = (self.items.get(from), self.items.get(to)) else {
            return Ok(());
        };
        let (first, end) = (*first, *end);
        let (Some(pieces), Some(items)) = (self.pieces.get(end..), self.items.get(to..)) else {
            return Ok(());
        };
        let (pieces, items) = (pieces.to_vec(alloc)?, items.to_vec(alloc)?);
        self.pieces.truncate(first);
        self.pieces.extend_from_slice(&pieces)?;
        self.items.truncate(from);
        for item in &items {
            self.items
                .push(item.saturating_sub(end.saturating_sub(first)))?;
        }
        Ok(())
    }

    /// Removes items in the middle of the innermost group or block, if it has many.
    fn shorten(&mut self, tokens: &Tokens) -> Result<(), AllocError> {
        let first = self.levels.last().map_or(0, |level| level.first);
        let count = self.items.len().saturating_sub(first);
        if count < MOST_ITEMS || count % STAYING != 0 {
            return Ok(());
        }
        let to = self.items.len().saturating_sub(STAYING);
        let from = self.first_word(tokens, first.saturating_add(STAYING), to);
        let to = self.last_alike(tokens, from, to);
        if from < to {
            self.remove(from, to)?;
        }
        Ok(())
    }

    /// Adds an item that begins with a token.
    fn begin(&mut self, tokens: &Tokens, index: usize) -> Result<(), AllocError> {
        self.shorten(tokens)?;
        self.items.push(self.pieces.len())?;
        self.pieces.push(Piece::Token(index))?;
        Ok(())
    }

    /// Adds the first token of a group or a block.
    fn open(&mut self, tokens: &Tokens, index: usize, is_block: bool) -> Result<(), AllocError> {
        self.begin(tokens, index)?;
        let first = self.items.len();
        self.levels.push(Level { first, is_block })?;
        Ok(())
    }

    /// Returns whether the item that begins at a piece is a group that is an instruction.
    fn is_instruction(&self, tokens: &Tokens, first: usize) -> bool {
        match self.pieces.get(first.saturating_add(1)) {
            Some(Piece::Token(word)) => is_mnemonic(word_at(tokens, *word)),
            _ => false,
        }
    }

    /// Replaces a closed group or block that is an instruction and has many tokens.
    fn replace(&mut self, tokens: &Tokens, level: Level, close: usize) -> Result<(), AllocError> {
        let first = self.items.last().map_or(0, |first| *first);
        if self.pieces.len().saturating_sub(first) <= MOST_TOKENS {
            return Ok(());
        }
        if level.is_block {
            self.pieces.truncate(first);
            self.pieces.push(Piece::Nop)?;
        } else if self.is_instruction(tokens, first) {
            self.pieces.truncate(first.saturating_add(1));
            self.pieces.push(Piece::Nop)?;
            self.pieces.push(Piece::Token(close))?;
        }
        Ok(())
    }

    /// Adds the last token of the innermost group or block.
    fn close(&mut self, tokens: &Tokens, index: usize) -> Result<(), AllocError> {
        self.pieces.push(Piece::Token(index))?;
        let Some(level) = self.levels.pop() else {
            return Ok(());
        };
        self.items.truncate(level.first);
        self.replace(tokens, level, index)
    }

    /// Adds a token that isn't a parenthesis.
    fn add_word(&mut self, tokens: &Tokens, index: usize) -> Result<(), AllocError> {
        let word = word_at(tokens, index);
        let is_first = index > 0 && index <= tokens.len() && tokens.opens(index - 1);
        if word == "end" && self.levels.last().is_some_and(|level| level.is_block) {
            return self.close(tokens, index);
        }
        if begins_block(word) && !is_first {
            return self.open(tokens, index, true);
        }
        self.begin(tokens, index)
    }

    /// Adds a token.
    fn add(&mut self, tokens: &Tokens, index: usize) -> Result<(), AllocError> {
        if index >= tokens.len() {
            return Ok(());
        }
        if tokens.opens(index) {
            return self.open(tokens, index, false);
        }
        if tokens.closes(index) {
            return self.close(tokens, index);
        }
        self.add_word(tokens, index)
    }

    /// Returns the beginning of a field, shortened: the tokens from an index up to an end.
    fn of(alloc: Global, tokens: &Tokens, from: usize, to: usize) -> Result<Self, AllocError> {
        let mut shortened = Shortened {
            pieces: Vec::new(alloc),
            items: Vec::new(alloc),
            levels: Vec::new(alloc),
        };
        for index in from..to {
            shortened.add(tokens, index)?;
        }
        Ok(shortened)
    }
}

/// Adds a token of a text that isn't a parenthesis, and a space.
fn add_run(out: &mut String, text: &str, from: usize) -> Result<(), AllocError> {
    if from >= text.len() {
        return Ok(());
    }
    let end = run_end(text.as_bytes(), from).unwrap_or(from);
    let run = text.get(from..end).unwrap_or("");
    if run.starts_with("\"") && run.len() > LONGEST_STRING {
        out.push_str("\"\" ")
    } else {
        out.push_str(run)?;
        out.push_str(" ")
    }
}

/// Adds a piece of a text with these tokens.
fn add_piece(
    out: &mut String,
    text: &str,
    tokens: &Tokens,
    piece: Piece,
) -> Result<(), AllocError> {
    match piece {
        Piece::Token(index) if index < tokens.len() => {
            if tokens.opens(index) {
                out.push_str("(")
            } else if tokens.closes(index) {
                out.push_str(") ")
            } else {
                add_run(out, text, tokens.offset(index))
            }
        }
        Piece::Token(_) => Ok(()),
        Piece::Nop => out.push_str("nop "),
    }
}

/// Returns a short text for the beginning of a field. The beginning is the tokens of the text from an
/// index up to an end.
pub(crate) fn short_text(
    alloc: Global,
    text: &str,
    tokens: &Tokens,
    from: usize,
    to: usize,
) -> Result<String, AllocError> {
    let mut out = String::new(alloc);
    let shortened = Shortened::of(alloc, tokens, from, to)?;
    for piece in &shortened.pieces {
        add_piece(&mut out, text, tokens, *piece)?;
    }
    Ok(out)
}
